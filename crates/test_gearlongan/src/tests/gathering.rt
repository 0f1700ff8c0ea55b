//! Tests of joining passes, and of what is known then.
ghost use Rattle.std.specs.Prelude.{◌≡◌};

use super::{agree, left, opened, owner_and_reader};
use gearlongan::{
    Heap, Pass, Reader, Refusal, Shard, Task, Value, Whole, Wide, all_accounts, both, gather, join,
    total, whole,
};
use std::alloc::Global;
use std::process::Abort;

// A pass that removes a key in its thread.
#[derive(Drop)]
struct Removing<'a> {
    pass: Pass<'a, Wide>,
    key: u64,
}

impl<'a> Task for Removing<'a> {
    type Output = (Pass<'a, Wide>, Result<Value, Refusal>);

    ghost gives = { λ task output. output.0.heap ≡ task.pass.heap };

    fn run(self) -> (Pass<'a, Wide>, Result<Value, Refusal>) {
        let Removing { mut pass, key } = self;
        let value = pass.take(key);
        (pass, value)
    }
}

// Stores this value, and returns the pass of the owner, which has left its shard, with the key.
fn owner_left<'a>(rt: &impl Abort, owner: Shard<'a, Wide>, value: &Value) -> (Pass<'a, Wide>, u64)
    ensures { result.0.heap ≡ owner.entry.pages.owner.heap }
{
    let mut owner = owner;
    let key = owner.insert(value).expect(rt, "a key");
    (left(rt, owner), key)
}

// Asserts that a pass that is joined with no other is not the whole, and that two joined passes are.
fn all_of_two<'a>(rt: &impl Abort, pass: Pass<'a, Wide>, other: Pass<'a, Wide>) -> Whole<'a, Wide>
    requires { other.heap ≡ pass.heap }
{
    let Err(pass) = whole(pass) else {
        panic!(rt; "a pass that met no other")
    };
    let Ok(all) = whole(join(pass, other)) else {
        panic!(rt; "both passes are the whole")
    };
    all
}

// The number of values of the heap that has these two passes.
fn live<'a>(
    rt: &impl Abort,
    alloc: Global,
    heap: &'a Heap<Wide>,
    one: Pass<'a, Wide>,
    two: Pass<'a, Wide>,
) -> u32
    requires one { one.heap ≡ heap.now }
    requires two { two.heap ≡ heap.now }
{
    let mut passes = Vec::with_capacity(alloc, 2).expect(rt, "room for two passes");
    passes.push_reserved(one);
    passes.push_reserved(two);
    let Ok(mut all) = gather(heap, passes) else {
        panic!(rt; "both passes are the whole")
    };
    total(&mut all).live
}

// What all passes together know of eight pages, one of which has a value.
fn one_value_is_counted(rt: &impl Abort, alloc: Global, all: &mut Whole<'_, Wide>) {
    let page = all.accounts(0, 0).expect(rt, "a page");
    agree(rt, (page.class, page.live, page.queued), (Some(0), 1, 47));
    agree(rt, all.accounts(0, 8), None);
    let totals = total(all);
    let counts = (totals.live, totals.used_pages, totals.blank_pages);
    agree(rt, counts, (1, 1, 7));
    let pages = all_accounts(alloc, all).expect(rt, "the accounts");
    agree(rt, pages.len(), 8);
}

#[test]
fn passes_that_met_know_what_each_page_has(rt: HostRuntime) {
    let (heap, seats) = opened(&rt, rt.alloc(), 2);
    let (owner, reader) = owner_and_reader(&rt, rt.alloc(), &heap, seats);
    let (pass, _) = owner_left(&rt, owner, &Value::from(7));
    let mut all = all_of_two(&rt, pass, reader);
    one_value_is_counted(&rt, rt.alloc(), &mut all);
}

#[test]
fn of_two_that_take_a_key_one_gets_its_value(rt: HostRuntime) {
    let (heap, seats) = opened(&rt, rt.alloc(), 2);
    let (owner, two) = owner_and_reader(&rt, rt.alloc(), &heap, seats);
    let (one, key) = owner_left(&rt, owner, &Value::from(7));
    let ((one, first), (two, second)) = both(
        &rt,
        Removing { pass: one, key },
        Removing { pass: two, key },
    );
    agree(&rt, first.is_ok() != second.is_ok(), true);
    agree(&rt, live(&rt, rt.alloc(), &heap, one, two), 0);
}

#[test]
fn passes_that_are_not_all_come_back(rt: HostRuntime) {
    let (heap, seats) = opened(&rt, rt.alloc(), 2);
    let Ok(mut passes) = heap.passes(rt.alloc(), seats) else {
        panic!(rt; "no passes")
    };
    let last = passes.pop().expect(&rt, "a pass");
    let Err(mut passes) = gather(&heap, passes) else {
        panic!(rt; "one pass is the whole")
    };
    agree(&rt, passes.len(), 1);
    passes.push(last).expect(&rt, "room for a pass");
    agree(&rt, gather(&heap, passes).is_ok(), true);
}
