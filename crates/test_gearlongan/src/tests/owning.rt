//! Tests of adopting, preparing and leaving a shard.
use super::{adopted, agree, left, on_a_heap, opened, owner_and_reader};
use gearlongan::{Pass, Reader, Refusal, Shard, Value, Wide};
use std::alloc::Global;
use std::process::Abort;

// Asserts that the adoption was refused for this reason, and returns the pass.
fn not_adopted<'a>(
    rt: &impl Abort,
    alloc: Global,
    pass: Pass<'a, Wide>,
    shard: u64,
    wanted: Refusal,
) -> Pass<'a, Wide> {
    let Err((pass, why)) = Shard::adopt(alloc, pass, shard) else {
        panic!(rt; "a shard")
    };
    agree(rt, why, wanted);
    pass
}

#[test]
fn a_shard_has_one_owner_at_a_time(rt: HostRuntime) {
    let (heap, seats) = opened(&rt, rt.alloc(), 2);
    let (owner, reader) = owner_and_reader(&rt, rt.alloc(), &heap, seats);
    let reader = not_adopted(&rt, rt.alloc(), reader, 0, Refusal::Taken);
    let reader = not_adopted(&rt, rt.alloc(), reader, 1, Refusal::NoShard);
    let _pass = left(&rt, owner);
    let _owner = adopted(&rt, rt.alloc(), reader);
}

#[test]
fn what_one_owner_stored_the_next_removes(rt: HostRuntime) {
    let (heap, seats) = opened(&rt, rt.alloc(), 2);
    let (mut owner, reader) = owner_and_reader(&rt, rt.alloc(), &heap, seats);
    let key = owner.insert(&Value::from(7)).expect(&rt, "a key");
    let mut pass = left(&rt, owner);
    let mut next = adopted(&rt, rt.alloc(), reader);
    agree(&rt, next.remove(key), Ok(()));
    agree(&rt, pass.remove(key), Err(Refusal::Gone));
}

// Makes a page ready for values of one word and one for values of two, and stores both. Class 0 is that of values of
// one word, and class 1 that of values of two.
fn prepare_two_pages(rt: &impl Abort, owner: &mut Shard<'_, Wide>, _reader: &mut Pass<'_, Wide>) {
    agree(rt, owner.prepare(0), Ok(0));
    agree(rt, owner.prepare(1), Ok(1));
    let two = owner.insert(&Value::of([7, 8])).expect(rt, "a key");
    let one = owner.insert(&Value::from(9)).expect(rt, "a key");
    agree(rt, owner.fetch(two), Ok(Value::of([7, 8])));
    agree(rt, owner.fetch(one), Ok(Value::from(9)));
}

#[test]
fn a_page_is_made_ready_for_values_of_a_class(rt: HostRuntime) {
    on_a_heap(&rt, rt.alloc(), prepare_two_pages);
}

// Asserts that so many pages are left and slots are out.
fn count(rt: &impl Abort, owner: &Shard<'_, Wide>, pages_left: u64, slots_out: u64) {
    agree(rt, owner.pages_left(), pages_left);
    agree(rt, owner.slots_out(), slots_out);
}

// Counts what is left and what is out, as two values come.
fn count_inserts(rt: &impl Abort, owner: &mut Shard<'_, Wide>) -> (u64, u64) {
    count(rt, owner, 8, 0);
    let first = owner.insert(&Value::from(1)).expect(rt, "a key");
    let second = owner.insert(&Value::from(2)).expect(rt, "a key");
    count(rt, owner, 7, 2);
    (first, second)
}

// The same as a value goes. What another pass removes is out until the owner collects it.
fn count_removals(
    rt: &impl Abort,
    owner: &mut Shard<'_, Wide>,
    reader: &mut Pass<'_, Wide>,
    keys: (u64, u64),
) {
    agree(rt, owner.remove(keys.0), Ok(()));
    count(rt, owner, 7, 1);
    agree(rt, reader.remove(keys.1), Ok(()));
    count(rt, owner, 7, 1);
    owner.collect();
    count(rt, owner, 7, 0);
}

// Both.
fn count_inserts_and_removals(
    rt: &impl Abort,
    owner: &mut Shard<'_, Wide>,
    reader: &mut Pass<'_, Wide>,
) {
    let keys = count_inserts(rt, owner);
    count_removals(rt, owner, reader, keys);
}

#[test]
fn an_owner_knows_how_full_its_shard_is(rt: HostRuntime) {
    on_a_heap(&rt, rt.alloc(), count_inserts_and_removals);
}
