//! Receipts: what one pass observed happens before what another pass observes after it heeded the receipt.
ghost use Rattle.std.specs.Prelude.{◌≡◌};

use super::{agree, left, opened, owner_and_reader};
use crate::hearing::get_heard;
use gearlongan::{
    Heap, Pass, Receipt, Refusal, Shard, Task, ToldKey, Value, Wide, both, fetch_told, insert_told,
    remove_then_get,
};
use std::process::Abort;

// A key that was sent to a pass in another thread, with a receipt of its insert.
#[derive(Drop)]
struct Sent<'a> {
    pass: Pass<'a, Wide>,
    told: ToldKey,
    ghost of_one_heap: { told.receipt.heap ≡ pass.heap },
}

impl<'a> Task for Sent<'a> {
    type Output = (Pass<'a, Wide>, Result<Value, Refusal>);

    ghost gives = { λ task output. output.0.heap ≡ task.pass.heap };

    fn run(self) -> (Pass<'a, Wide>, Result<Value, Refusal>) {
        let Sent { mut pass, told } = self;
        let value = fetch_told(&mut pass, told);
        (pass, value)
    }
}

#[test]
fn a_key_that_comes_with_a_receipt_is_found(rt: HostRuntime) {
    let (heap, seats) = opened(&rt, rt.alloc(), 2);
    let (mut owner, pass) = owner_and_reader(&rt, rt.alloc(), &heap, seats);
    let told = insert_told(&mut owner, &Value::from(7)).expect(&rt, "a key");
    let ((pass, value), ()) = both(&rt, Sent { pass, told }, Idle);
    agree(&rt, value, Ok(Value::from(7)));
    drop(pass);
}

#[test]
fn a_key_that_comes_with_a_receipt_is_gone_where_it_was_removed(rt: HostRuntime) {
    let (heap, seats) = opened(&rt, rt.alloc(), 2);
    let (mut owner, mut pass) = owner_and_reader(&rt, rt.alloc(), &heap, seats);
    let told = insert_told(&mut owner, &Value::from(7)).expect(&rt, "a key");
    agree(&rt, owner.remove(told.key), Ok(()));
    agree(&rt, fetch_told(&mut pass, told), Err(Refusal::Gone));
}

// A task that does nothing.
#[derive(Drop)]
struct Idle;

impl Task for Idle {
    type Output = ();

    ghost gives = { λ task output. Unit {0} };

    fn run(self) {}
}

// The pass hears of the insert, and finds the key. Returns a copy of what it heard.
fn hear_of_an_insert(
    rt: &impl Abort,
    heap: &Heap<Wide>,
    pass: &mut Pass<'_, Wide>,
    receipt: Receipt,
    key: u64,
) -> Receipt
    requires pass { pass.old.heap ≡ heap.now }
    requires receipt { receipt.heap ≡ heap.now }
    ensures pass { pass.new.heap ≡ pass.old.heap }
    ensures again { result.heap ≡ heap.now }
{
    let mut receipt = receipt;
    let again = receipt.copy(heap);
    pass.heed(receipt);
    let hold = pass.get(key).expect(rt, "a hold");
    agree(rt, pass.release(hold), Ok(()));
    again
}

// Who heard of the removal does not find the key. An older receipt loses nothing: the pass still knows what it heard.
fn hear_of_a_removal(
    rt: &impl Abort,
    owner: &mut Shard<'_, Wide>,
    pass: &mut Pass<'_, Wide>,
    again: Receipt,
    key: u64,
)
    requires owner { owner.old.pages.owner.heap ≡ pass.old.heap }
    requires receipt { again.heap ≡ pass.old.heap }
{
    pass.heed(again);
    pass.heed(owner.receipt());
    agree(rt, pass.get(key), Err(Refusal::Gone));
    owner.heed(pass.receipt());
    agree(rt, owner.get(key), Err(Refusal::Gone));
}

#[test]
fn who_heard_of_a_removal_does_not_find_the_key(rt: HostRuntime) {
    let (heap, seats) = opened(&rt, rt.alloc(), 2);
    let (mut owner, mut pass) = owner_and_reader(&rt, rt.alloc(), &heap, seats);
    let key = owner.insert(&Value::from(7)).expect(&rt, "a key");
    let again = hear_of_an_insert(&rt, &heap, &mut pass, owner.receipt(), key);
    agree(&rt, owner.remove(key), Ok(()));
    hear_of_a_removal(&rt, &mut owner, &mut pass, again, key);
}

#[test]
fn a_get_after_a_removal_finds_nothing(rt: HostRuntime) {
    let (heap, seats) = opened(&rt, rt.alloc(), 2);
    let (mut owner, reader) = owner_and_reader(&rt, rt.alloc(), &heap, seats);
    let key = owner.insert(&Value::from(7)).expect(&rt, "a key");
    let mut pass = left(&rt, owner);
    let mut reader = reader;
    agree(
        &rt,
        remove_then_get(&mut pass, &mut reader, key),
        Err(Refusal::Gone),
    );
    agree(
        &rt,
        remove_then_get(&mut pass, &mut reader, key),
        Err(Refusal::Gone),
    );
}

// Gets a key with a receipt, before it is removed and after that.
fn get_with_receipts(rt: &impl Abort, owner: &mut Shard<'_, Wide>, pass: &mut Pass<'_, Wide>)
    requires { owner.old.pages.owner.heap ≡ pass.old.heap }
{
    let key = owner.insert(&Value::from(7)).expect(rt, "a key");
    let hold = get_heard(pass, owner.receipt(), key).expect(rt, "a hold");
    agree(rt, pass.release(hold), Ok(()));
    agree(rt, owner.remove(key), Ok(()));
    let receipt = owner.receipt();
    agree(rt, get_heard(pass, receipt, key), Err(Refusal::Gone));
}

#[test]
fn a_key_with_a_receipt_is_gone_after_its_removal(rt: HostRuntime) {
    let (heap, seats) = opened(&rt, rt.alloc(), 2);
    let (mut owner, mut pass) = owner_and_reader(&rt, rt.alloc(), &heap, seats);
    get_with_receipts(&rt, &mut owner, &mut pass);
}
