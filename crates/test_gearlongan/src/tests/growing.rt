//! Tests of a heap that grows.
ghost use Rattle.std.specs.Prelude.{◌≡◌};

use super::agree;
use gearlongan::{Caller, GrowingShare, Refusal, Value};
use std::alloc::Global;
use std::process::Abort;

// Stores a value, fetches it and removes it, by a caller that then ends.
fn stored(alloc: Global) -> Result<Value, Refusal> {
    let growing = GrowingShare::open(alloc, 64, 256)?;
    let mut caller = growing.claim(alloc)?;
    let key = caller.insert(alloc, &Value::of([7, 8]))?;
    let value = caller.look(key)?;
    caller.remove(key)?;
    let Ok(()) = caller.end() else {
        return Err(Refusal::Waiting);
    };
    Ok(value)
}

#[test]
fn a_growing_heap_stores_a_value(rt: HostRuntime) {
    agree(&rt, stored(rt.alloc()), Ok(Value::of([7, 8])));
}

// The key of a value of one word.
fn key_of(rt: &impl Abort, alloc: Global, caller: &mut Caller, n: u64) -> u64 {
    caller.insert(alloc, &Value::from(n)).expect(rt, "a key")
}

#[test]
fn a_caller_reads_by_its_hold_what_another_one_removed(rt: HostRuntime) {
    let growing = GrowingShare::open(rt.alloc(), 2, 3).expect(&rt, "a heap");
    let mut one = growing.claim(rt.alloc()).expect(&rt, "a caller");
    let mut other = growing.claim(rt.alloc()).expect(&rt, "another caller");
    let key = key_of(&rt, rt.alloc(), &mut one, 7);
    let hold = other.get(key).expect(&rt, "a hold");
    agree(&rt, one.remove(key), Ok(()));
    agree(&rt, other.read(hold), Ok(Value::from(7)));
    agree(&rt, other.release(hold), Ok(()));
    agree(&rt, one.look(key), Err(Refusal::Gone));
}

// Chunk 0 has a value, and chunk 1 is opened ahead.
#[test]
fn chunks_are_opened_gathered_and_counted(rt: HostRuntime) {
    let growing = GrowingShare::open(rt.alloc(), 2, 3).expect(&rt, "a heap");
    let mut caller = growing.claim(rt.alloc()).expect(&rt, "a caller");
    let _key = key_of(&rt, rt.alloc(), &mut caller, 7);
    agree(&rt, caller.end().is_ok(), true);
    let chunk = growing.heap().open_next(rt.alloc()).expect(&rt, "a chunk");
    agree(&rt, chunk.number(), 1);
    agree(&rt, growing.heap().gather_chunks(rt.alloc()), Ok(2));
    let sums = growing.heap().totals().expect(&rt, "the totals");
    agree(&rt, (sums.chunks, sums.live), (2, 1));
}

// A key goes from one caller to another one of the same heap, with a receipt of its insert.
fn sends_key(rt: &impl Abort, alloc: Global, one: &mut Caller, other: &mut Caller, n: u64) -> u64
    requires { other.old.growing ≡ one.old.growing }
{
    let key = one.insert(alloc, &Value::from(n)).expect(rt, "a key");
    let receipt = one.receipt();
    agree(rt, other.heed(receipt), Ok(()));
    key
}

#[test]
fn a_key_that_came_with_a_receipt_of_its_caller_is_found(rt: HostRuntime) {
    let growing = GrowingShare::open(rt.alloc(), 2, 3).expect(&rt, "a heap");
    let mut one = growing.claim(rt.alloc()).expect(&rt, "a caller");
    let mut other = growing.claim(rt.alloc()).expect(&rt, "another caller");
    let key = sends_key(&rt, rt.alloc(), &mut one, &mut other, 7);
    agree(&rt, other.look(key), Ok(Value::from(7)));
}
