//! Each call that takes memory, refused once: it changes nothing, and the same call then succeeds.
use sh_grown::{Caller, Growing, GrowingShare};
use sh_value::{Refusal, Value};
use std::alloc::Global;
use std::fmt::Debug;
use std::process::Abort;

// How many values of one word the three chunks have room for.
const THREE: u64 = 1536;

// Asserts that what was found is what is wanted. Each assertion that is written out is proved anew.
fn agree<T: PartialEq + Debug + Drop>(rt: &impl Abort, found: T, wanted: T) {
    assert_eq!(rt; found, wanted);
}

// Opens a heap, and asks once more if memory was refused.
fn opened_with_memory(rt: &impl Abort, alloc: Global) -> GrowingShare {
    match GrowingShare::open(alloc, 1, 3) {
        Ok(growing) => growing,
        Err(why) => {
            agree(rt, why, Refusal::Memory);
            GrowingShare::open(alloc, 1, 3).expect(rt, "a heap")
        }
    }
}

// The same for a caller.
fn claimed_with_memory(rt: &impl Abort, alloc: Global, growing: &GrowingShare) -> Caller {
    match growing.claim(alloc) {
        Ok(caller) => caller,
        Err(why) => {
            agree(rt, why, Refusal::Memory);
            growing.claim(alloc).expect(rt, "a caller")
        }
    }
}

// The same for a chunk that is opened ahead.
fn opened_ahead_with_memory(rt: &impl Abort, alloc: Global, growing: &Growing) {
    if let Err(why) = growing.open_ahead(alloc) {
        agree(rt, why, Refusal::Memory);
        agree(rt, growing.open_ahead(alloc), Ok(1));
    }
}

// The same for an insert.
fn inserted_with_memory(rt: &impl Abort, alloc: Global, caller: &mut Caller, n: u64) -> u64 {
    match caller.insert(alloc, &Value::from(n)) {
        Ok(key) => key,
        Err(why) => {
            agree(rt, why, Refusal::Memory);
            caller.insert(alloc, &Value::from(n)).expect(rt, "a key")
        }
    }
}

// Asserts that an insert finds no room, and asks once more if memory was refused to an adoption.
fn is_full(rt: &impl Abort, alloc: Global, caller: &mut Caller) {
    let mut answer = caller.insert(alloc, &Value::from(1));
    if matches!(answer, Err(Refusal::Memory)) {
        answer = caller.insert(alloc, &Value::from(1));
    }
    agree(rt, answer, Err(Refusal::Full));
}

// Nothing is lost, and each value is there once.
#[test]
fn refused_memory_opens_nothing(rt: HostRuntime) {
    let growing = opened_with_memory(&rt, rt.alloc());
    let mut caller = claimed_with_memory(&rt, rt.alloc(), &growing);
    opened_ahead_with_memory(&rt, rt.alloc(), growing.heap());
    for n in 0..THREE {
        let key = inserted_with_memory(&rt, rt.alloc(), &mut caller, n);
        agree(&rt, caller.look(key), Ok(Value::from(n)));
    }
    agree(&rt, growing.heap().chunks(), 3);
    is_full(&rt, rt.alloc(), &mut caller);
}
