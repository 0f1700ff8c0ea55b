//! Keys of a growing heap that end: which call says so, with which words.
use sh_grown::{Caller, GrowingShare};
use sh_value::{Hold, Refusal, Value};
use std::alloc::Global;
use std::fmt::Debug;
use std::process::Abort;

// The number of the first value of chunk 1: 768 values fill the first one.
const FIRST: u64 = 768;

// Asserts that what was found is what is wanted. Each assertion that is written out is proved anew.
fn agree<T: PartialEq + Debug + Drop>(rt: &impl Abort, found: T, wanted: T) {
    assert_eq!(rt; found, wanted);
}

// Stores the numbers from 0 to `FIRST`, and returns the last key, which is of chunk 1.
fn last_key(rt: &impl Abort, alloc: Global, caller: &mut Caller) -> u64 {
    let mut key = 0;
    for n in 0..FIRST + 1 {
        key = caller.insert(alloc, &Value::from(n)).expect(rt, "a key");
    }
    agree(rt, key >> 56, 1);
    key
}

// The first call of the second caller in chunk 1 is a get, and its last one ends the key.
#[test]
fn a_key_of_chunk_1_ends_with_its_last_hold(rt: HostRuntime) {
    let growing = GrowingShare::open(rt.alloc(), 2, 3).expect(&rt, "a heap");
    let mut one = growing.claim(rt.alloc()).expect(&rt, "a caller");
    let mut two = growing.claim(rt.alloc()).expect(&rt, "another caller");
    let key = last_key(&rt, rt.alloc(), &mut one);
    let mut words = Value::from(5);
    let (held, ended) = two.get_ended(key, &mut words);
    agree(&rt, (held.is_ok(), ended), (true, None));
    agree(&rt, one.remove_ended(key, &mut words), (Ok(()), None));
    let (held, ended) = one.get_ended(key, &mut words);
    agree(&rt, (held.err(), ended), (Some(Refusal::Gone), None));
    agree(&rt, words, Value::from(5));
    let mut words = Value::from(5);
    let hold = Hold { key };
    let end = (Ok(()), Some(key));
    agree(&rt, two.release_ended(hold, &mut words), end);
    agree(&rt, words, Value::from(FIRST));
    let mut words = Value::from(5);
    let none = (Err(Refusal::NotHeld), None);
    agree(&rt, two.release_ended(hold, &mut words), none);
    agree(&rt, one.end().is_ok(), true);
    agree(&rt, two.end().is_ok(), true);
}

// Nobody holds the key of the first chunk. That of a chunk that is not open ends nothing.
#[test]
fn a_key_that_nobody_holds_ends_with_its_removal(rt: HostRuntime) {
    let growing = GrowingShare::open(rt.alloc(), 1, 3).expect(&rt, "a heap");
    let mut caller = growing.claim(rt.alloc()).expect(&rt, "a caller");
    let key = caller
        .insert(rt.alloc(), &Value::of([7, 8, 9]))
        .expect(&rt, "a key");
    let mut words = Value::from(5);
    let unopened = 2 << 56 | key;
    let none = (Err(Refusal::BadKey), None);
    agree(&rt, caller.remove_ended(unopened, &mut words), none);
    agree(&rt, words, Value::from(5));
    let mut words = Value::from(5);
    let end = (Ok(()), Some(key));
    agree(&rt, caller.remove_ended(key, &mut words), end);
    agree(&rt, words, Value::of([7, 8, 9]));
    let mut words = Value::from(5);
    let gone = (Err(Refusal::Gone), None);
    agree(&rt, caller.remove_ended(key, &mut words), gone);
    agree(&rt, caller.end().is_ok(), true);
}
