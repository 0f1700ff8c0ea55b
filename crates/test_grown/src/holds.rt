//! The holds of a pass that is given back and claimed again.
//!
//! No clause says that a chunk which is open is found, nor which number a claim returns. So none says that a hold in a
//! chunk that the new caller has not met is found.
use sh_grown::{Caller, GrowingShare, GrownGuard};
use sh_value::{Hold, Refusal, Value};
use std::alloc::Global;
use std::fmt::Debug;
use std::process::Abort;

// The number of the first value of chunk 1: 768 values fill the first one.
const FIRST: u64 = 768;

// Asserts that what was found is what is wanted. Each assertion that is written out is proved anew.
fn agree<T: PartialEq + Debug + Drop>(rt: &impl Abort, found: T, wanted: T) {
    assert_eq!(rt; found, wanted);
}

// Stores the numbers from 0 to `FIRST`, and returns the last key, which is of chunk 1.
fn last_key(rt: &impl Abort, alloc: Global, caller: &mut Caller) -> u64 {
    let mut key = 0;
    for n in 0..FIRST + 1 {
        key = caller.insert(alloc, &Value::from(n)).expect(rt, "a key");
    }
    agree(rt, key >> 56, 1);
    key
}

// Gives the caller back, and claims it again.
fn again(rt: &impl Abort, alloc: Global, growing: &GrowingShare, caller: Caller) -> Caller {
    let number = caller.number();
    agree(rt, caller.end().is_ok(), true);
    let caller = growing.claim(alloc).expect(rt, "the caller again");
    agree(rt, caller.number(), number);
    caller
}

// Each call is the first one of its caller in chunk 1. The value was removed, so only the holds keep it.
#[test]
fn a_pass_has_its_holds_when_it_is_claimed_again(rt: HostRuntime) {
    let growing = GrowingShare::open(rt.alloc(), 1, 3).expect(&rt, "a heap");
    let mut caller = growing.claim(rt.alloc()).expect(&rt, "a caller");
    let key = last_key(&rt, rt.alloc(), &mut caller);
    let hold = Hold { key };
    for _ in 0..2 {
        agree(&rt, caller.get(key).is_ok(), true);
    }
    agree(&rt, caller.remove(key), Ok(()));
    let mut caller = again(&rt, rt.alloc(), &growing, caller);
    agree(&rt, caller.read(hold), Ok(Value::from(FIRST)));
    let mut caller = again(&rt, rt.alloc(), &growing, caller);
    let mut value = Value::from(0);
    agree(&rt, caller.read_into(hold, &mut value), Ok(()));
    agree(&rt, value, Value::from(FIRST));
    let mut caller = again(&rt, rt.alloc(), &growing, caller);
    agree(&rt, caller.release(hold), Ok(()));
    let mut caller = again(&rt, rt.alloc(), &growing, caller);
    agree(&rt, caller.release(hold), Ok(()));
    agree(&rt, caller.release(hold), Err(Refusal::NotHeld));
    agree(&rt, caller.end().is_ok(), true);
}

// A guard of the pass, for the caller that has it next.
fn guarded(rt: &impl Abort, caller: &mut Caller, key: u64) -> GrownGuard {
    caller.get_guard(key).expect(rt, "a guard")
}

// The same by guards.
#[test]
fn a_pass_has_its_guards_when_it_is_claimed_again(rt: HostRuntime) {
    let growing = GrowingShare::open(rt.alloc(), 1, 3).expect(&rt, "a heap");
    let mut caller = growing.claim(rt.alloc()).expect(&rt, "a caller");
    let key = last_key(&rt, rt.alloc(), &mut caller);
    let guard = guarded(&rt, &mut caller, key);
    agree(&rt, caller.remove(key), Ok(()));
    let mut caller = again(&rt, rt.alloc(), &growing, caller);
    let mut value = Value::from(0);
    agree(&rt, caller.read_guard(&guard, &mut value), Ok(()));
    agree(&rt, value, Value::from(FIRST));
    let mut caller = again(&rt, rt.alloc(), &growing, caller);
    agree(&rt, caller.release_guard(guard), Ok(()));
    agree(&rt, caller.end().is_ok(), true);
}

// A caller that has no hold is refused so in a chunk that it has not met. A key of a chunk that is not open, or that
// the heap may not have, is none.
#[test]
fn a_key_that_is_not_held_is_refused(rt: HostRuntime) {
    let growing = GrowingShare::open(rt.alloc(), 2, 3).expect(&rt, "a heap");
    let mut caller = growing.claim(rt.alloc()).expect(&rt, "a caller");
    let mut other = growing.claim(rt.alloc()).expect(&rt, "another caller");
    let key = last_key(&rt, rt.alloc(), &mut caller);
    agree(&rt, other.read(Hold { key }), Err(Refusal::NotHeld));
    agree(&rt, other.release(Hold { key }), Err(Refusal::NotHeld));
    let (unopened, none) = (2 << 56 | 16_777_216, 3 << 56 | 16_777_216);
    agree(
        &rt,
        other.read(Hold { key: unopened }),
        Err(Refusal::BadKey),
    );
    agree(&rt, other.release(Hold { key: none }), Err(Refusal::BadKey));
    agree(&rt, caller.end().is_ok(), true);
    agree(&rt, other.end().is_ok(), true);
}
