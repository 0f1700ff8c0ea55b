//! Worked receipts of growing heaps.
//!
//! No clause says that a heed is not refused, or that another caller's later get finds the key.
ghost use Rattle.std.specs.Prelude.{◌≡◌};

use sh_grown::{Caller, GrowingShare};
use sh_value::{Refusal, Value};
use std::fmt::Debug;
use std::process::Abort;

// Asserts that what was found is what is wanted. Each assertion that is written out is proved anew.
fn agree<T: PartialEq + Debug + Drop>(rt: &impl Abort, found: T, wanted: T) {
    assert_eq!(rt; found, wanted);
}

// A receipt goes from one caller to another one of the same heap.
fn sends_receipt(rt: &impl Abort, one: &mut Caller, other: &mut Caller)
    requires { other.old.growing ≡ one.old.growing }
    ensures one { one.new.growing ≡ one.old.growing }
    ensures other { other.new.growing ≡ other.old.growing }
{
    let receipt = one.receipt();
    agree(rt, other.heed(receipt), Ok(()));
}

// The first chunk has two shards, and each has an owner. So the third caller stores its value in chunk 1, which the
// first one has not met.
#[test]
fn a_key_of_a_chunk_that_was_not_met_is_found(rt: HostRuntime) {
    let growing = GrowingShare::open(rt.alloc(), 3, 2).expect(&rt, "a heap");
    let mut one = growing.claim(rt.alloc()).expect(&rt, "a caller");
    let mut other = growing.claim(rt.alloc()).expect(&rt, "another caller");
    let mut third = growing.claim(rt.alloc()).expect(&rt, "a third caller");
    agree(&rt, one.insert(rt.alloc(), &Value::from(1)).is_ok(), true);
    agree(&rt, other.insert(rt.alloc(), &Value::from(2)).is_ok(), true);
    let key = third
        .insert(rt.alloc(), &Value::from(9))
        .expect(&rt, "a key");
    agree(&rt, key >> 56, 1);
    sends_receipt(&rt, &mut third, &mut one);
    agree(&rt, one.look(key), Ok(Value::from(9)));
    agree(&rt, one.remove(key), Ok(()));
    sends_receipt(&rt, &mut one, &mut third);
    agree(&rt, third.look(key), Err(Refusal::Gone));
}

// A caller hears of the third one's value by the second one, whose receipt covers what that heard.
#[test]
fn a_receipt_covers_what_its_caller_heard(rt: HostRuntime) {
    let growing = GrowingShare::open(rt.alloc(), 3, 2).expect(&rt, "a heap");
    let mut one = growing.claim(rt.alloc()).expect(&rt, "a caller");
    let mut other = growing.claim(rt.alloc()).expect(&rt, "another caller");
    let mut third = growing.claim(rt.alloc()).expect(&rt, "a third caller");
    let key = third
        .insert(rt.alloc(), &Value::from(9))
        .expect(&rt, "a key");
    sends_receipt(&rt, &mut third, &mut other);
    sends_receipt(&rt, &mut other, &mut one);
    let hold = one.get(key).expect(&rt, "a hold");
    // An older receipt takes nothing away.
    sends_receipt(&rt, &mut third, &mut one);
    agree(&rt, one.read(hold), Ok(Value::from(9)));
    agree(&rt, one.release(hold), Ok(()));
}
