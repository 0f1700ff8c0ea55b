//! Tests of calls that say which key they ended: who ends a key, and with which words.
ghost use Rattle.std.specs.Prelude.{◌≡◌};

use crate::assertions::agree;
use sh_key::Tiny;
use sh_pass::{Busy, Heap, NoWords, Pass, Seats, Tells};
use sh_shape::Shape;
use sh_shard::Shard;
use sh_step::Action;
use sh_value::{Hold, Refusal, Value};
use std::alloc::Global;
use std::process::Abort;

// A heap of three passes.
fn opened(rt: &impl Abort, alloc: Global) -> (Heap<Tiny>, Seats<Tiny>)
    ensures { result.1 ≡ result.0 }
{
    let shape = Shape::new(1, 1, 3).expect(rt, "a shape");
    Heap::<Tiny>::open(alloc, shape).expect(rt, "a heap")
}

// An owner of shard 0, and two passes.
fn owner_and_two<'a>(
    rt: &impl Abort,
    alloc: Global,
    heap: &'a Heap<Tiny>,
    seats: Seats<Tiny>,
) -> (Shard<'a, Tiny>, Pass<'a, Tiny>, Pass<'a, Tiny>)
    requires { seats ≡ heap.now }
{
    let Ok(mut passes) = heap.passes(alloc, seats) else {
        panic!(rt; "no passes")
    };
    let (Some(third), Some(second), Some(first)) = (passes.pop(), passes.pop(), passes.pop()) else {
        panic!(rt; "not three passes")
    };
    let Ok(owner) = Shard::adopt(alloc, first, 0) else {
        panic!(rt; "no shard")
    };
    (owner, second, third)
}

// The three words 7, 8 and 9.
fn three_words() -> Value {
    Value::of([7, 8, 9])
}

// The removal ends the key, with its words.
fn removal_ends<T: Tells>(rt: &impl Abort, caller: &mut T, key: u64) {
    let mut words = Value::from(5);
    agree(
        rt,
        caller.remove_ended(key, &mut words),
        (Ok(()), Some(key)),
    );
    agree(rt, words, three_words());
    let mut words = Value::from(5);
    let gone = (Err(Refusal::Gone), None);
    agree(rt, caller.remove_ended(key, &mut words), gone);
    agree(rt, words, Value::from(5));
}

// A removal of a key that a second caller holds ends nothing. The second one's last release does.
fn release_ends<T: Tells, U: Tells>(rt: &impl Abort, caller: &mut T, other: &mut U, key: u64) {
    let mut words = Value::from(5);
    let hold = Hold { key };
    agree(rt, other.get_ended(key, &mut words), (Ok(hold), None));
    agree(rt, other.get_ended(key, &mut words), (Ok(hold), None));
    agree(rt, caller.remove_ended(key, &mut words), (Ok(()), None));
    agree(rt, other.release_ended(hold, &mut words), (Ok(()), None));
    agree(rt, words.copy(), Value::from(5));
    agree(
        rt,
        other.release_ended(hold, &mut words),
        (Ok(()), Some(key)),
    );
    agree(rt, words.copy(), three_words());
    let not_held = (Err(Refusal::NotHeld), None);
    agree(rt, other.release_ended(hold, &mut words), not_held);
    agree(rt, words, three_words());
}

// A pass that was stopped has removed the key and left its slot, and has yet to end it.
fn stopped<'a>(rt: &impl Abort, pass: Pass<'a, Tiny>, key: u64) -> Busy<'a, Tiny> {
    let mut busy = pass.begin();
    agree(rt, busy.act(&Action::EnterRemove(key)), true);
    agree(rt, busy.act(&Action::Mark), true);
    agree(rt, busy.act(&Action::Drop), true);
    busy
}

// The stopped pass goes on: it finds that the key has ended, and has nothing left to do.
fn goes_on(rt: &impl Abort, mut busy: Busy<'_, Tiny>) {
    agree(rt, busy.act(&Action::Finish), true);
    agree(rt, busy.end().is_ok(), true);
}

#[test]
fn who_removes_a_key_alone_ends_it(rt: HostRuntime) {
    let (heap, seats) = opened(&rt, rt.alloc());
    let (mut owner, mut one, _other) = owner_and_two(&rt, rt.alloc(), &heap, seats);
    let first = owner.insert(&three_words()).expect(&rt, "a key");
    removal_ends(&rt, &mut one, first);
    let second = owner.insert(&three_words()).expect(&rt, "a key");
    removal_ends(&rt, &mut owner, second);
}

#[test]
fn the_last_release_of_a_removed_key_ends_it(rt: HostRuntime) {
    let (heap, seats) = opened(&rt, rt.alloc());
    let (mut owner, mut one, mut other) = owner_and_two(&rt, rt.alloc(), &heap, seats);
    let first = owner.insert(&three_words()).expect(&rt, "a key");
    release_ends(&rt, &mut one, &mut other, first);
    let second = owner.insert(&three_words()).expect(&rt, "a key");
    release_ends(&rt, &mut other, &mut owner, second);
    let third = owner.insert(&three_words()).expect(&rt, "a key");
    release_ends(&rt, &mut owner, &mut one, third);
}

#[test]
fn a_refused_get_that_was_on_the_slot_ends_it(rt: HostRuntime) {
    let (heap, seats) = opened(&rt, rt.alloc());
    let (mut owner, mut one, other) = owner_and_two(&rt, rt.alloc(), &heap, seats);
    let key = owner.insert(&three_words()).expect(&rt, "a key");
    let busy = stopped(&rt, other, key);
    let mut words = Value::from(5);
    let gone = (Err(Refusal::Gone), Some(key));
    agree(&rt, one.get_ended(key, &mut words), gone);
    agree(&rt, words, three_words());
    goes_on(&rt, busy);
}

// The next key of the slot, which was not issued yet: a generation has 4,096 numbers.
#[test]
fn a_get_of_another_key_of_the_slot_ends_it(rt: HostRuntime) {
    let (heap, seats) = opened(&rt, rt.alloc());
    let (mut owner, one, other) = owner_and_two(&rt, rt.alloc(), &heap, seats);
    let key = owner.insert(&three_words()).expect(&rt, "a key");
    let busy = stopped(&rt, other, key);
    let later = key.wrapping_add(4_096);
    let gone = (Err(Refusal::Gone), Some(key));
    agree(&rt, owner.remove_ended(later, &mut NoWords), gone);
    goes_on(&rt, busy);
    let mut one = one;
    agree(
        &rt,
        one.get_ended(key, &mut NoWords),
        (Err(Refusal::Gone), None),
    );
    let bad = (Err(Refusal::BadKey), None);
    agree(&rt, one.get_ended(0, &mut NoWords), bad);
}

// A page has three slots for values of sixteen words. Once two more are in use, the fourth key is of the slot of the
// first one, so its words are stored where those of the first one were.
#[test]
fn a_fresh_value_of_the_slot_is_another_key(rt: HostRuntime) {
    let (heap, seats) = opened(&rt, rt.alloc());
    let (mut owner, mut one, _other) = owner_and_two(&rt, rt.alloc(), &heap, seats);
    let first = owner.insert(&Value::of([1; 16])).expect(&rt, "a key");
    agree(
        &rt,
        owner.remove_ended(first, &mut NoWords),
        (Ok(()), Some(first)),
    );
    for _ in 0..2 {
        agree(&rt, owner.insert(&Value::of([2; 16])).is_ok(), true);
    }
    let fresh = owner.insert(&Value::of([3; 16])).expect(&rt, "a key");
    agree(&rt, fresh, first.wrapping_add(4_096));
    let mut words = Value::from(5);
    let gone = (Err(Refusal::Gone), None);
    agree(&rt, one.remove_ended(first, &mut words), gone);
    agree(
        &rt,
        one.remove_ended(fresh, &mut words),
        (Ok(()), Some(fresh)),
    );
    agree(&rt, words, Value::of([3; 16]));
}
