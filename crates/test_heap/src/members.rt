//! Tests of members: two that own no shard are joined in one, what a member looks at, and which keys its walk finds.
ghost use Rattle.std.specs.Prelude.{◌≡◌};

use crate::assertions::agree;
use sh_gather::whole;
use sh_key::{KeyLayout, Tagged, Tiny, Wide};
use sh_member::{Member, NextHeld, NextLive};
use sh_pass::{Heap, KeepsHeap, Seats};
use sh_shape::Shape;
use sh_value::{Hold, Refusal, Value};
use std::alloc::Global;
use std::process::Abort;
use std::test::Fail;

// Two members of the heap, which own no shard.
fn two_members<'a, L: KeyLayout>(
    rt: &impl Abort,
    alloc: Global,
    heap: &'a Heap<L>,
    seats: Seats<L>,
) -> (Member<L, &'a Heap<L>>, Member<L, &'a Heap<L>>)
    requires { seats ≡ heap.now }
{
    let Ok(mut passes) = heap.passes(alloc, seats) else {
        panic!(rt; "no passes")
    };
    let (Some(second), Some(first)) = (passes.pop(), passes.pop()) else {
        panic!(rt; "not two passes")
    };
    (Member::of(first), Member::of(second))
}

// The key's value is fetched, or the fetch is refused and leaves the caller's value as it was.
fn fetches<L: KeyLayout, H: KeepsHeap<L>>(
    rt: &impl Abort,
    member: &mut Member<L, H>,
    key: u64,
    wanted: Result<u64, Refusal>,
) {
    agree(rt, member.look(key), wanted.map(Value::from));
    let mut value = Value::from(5);
    agree(rt, member.look_into(key, &mut value), wanted.map(|_| ()));
    agree(rt, value, Value::from(wanted.unwrap_or(5)));
}

// A member with sixteen holds on the key fetches its value. It has no room for the get of a key that was never issued,
// as that of the slot's next generation.
fn fetches_with_holds<H: KeepsHeap<Wide>>(rt: &impl Abort, member: &mut Member<Wide, H>, key: u64) {
    let next = key.wrapping_add(16_777_216);
    for _ in 0..16 {
        agree(rt, member.get(key), Ok(Hold { key }));
    }
    agree(rt, member.get(key), Err(Refusal::HoldsFull));
    fetches(rt, member, key, Ok(7));
    fetches(rt, member, next, Err(Refusal::HoldsFull));
    for _ in 0..16 {
        agree(rt, member.release(Hold { key }), Ok(()));
    }
    fetches(rt, member, next, Err(Refusal::Gone));
    fetches(rt, member, 0, Err(Refusal::BadKey));
}

#[test]
fn a_fetch_of_a_member_needs_no_hold(rt: HostRuntime) {
    let shape = Shape::new(1, 1, 2).expect(&rt, "a shape");
    let (heap, seats) = Heap::<Wide>::open(rt.alloc(), shape).expect(&rt, "a heap");
    let (mut owner, mut other) = two_members(&rt, rt.alloc(), &heap, seats);
    agree(&rt, owner.adopt(rt.alloc(), 0), Ok(()));
    let key = owner.insert(&Value::from(7)).expect(&rt, "a key");
    fetches_with_holds(&rt, &mut owner, key);
    fetches_with_holds(&rt, &mut other, key);
    agree(&rt, other.remove(key), Ok(()));
    fetches(&rt, &mut owner, key, Err(Refusal::Gone));
    fetches(&rt, &mut other, key, Err(Refusal::Gone));
}

// From this place on the next live key is this one, whose value is 7, in the slot before that place.
fn finds<H: KeepsHeap<Wide>>(
    rt: &impl Abort,
    member: &mut Member<Wide, H>,
    from: u64,
    key: u64,
    behind: u64,
) {
    let value = Value::from(7);
    let live = NextLive { key, value, behind };
    agree(rt, member.next_live(from, behind), Some(live));
    let hold = Some(Hold { key });
    let held = NextHeld { key, hold, behind };
    agree(rt, member.next_held(from, behind), Ok(Some(held)));
    agree(rt, member.release(Hold { key }), Ok(()));
}

// There are two live keys, in the first slots of two shards of 8 pages of 48 places each.
fn finds_two<H: KeepsHeap<Wide>>(rt: &impl Abort, member: &mut Member<Wide, H>, keys: (u64, u64)) {
    finds(rt, member, 0, keys.0, 1);
    finds(rt, member, 1, keys.1, 385);
    agree(rt, member.next_live(385, u64::MAX), None);
    agree(rt, member.next_held(385, u64::MAX), Ok(None));
}

// Adopts a shard, and inserts a value.
fn inserted<H: KeepsHeap<Wide>>(
    rt: &impl Abort,
    alloc: Global,
    member: &mut Member<Wide, H>,
    shard: u64,
) -> u64 {
    agree(rt, member.adopt(alloc, shard), Ok(()));
    member.insert(&Value::from(7)).expect(rt, "a key")
}

#[test]
fn a_walk_of_a_member_is_over_all_shards(rt: HostRuntime) {
    let shape = Shape::new(2, 1, 2).expect(&rt, "a shape");
    let (heap, seats) = Heap::<Wide>::open(rt.alloc(), shape).expect(&rt, "a heap");
    let (mut owner, mut other) = two_members(&rt, rt.alloc(), &heap, seats);
    let first = inserted(&rt, rt.alloc(), &mut other, 0);
    agree(&rt, other.leave(), Ok(()));
    let second = inserted(&rt, rt.alloc(), &mut owner, 1);
    finds_two(&rt, &mut owner, (first, second));
    finds_two(&rt, &mut other, (first, second));
    agree(&rt, owner.remove_if(|key, _value| key == first), 1);
    finds(&rt, &mut other, 0, second, 385);
    agree(
        &rt,
        other.remove_if(|_key, value| *value == Value::from(7)),
        1,
    );
    agree(&rt, owner.next_live(0, u64::MAX), None);
}

// Each of two members knows the shape of the heap, and both together are the whole.
fn two_are_the_whole<L: KeyLayout>(rt: &impl Abort, alloc: Global) {
    let shape = Shape::new(1, 1, 2).expect(rt, "a shape");
    let (heap, seats) = Heap::<L>::open(alloc, shape).expect(rt, "a heap");
    let Ok(mut passes) = heap.passes(alloc, seats) else {
        panic!(rt; "no passes")
    };
    let (Some(second), Some(first)) = (passes.pop(), passes.pop()) else {
        panic!(rt; "not two passes")
    };
    let one = Member::of(first);
    agree(rt, one.shape().passes(), 2);
    let Ok(pass) = one.join(Member::of(second)).into_pass() else {
        panic!(rt; "neither owns a shard")
    };
    agree(rt, whole(pass).is_ok(), true);
}

#[test]
fn two_members_are_joined_in_one(rt: HostRuntime) -> Result<(), Fail> {
    two_are_the_whole::<Tiny>(&rt, rt.alloc());
    two_are_the_whole::<Wide>(&rt, rt.alloc());
    two_are_the_whole::<Tagged>(&rt, rt.alloc());
    Ok(())
}
