//! Walks by the owner of a shard and by another pass. They go over a full page, and over slots that were used again, are
//! marked, or have as many holds as there may be.
ghost use Rattle.std.specs.Prelude.{◌≡◌};

use super::*;
use sh_member::{NextHeld, NextLive, Reader};
use sh_pass::NextKey;
use sh_shard::Shard;
use sh_value::Value;

// The slots of a page of values of one word.
const SLOTS: u64 = 48;

// The owner of shard 0 of a heap of layout `Tiny`, and another pass.
fn owner_and_other<'a>(
    rt: &impl Abort,
    alloc: Global,
    heap: &'a Heap<Tiny>,
    seats: Seats<Tiny>,
) -> (Shard<'a, Tiny>, Pass<'a, Tiny>)
    requires { seats ≡ heap.now }
{
    let (one, other) = two_passes(rt, alloc, heap, seats);
    let Ok(shard) = Shard::adopt(alloc, one, 0) else {
        panic!(rt; "no shard")
    };
    (shard, other)
}

// Stores values of one word from 0 on in the first `count` slots, whose keys begin at 4096.
fn store(rt: &impl Abort, shard: &mut Shard<'_, Tiny>, count: u64) {
    for word in 0..count {
        let key = word.wrapping_add(4_096);
        agree(rt, shard.insert(&Value::from(word)), Ok(key));
    }
}

// From this place on the next live key is this one, whose value is the word, in the slot before that place.
fn finds<R: Reader>(rt: &impl Abort, reader: &mut R, from: u64, key: u64, word: u64, behind: u64) {
    let value = Value::from(word);
    let next = NextLive { key, value, behind };
    agree(rt, reader.next_live(from, behind), Some(next));
}

// The same into a value of the caller's.
fn finds_into<R: Reader>(
    rt: &impl Abort,
    reader: &mut R,
    from: u64,
    key: u64,
    word: u64,
    behind: u64,
) {
    let mut value = Value::of([5, 6]);
    let next = NextKey { key, behind };
    agree(
        rt,
        reader.next_live_into(from, behind, &mut value),
        Some(next),
    );
    agree(rt, value, Value::from(word));
}

// The same with a hold, which is released, or with none.
fn finds_held<R: Reader>(
    rt: &impl Abort,
    reader: &mut R,
    from: u64,
    key: u64,
    is_held: bool,
    behind: u64,
) {
    let hold = is_held.then_some(Hold { key });
    let next = NextHeld { key, hold, behind };
    agree(rt, reader.next_held(from, behind), Ok(Some(next)));
    if let Some(hold) = hold {
        agree(rt, reader.release(hold), Ok(()));
    }
}

// From this place on there is no live key, and the caller's value stays.
fn finds_none<R: Reader>(rt: &impl Abort, reader: &mut R, from: u64) {
    agree(rt, reader.next_live(from, u64::MAX), None);
    let mut value = Value::of([5, 6]);
    agree(rt, reader.next_live_into(from, u64::MAX, &mut value), None);
    agree(rt, value, Value::of([5, 6]));
    agree(rt, reader.next_held(from, u64::MAX), Ok(None));
}

// Each slot of the page has a value, the last one too.
fn finds_a_full_page<R: Reader>(rt: &impl Abort, reader: &mut R) {
    for slot in 0..SLOTS {
        let key = slot.wrapping_add(4_096);
        let behind = slot.wrapping_add(1);
        finds(rt, reader, slot, key, slot, behind);
        finds_into(rt, reader, slot, key, slot, behind);
        finds_held(rt, reader, slot, key, true, behind);
    }
    finds_none(rt, reader, SLOTS);
}

#[test]
fn a_walk_finds_each_slot_of_a_page(rt: HostRuntime) {
    let (heap, seats) = opened::<Tiny>(&rt, rt.alloc(), 2);
    let (mut shard, mut other) = owner_and_other(&rt, rt.alloc(), &heap, seats);
    finds_none(&rt, &mut shard, 0);
    finds_none(&rt, &mut other, 0);
    store(&rt, &mut shard, SLOTS);
    finds_a_full_page(&rt, &mut shard);
    finds_a_full_page(&rt, &mut other);
}

// On a full page the first key is removed and its slot used again, the second is removed while it is held, and the third
// gets four holds, as many as a key may have in this layout.
fn use_slots(rt: &impl Abort, shard: &mut Shard<'_, Tiny>, other: &mut Pass<'_, Tiny>) {
    store(rt, shard, SLOTS);
    agree(rt, other.get(4_097), Ok(Hold { key: 4_097 }));
    agree(rt, shard.remove(4_097), Ok(()));
    for _ in 0..4 {
        agree(rt, other.get(4_098), Ok(Hold { key: 4_098 }));
    }
    agree(rt, shard.remove(4_096), Ok(()));
    agree(rt, shard.insert(&Value::from(9)), Ok(8_192));
}

// A walk finds the key of the later generation, passes the marked slot over, and finds the third key without a hold.
fn finds_three<R: Reader>(rt: &impl Abort, reader: &mut R) {
    finds(rt, reader, 0, 8_192, 9, 1);
    finds(rt, reader, 1, 4_098, 2, 3);
    finds(rt, reader, 3, 4_099, 3, 4);
    finds_held(rt, reader, 0, 8_192, true, 1);
    finds_held(rt, reader, 1, 4_098, false, 3);
    finds_held(rt, reader, 3, 4_099, true, 4);
}

#[test]
fn a_walk_finds_live_keys_alone(rt: HostRuntime) {
    let (heap, seats) = opened::<Tiny>(&rt, rt.alloc(), 2);
    let (mut shard, mut other) = owner_and_other(&rt, rt.alloc(), &heap, seats);
    use_slots(&rt, &mut shard, &mut other);
    finds_three(&rt, &mut shard);
    finds_three(&rt, &mut other);
}

// On a full page whose keys begin at 4096 and have the values 0 to 47: no key, the first half by key, the last key by
// value, and then the others are removed.
fn removes_by_parts<R: Reader>(rt: &impl Abort, reader: &mut R) {
    agree(rt, reader.remove_if(|_key, _value| false), 0);
    agree(rt, reader.remove_if(|key, _value| key < 4_120), 24);
    finds(rt, reader, 0, 4_120, 24, 25);
    let last = Value::from(47);
    agree(rt, reader.remove_if(|_key, value| *value == last), 1);
    agree(rt, reader.next_live(47, u64::MAX), None);
    finds(rt, reader, 46, 4_142, 46, 47);
    agree(rt, reader.remove_if(|_key, _value| true), 23);
    finds_none(rt, reader, 0);
    agree(rt, reader.remove_if(|_key, _value| true), 0);
}

#[test]
fn an_owner_removes_the_keys_that_are_chosen(rt: HostRuntime) {
    let (heap, seats) = opened::<Tiny>(&rt, rt.alloc(), 2);
    let (mut shard, _other) = owner_and_other(&rt, rt.alloc(), &heap, seats);
    store(&rt, &mut shard, SLOTS);
    removes_by_parts(&rt, &mut shard);
}

#[test]
fn a_pass_removes_the_keys_that_are_chosen(rt: HostRuntime) {
    let (heap, seats) = opened::<Tiny>(&rt, rt.alloc(), 2);
    let (mut shard, mut other) = owner_and_other(&rt, rt.alloc(), &heap, seats);
    store(&rt, &mut shard, SLOTS);
    removes_by_parts(&rt, &mut other);
}

// The second of 48 slots is marked, and the third key has as many holds as it may have: its value stays for them.
#[test]
fn a_key_that_is_held_is_removed(rt: HostRuntime) {
    let (heap, seats) = opened::<Tiny>(&rt, rt.alloc(), 2);
    let (mut shard, mut other) = owner_and_other(&rt, rt.alloc(), &heap, seats);
    use_slots(&rt, &mut shard, &mut other);
    agree(&rt, shard.remove_if(|_key, _value| true), 47);
    finds_none(&rt, &mut other, 0);
    agree(&rt, other.read(Hold { key: 4_098 }), Ok(Value::from(2)));
}
