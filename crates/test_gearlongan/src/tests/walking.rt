//! Tests of the keys of a shard, one after the other, as its owner finds them.
use super::{agree, on_a_heap};
use gearlongan::{Hold, NextKey, Pass, Reader, Refusal, Shard, Value, Wide, next_own_key};
use std::process::Abort;

// The place behind that of a key in its shard, by the format of keys of layout `Wide`: there are 48 places for each
// page before its own, and its place on the page is its slot.
fn behind(key: u64) -> u64 {
    key / 64 % 1024 * 48 + (key % 64 + 1)
}

// Asserts that the walk goes on with this key, and returns where it continues.
fn finds(rt: &impl Abort, owner: &mut Shard<'_, Wide>, from: u64, key: u64) -> u64 {
    let next = NextKey {
        key,
        behind: behind(key),
    };
    agree(rt, next_own_key(owner, from), Some(next));
    next.behind
}

// Asserts that the walk ends.
fn ends(rt: &impl Abort, owner: &mut Shard<'_, Wide>, from: u64) {
    agree(rt, next_own_key(owner, from), None);
}

// Walks over two values of one word and one of two words, which is on the next page.
fn walk_over_three(rt: &impl Abort, owner: &mut Shard<'_, Wide>) -> (u64, u64, u64) {
    let first = owner.insert(&Value::from(7)).expect(rt, "a key");
    let second = owner.insert(&Value::from(8)).expect(rt, "a key");
    let third = owner.insert(&Value::of([7, 8])).expect(rt, "a key");
    let place = finds(rt, owner, 0, first);
    let place = finds(rt, owner, place, second);
    let place = finds(rt, owner, place, third);
    ends(rt, owner, place);
    (first, second, third)
}

// Walks again after another pass removed the second key and the owner the first one.
fn walk_over_the_last(
    rt: &impl Abort,
    owner: &mut Shard<'_, Wide>,
    reader: &mut Pass<'_, Wide>,
    keys: (u64, u64, u64),
) {
    let (first, second, third) = keys;
    let place = finds(rt, owner, 0, first);
    agree(rt, reader.remove(second), Ok(()));
    let place = finds(rt, owner, place, third);
    ends(rt, owner, place);
    agree(rt, owner.remove(first), Ok(()));
    finds(rt, owner, 0, third);
}

// Walks over no value, over three, and over the one that is left.
fn walk_as_values_come_and_go(
    rt: &impl Abort,
    owner: &mut Shard<'_, Wide>,
    reader: &mut Pass<'_, Wide>,
) {
    ends(rt, owner, 0);
    let keys = walk_over_three(rt, owner);
    walk_over_the_last(rt, owner, reader, keys);
    ends(rt, owner, u64::MAX);
}

#[test]
fn an_owner_finds_the_keys_of_its_shard(rt: HostRuntime) {
    on_a_heap(&rt, rt.alloc(), walk_as_values_come_and_go);
}

// Asserts that a walk finds the key while the owner has 16 holds on it, and leaves no hold of its own.
fn walk_with_holds(rt: &impl Abort, owner: &mut Shard<'_, Wide>, _reader: &mut Pass<'_, Wide>) {
    let key = owner.insert(&Value::from(7)).expect(rt, "a key");
    for _ in 0..16 {
        agree(rt, owner.get(key), Ok(Hold { key }));
    }
    finds(rt, owner, 0, key);
    for _ in 0..16 {
        agree(rt, owner.release(Hold { key }), Ok(()));
    }
    agree(rt, owner.release(Hold { key }), Err(Refusal::NotHeld));
}

#[test]
fn a_walk_needs_no_room_for_a_hold(rt: HostRuntime) {
    on_a_heap(&rt, rt.alloc(), walk_with_holds);
}
