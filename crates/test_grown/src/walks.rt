//! The order in which an insert walks over the shards of a growing heap.
//!
//! No clause says which shard an insert tries first. One value of one word takes a slot; a shard of one segment has 384
//! of them.
use sh_grown::{Caller, GrowingShare};
use sh_value::{Refusal, Value};
use std::alloc::Global;
use std::fmt::Debug;
use std::process::Abort;

// Asserts that what was found is what is wanted. Each assertion that is written out is proved anew.
fn agree<T: PartialEq + Debug + Drop>(rt: &impl Abort, found: T, wanted: T) {
    assert_eq!(rt; found, wanted);
}

// Stores this many numbers, and returns their keys in order.
fn stored(rt: &impl Abort, alloc: Global, caller: &mut Caller, count: u64) -> Vec<u64> {
    let mut keys = Vec::new(alloc);
    for n in 0..count {
        let key = caller.insert(alloc, &Value::from(n)).expect(rt, "a key");
        keys.push(key).expect(rt, "room for a key");
    }
    keys
}

// Stores a number, and returns in which chunk.
fn chunk_of_next(rt: &impl Abort, alloc: Global, caller: &mut Caller) -> u64 {
    let key = caller.insert(alloc, &Value::from(7)).expect(rt, "a key");
    key >> 56
}

// Chunks of 2, 1, 1, 2 and 2 shards, all full. The last walk found the second shard of chunk 4. A slot is freed in the
// first shard of chunk 0, and one in the first shard of chunk 4.
#[test]
fn a_walk_begins_in_the_chunk_of_the_last_one(rt: HostRuntime) {
    let growing = GrowingShare::open(rt.alloc(), 2, 5).expect(&rt, "a heap");
    let mut caller = growing.claim(rt.alloc()).expect(&rt, "a caller");
    let mut other = growing.claim(rt.alloc()).expect(&rt, "another caller");
    let keys = stored(&rt, rt.alloc(), &mut caller, 3072);
    agree(&rt, growing.heap().chunks(), 5);
    let (Some(low), Some(high)) = (keys.first(), keys.get(2304)) else {
        return;
    };
    agree(&rt, (*low >> 56, *high >> 56), (0, 4));
    agree(&rt, other.remove(*low), Ok(()));
    agree(&rt, other.remove(*high), Ok(()));
    agree(&rt, chunk_of_next(&rt, rt.alloc(), &mut caller), 4);
    agree(&rt, chunk_of_next(&rt, rt.alloc(), &mut caller), 0);
    agree(
        &rt,
        caller.insert(rt.alloc(), &Value::from(8)),
        Err(Refusal::Full),
    );
}

// Stores a number, and returns in which chunk, and in which shard there: its number is at bits 18 to 23 of the key.
fn place_of_next(rt: &impl Abort, alloc: Global, caller: &mut Caller) -> (u64, u64) {
    let key = caller.insert(alloc, &Value::from(7)).expect(rt, "a key");
    (key >> 56, key >> 18 & 63)
}

// Chunks of 2, 1, 1, 2 and 2 shards. The walk of another caller found the first shard of chunk 4, and chunk 5 is open.
// A caller with number 0 begins behind that shard, and not in the first one or in chunk 5. While it owns the second, the
// other one inserts in the first.
#[test]
fn a_walk_begins_behind_where_another_caller_found_room(rt: HostRuntime) {
    let growing = GrowingShare::open(rt.alloc(), 2, 6).expect(&rt, "a heap");
    let mut caller = growing.claim(rt.alloc()).expect(&rt, "a caller");
    let mut other = growing.claim(rt.alloc()).expect(&rt, "another caller");
    agree(&rt, caller.number(), 0);
    let _keys = stored(&rt, rt.alloc(), &mut other, 2305);
    agree(&rt, growing.heap().open_ahead(rt.alloc()), Ok(5));
    agree(&rt, other.leave(), Ok(()));
    agree(&rt, place_of_next(&rt, rt.alloc(), &mut caller), (4, 1));
    agree(&rt, place_of_next(&rt, rt.alloc(), &mut other), (4, 0));
}

// The first walk of `high` begins behind the second of two shards, where `low` found room: with the first, in which one
// slot is free.
#[test]
fn a_walk_goes_round_the_shards_of_its_chunk(rt: HostRuntime) {
    let growing = GrowingShare::open(rt.alloc(), 2, 1).expect(&rt, "a heap");
    let mut low = growing.claim(rt.alloc()).expect(&rt, "a caller");
    let mut high = growing.claim(rt.alloc()).expect(&rt, "another caller");
    let keys = stored(&rt, rt.alloc(), &mut low, 385);
    agree(&rt, low.leave(), Ok(()));
    let Some(first) = keys.first() else {
        return;
    };
    agree(&rt, low.remove(*first), Ok(()));
    agree(&rt, place_of_next(&rt, rt.alloc(), &mut high), (0, 0));
    agree(&rt, place_of_next(&rt, rt.alloc(), &mut high), (0, 1));
    let _keys = stored(&rt, rt.alloc(), &mut high, 382);
    agree(
        &rt,
        high.insert(rt.alloc(), &Value::from(8)),
        Err(Refusal::Full),
    );
}
