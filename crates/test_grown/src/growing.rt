//! Worked calls of growing heaps. One value of one word takes a slot; a shard of one segment has 384 of them.
//!
//! No clause says which chunk an insert goes to, or that what others freed is used before a chunk is opened. Nor does
//! one say that a number is claimed again, or that two threads get one chunk.
use sh_grown::{Caller, Growing, GrowingShare, NotTold};
use sh_value::{Refusal, Value};
use std::alloc::Global;
use std::fmt::Debug;
use std::process::Abort;
use std::thread::join;

// How many values of one word the first chunk has room for, and the first three together.
const FIRST: u64 = 768;

const THREE: u64 = 1536;

// Asserts that what was found is what is wanted. Each assertion that is written out is proved anew.
fn agree<T: PartialEq + Debug + Drop>(rt: &impl Abort, found: T, wanted: T) {
    assert_eq!(rt; found, wanted);
}

// Stores the numbers from `from` on, and returns their keys in order.
fn stored(rt: &impl Abort, alloc: Global, caller: &mut Caller, from: u64, count: u64) -> Vec<u64> {
    let mut keys = Vec::new(alloc);
    for n in 0..count {
        let key = caller
            .insert(alloc, &Value::from(from.wrapping_add(n)))
            .expect(rt, "a key");
        keys.push(key).expect(rt, "room for a key");
    }
    keys
}

// Asserts that the keys have the numbers from `from` on.
fn has_all(rt: &impl Abort, caller: &mut Caller, keys: &[u64], from: u64) {
    let mut wanted = from;
    for key in keys {
        agree(rt, caller.look(*key), Ok(Value::from(wanted)));
        wanted = wanted.wrapping_add(1);
    }
}

#[test]
fn values_of_several_chunks_are_found(rt: HostRuntime) {
    let growing = GrowingShare::open(rt.alloc(), 2, 256).expect(&rt, "a heap");
    let mut caller = growing.claim(rt.alloc()).expect(&rt, "a caller");
    let mut other = growing.claim(rt.alloc()).expect(&rt, "another caller");
    agree(&rt, (caller.number(), other.number()), (0, 1));
    let keys = stored(&rt, rt.alloc(), &mut caller, 0, 3000);
    agree(&rt, growing.heap().chunks(), 5);
    has_all(&rt, &mut other, &keys, 0);
    for key in keys.iter().step_by(3) {
        agree(&rt, other.remove(*key), Ok(()));
        agree(&rt, caller.look(*key), Err(Refusal::Gone));
    }
    // What the other removed is used again before a chunk is opened.
    let more = stored(&rt, rt.alloc(), &mut caller, 5000, 1000);
    agree(&rt, growing.heap().chunks(), 5);
    has_all(&rt, &mut other, &more, 5000);
}

// The numbers of chunks at bits 56 to 63, by hand: 768 values go to chunk 0, and the next one to chunk 1.
#[test]
fn a_key_has_the_number_of_its_chunk(rt: HostRuntime) {
    let growing = GrowingShare::open(rt.alloc(), 1, 3).expect(&rt, "a heap");
    let mut caller = growing.claim(rt.alloc()).expect(&rt, "a caller");
    let keys = stored(&rt, rt.alloc(), &mut caller, 0, FIRST + 1);
    agree(&rt, keys.get(767).map(|key| *key >> 56), Some(0));
    agree(&rt, keys.get(768).map(|key| *key >> 56), Some(1));
    // No chunk of the heap has this number, chunk 2 is not open, and page 16 is in no shard of chunk 1.
    agree(&rt, caller.look(3 << 56 | 16_777_216), Err(Refusal::BadKey));
    agree(&rt, caller.look(2 << 56 | 16_777_216), Err(Refusal::BadKey));
    agree(&rt, caller.look(1 << 56 | 16_778_240), Err(Refusal::BadKey));
}

#[test]
fn a_heap_whose_chunks_are_full_is_full(rt: HostRuntime) {
    let growing = GrowingShare::open(rt.alloc(), 2, 3).expect(&rt, "a heap");
    let mut caller = growing.claim(rt.alloc()).expect(&rt, "a caller");
    let mut other = growing.claim(rt.alloc()).expect(&rt, "another caller");
    let keys = stored(&rt, rt.alloc(), &mut caller, 0, THREE);
    agree(&rt, growing.heap().chunks(), 3);
    agree(
        &rt,
        caller.insert(rt.alloc(), &Value::from(1)),
        Err(Refusal::Full),
    );
    has_all(&rt, &mut other, &keys, 0);
    // Each slot that is freed has room for one value more, in any chunk.
    for key in keys.iter().step_by(500) {
        agree(&rt, other.remove(*key), Ok(()));
        agree(
            &rt,
            caller.insert(rt.alloc(), &Value::from(7)).is_ok(),
            true,
        );
        agree(
            &rt,
            caller.insert(rt.alloc(), &Value::from(8)),
            Err(Refusal::Full),
        );
    }
}

#[test]
fn chunks_are_opened_ahead(rt: HostRuntime) {
    let growing = GrowingShare::open(rt.alloc(), 1, 3).expect(&rt, "a heap");
    agree(&rt, growing.heap().open_ahead(rt.alloc()), Ok(1));
    agree(&rt, growing.heap().open_ahead(rt.alloc()), Ok(2));
    agree(&rt, growing.heap().chunks(), 3);
    agree(
        &rt,
        growing.heap().open_ahead(rt.alloc()),
        Err(Refusal::Full),
    );
    let mut caller = growing.claim(rt.alloc()).expect(&rt, "a caller");
    let keys = stored(&rt, rt.alloc(), &mut caller, 0, THREE);
    agree(&rt, growing.heap().chunks(), 3);
    has_all(&rt, &mut caller, &keys, 0);
}

#[test]
fn holds_count_in_each_chunk(rt: HostRuntime) {
    let growing = GrowingShare::open(rt.alloc(), 2, 3).expect(&rt, "a heap");
    let mut caller = growing.claim(rt.alloc()).expect(&rt, "a caller");
    let mut other = growing.claim(rt.alloc()).expect(&rt, "another caller");
    let keys = stored(&rt, rt.alloc(), &mut caller, 0, FIRST + 1);
    let (Some(low), Some(high)) = (keys.first(), keys.last()) else {
        return;
    };
    for _ in 0..16 {
        agree(&rt, other.get(*low).map(|hold| hold.key), Ok(*low));
        agree(&rt, other.get(*high).map(|hold| hold.key), Ok(*high));
    }
    agree(&rt, other.get(*high), Err(Refusal::HoldsFull));
    // A look needs no room for a hold, except of a key that was not issued, such as the next one of the slot.
    agree(&rt, other.look(*low), Ok(Value::from(0)));
    agree(&rt, other.look(*high), Ok(Value::from(FIRST)));
    let next = high.wrapping_add(16_777_216);
    agree(&rt, other.look(next), Err(Refusal::HoldsFull));
    agree(&rt, caller.look(next), Err(Refusal::Gone));
    let hold = sh_value::Hold { key: *high };
    agree(&rt, caller.remove(*high), Ok(()));
    agree(&rt, other.look(*high), Err(Refusal::Gone));
    agree(&rt, other.read(hold), Ok(Value::from(FIRST)));
    agree(&rt, caller.read(hold), Err(Refusal::NotHeld));
    for _ in 0..16 {
        agree(&rt, other.release(hold), Ok(()));
    }
    agree(&rt, other.release(hold), Err(Refusal::NotHeld));
}

// The last key is of chunk 1.
#[test]
fn a_guard_serves_as_the_hold_of_its_key(rt: HostRuntime) {
    let growing = GrowingShare::open(rt.alloc(), 2, 3).expect(&rt, "a heap");
    let mut caller = growing.claim(rt.alloc()).expect(&rt, "a caller");
    let mut other = growing.claim(rt.alloc()).expect(&rt, "another caller");
    let keys = stored(&rt, rt.alloc(), &mut caller, 0, FIRST + 1);
    let Some(key) = keys.last() else {
        return;
    };
    let guard = other.get_guard(*key).expect(&rt, "a guard");
    agree(&rt, caller.remove(*key), Ok(()));
    let mut value = Value::from(0);
    agree(&rt, other.read_guard(&guard, &mut value), Ok(()));
    agree(&rt, value, Value::from(FIRST));
    agree(&rt, other.read(guard.hold()), Ok(Value::from(FIRST)));
    agree(&rt, other.release_guard(guard), Ok(()));
    agree(&rt, other.get_guard(*key).err(), Some(Refusal::Gone));
}

#[test]
fn a_number_is_claimed_again(rt: HostRuntime) {
    let growing = GrowingShare::open(rt.alloc(), 2, 3).expect(&rt, "a heap");
    let mut caller = growing.claim(rt.alloc()).expect(&rt, "a caller");
    let other = growing.claim(rt.alloc()).expect(&rt, "another caller");
    agree(&rt, growing.claim(rt.alloc()).err(), Some(Refusal::Taken));
    let keys = stored(&rt, rt.alloc(), &mut caller, 0, FIRST + 1);
    agree(&rt, caller.end().is_ok(), true);
    agree(&rt, other.end().is_ok(), true);
    let mut again = growing.claim(rt.alloc()).expect(&rt, "a caller again");
    agree(&rt, again.number(), 0);
    has_all(&rt, &mut again, &keys, 0);
    agree(&rt, again.insert(rt.alloc(), &Value::from(9)).is_ok(), true);
}

// The heap goes on with the callers, after the last handle of it is dropped.
#[test]
fn a_caller_keeps_its_heap(rt: HostRuntime) {
    let growing = GrowingShare::open(rt.alloc(), 2, 3).expect(&rt, "a heap");
    let other = growing.share().expect(&rt, "a share");
    let mut caller = growing.claim(rt.alloc()).expect(&rt, "a caller");
    drop(growing);
    let keys = stored(&rt, rt.alloc(), &mut caller, 0, FIRST + 1);
    let mut second = other.claim(rt.alloc()).expect(&rt, "another caller");
    drop(other);
    agree(&rt, caller.end().is_ok(), true);
    has_all(&rt, &mut second, &keys, 0);
}

// What another caller removed is collected in each chunk in which a shard is owned, and its slots are used again.
#[test]
fn a_collect_is_in_each_chunk(rt: HostRuntime) {
    let growing = GrowingShare::open(rt.alloc(), 2, 3).expect(&rt, "a heap");
    let mut caller = growing.claim(rt.alloc()).expect(&rt, "a caller");
    let mut other = growing.claim(rt.alloc()).expect(&rt, "another caller");
    caller.collect();
    let keys = stored(&rt, rt.alloc(), &mut caller, 0, THREE);
    for key in keys.iter().step_by(3) {
        agree(&rt, other.remove(*key), Ok(()));
    }
    caller.collect();
    let more = stored(&rt, rt.alloc(), &mut caller, 5000, THREE / 3);
    agree(&rt, growing.heap().chunks(), 3);
    has_all(&rt, &mut other, &more, 5000);
}

// How many values a chunk that was gathered has.
fn live_in(growing: &Growing, number: usize) -> Option<u32> {
    match growing.chunk(number)?.totals() {
        Ok(sums) => Some(sums.live),
        Err(_) => None,
    }
}

// The chunks are gathered once no caller is claimed.
#[test]
fn chunks_are_gathered_and_counted(rt: HostRuntime) {
    let growing = GrowingShare::open(rt.alloc(), 2, 3).expect(&rt, "a heap");
    let mut caller = growing.claim(rt.alloc()).expect(&rt, "a caller");
    let keys = stored(&rt, rt.alloc(), &mut caller, 0, FIRST + 1);
    agree(&rt, growing.heap().gather(rt.alloc()), Err(NotTold::Away));
    agree(&rt, caller.end().is_ok(), true);
    agree(&rt, live_in(growing.heap(), 0), None);
    agree(&rt, growing.heap().gather(rt.alloc()), Ok(()));
    agree(&rt, live_in(growing.heap(), 0), Some(768));
    agree(&rt, live_in(growing.heap(), 1), Some(1));
    agree(&rt, growing.heap().chunk(2).is_none(), true);
    // The joined passes are the last of each chunk.
    let mut again = growing.claim(rt.alloc()).expect(&rt, "a caller again");
    agree(&rt, again.number(), 1);
    has_all(&rt, &mut again, &keys, 0);
}

// Chunk 1 has one shard of 8 pages, of which the first one has a value.
#[test]
fn a_page_of_a_chunk_is_counted(rt: HostRuntime) {
    let growing = GrowingShare::open(rt.alloc(), 1, 2).expect(&rt, "a heap");
    let mut caller = growing.claim(rt.alloc()).expect(&rt, "a caller");
    let _keys = stored(&rt, rt.alloc(), &mut caller, 0, FIRST + 1);
    agree(&rt, caller.end().is_ok(), true);
    let Some(chunk) = growing.heap().chunk(1) else {
        return;
    };
    agree(&rt, chunk.shape().shards(), 1);
    agree(&rt, chunk.accounts(0, 0).map(|page| page.live), Ok(1));
    agree(&rt, chunk.accounts(1, 0).err(), Some(NotTold::NoPage));
}

#[test]
fn numbers_outside_the_limits_are_refused(rt: HostRuntime) {
    agree(
        &rt,
        GrowingShare::open(rt.alloc(), 0, 1).err(),
        Some(Refusal::BadShape),
    );
    agree(
        &rt,
        GrowingShare::open(rt.alloc(), 65, 1).err(),
        Some(Refusal::BadShape),
    );
    agree(
        &rt,
        GrowingShare::open(rt.alloc(), 1, 0).err(),
        Some(Refusal::BadShape),
    );
    agree(
        &rt,
        GrowingShare::open(rt.alloc(), 1, 257).err(),
        Some(Refusal::BadShape),
    );
}

// 384 slots a segment: two owners of 500 values each get two segments each, so 1,536 values fit before chunk 1 opens.
#[test]
fn the_first_chunk_has_the_room_that_is_asked_for(rt: HostRuntime) {
    let growing = GrowingShare::open_for(rt.alloc(), 2, 500, 1, 2, 3).expect(&rt, "a heap");
    let mut caller = growing.claim(rt.alloc()).expect(&rt, "a caller");
    let keys = stored(&rt, rt.alloc(), &mut caller, 0, THREE);
    agree(&rt, growing.heap().chunks(), 1);
    let more = stored(&rt, rt.alloc(), &mut caller, THREE, 1);
    agree(&rt, growing.heap().chunks(), 2);
    has_all(&rt, &mut caller, &keys, 0);
    has_all(&rt, &mut caller, &more, THREE);
}

// A chunk has at most 64 shards, and at most 512 segments a shard, of 24 slots for 16 words each.
#[test]
fn no_first_chunk_has_more_room_than_a_chunk(rt: HostRuntime) {
    agree(
        &rt,
        GrowingShare::open_for(rt.alloc(), 65, 1, 1, 1, 1).err(),
        Some(Refusal::BadShape),
    );
    agree(
        &rt,
        GrowingShare::open_for(rt.alloc(), 1, 12_289, 16, 1, 1).err(),
        Some(Refusal::BadShape),
    );
    agree(
        &rt,
        GrowingShare::open_for(rt.alloc(), 1, 1, 1, 1, 257).err(),
        Some(Refusal::BadShape),
    );
}

// A thread's work: its caller stores numbers, and comes back with their keys.
fn fills(rt: &impl Abort, alloc: Global, mut caller: Caller, from: u64) -> (Caller, Vec<u64>) {
    let keys = stored(rt, alloc, &mut caller, from, 700);
    (caller, keys)
}

// Both threads need chunk 1 and chunk 2 at about the same time. All 1,400 values are found, whichever thread opened a
// chunk.
#[test]
fn two_threads_open_the_same_chunks(rt: HostRuntime) {
    let growing = GrowingShare::open(rt.alloc(), 2, 3).expect(&rt, "a heap");
    let one = growing.claim(rt.alloc()).expect(&rt, "a caller");
    let other = growing.claim(rt.alloc()).expect(&rt, "another caller");
    let alloc = rt.alloc();
    let ((mut one, low), (mut other, high)) = join(
        &rt,
        || fills(&rt, alloc, one, 0),
        || fills(&rt, alloc, other, 10_000),
    );
    agree(&rt, growing.heap().chunks(), 3);
    has_all(&rt, &mut one, &low, 0);
    has_all(&rt, &mut one, &high, 10_000);
    has_all(&rt, &mut other, &low, 0);
    has_all(&rt, &mut other, &high, 10_000);
}
