//! A growing heap: the calls of a pass over its chunks, its receipts, and the calls that there are none of.
//!
//! Its first chunk has a shard of one segment, and so have chunks 1 and 2: each has 384 slots for values of one word.
use super::codes::{
    AWAY, BAD_KEY, BAD_SHAPE, EMPTY, FULL, GONE, HOLDS_FULL, NO_PASS, NO_SHARD, NOT_HELD, OCCUPIED,
    OK, SHORT, TINY, TOO_LONG,
};
use super::receipts::{heeds_another, heeds_its_own, makes};
use super::{agree, ended, given, opened, stored, taken};
use crate::accounts::{SumsReport, shardheap_raw_gather, shardheap_raw_totals};
use crate::calls::{
    shardheap_raw_adopt, shardheap_raw_collect, shardheap_raw_get, shardheap_raw_leave,
    shardheap_raw_leave_idle, shardheap_raw_release, shardheap_raw_remove,
};
use crate::counting::{shardheap_raw_pages_left, shardheap_raw_slots_out};
use crate::keys::{shardheap_raw_next_key, shardheap_raw_next_own_key};
use crate::opening::{shardheap_raw_open, shardheap_raw_open_growing, shardheap_raw_share};
use crate::passes::{
    shardheap_raw_chunks, shardheap_raw_pass_lose, shardheap_raw_passes, shardheap_raw_take,
};
use crate::tags::shardheap_raw_tag;
use crate::taking::shardheap_raw_take_value;
use crate::values::{
    shardheap_raw_insert, shardheap_raw_load, shardheap_raw_prepare, shardheap_raw_read,
};
use c_handles::{HeapHandle, PassHandle};
use std::alloc::Global;
use std::process::Abort;

// The first key of a chunk: generation 1 of the first slot of the first page. So it is also by how much the keys of two
// generations of a slot differ.
const FIRST_KEY: u64 = 16_777_216;

// Opens a heap of at most three chunks.
fn open(alloc: Global, heap: &mut HeapHandle, owners: u32, words: u32, passes: u32) -> u32 {
    shardheap_raw_open_growing(alloc, heap, owners, 1, words, passes, 3)
}

fn grown(rt: &impl Abort, alloc: Global, passes: u32) -> HeapHandle {
    let mut heap = HeapHandle::empty(alloc);
    agree(rt, open(alloc, &mut heap, 1, 1, passes), OK);
    heap
}

fn chunks_are(rt: &impl Abort, alloc: Global, heap: &mut HeapHandle, wanted: u64) {
    agree(rt, shardheap_raw_chunks(alloc, heap), wanted);
}

#[test]
fn a_growing_heap_is_opened(rt: HostRuntime) {
    let alloc = rt.alloc();
    let mut heap = HeapHandle::empty(alloc);
    chunks_are(&rt, alloc, &mut heap, 0);
    agree(&rt, open(alloc, &mut heap, 0, 1, 1), BAD_SHAPE);
    agree(&rt, open(alloc, &mut heap, 65, 1, 1), BAD_SHAPE);
    agree(&rt, open(alloc, &mut heap, 1, 17, 1), BAD_SHAPE);
    agree(&rt, open(alloc, &mut heap, 1, 1, 0), BAD_SHAPE);
    agree(&rt, open(alloc, &mut heap, 1, 1, 65), BAD_SHAPE);
    agree(&rt, open(alloc, &mut heap, 1, 1, 2), OK);
    agree(&rt, open(alloc, &mut heap, 1, 1, 2), OCCUPIED);
    chunks_are(&rt, alloc, &mut heap, 1);
    agree(&rt, shardheap_raw_passes(alloc, &mut heap), 2);
    agree(
        &rt,
        shardheap_raw_open(alloc, &mut heap, TINY, 1, 1, 1),
        OCCUPIED,
    );
}

#[test]
fn a_growing_heap_has_1_to_256_chunks(rt: HostRuntime) {
    let alloc = rt.alloc();
    let mut heap = HeapHandle::empty(alloc);
    let none = shardheap_raw_open_growing(alloc, &mut heap, 1, 1, 1, 1, 0);
    agree(&rt, none, BAD_SHAPE);
    let many = shardheap_raw_open_growing(alloc, &mut heap, 1, 1, 1, 1, 257);
    agree(&rt, many, BAD_SHAPE);
    let all = shardheap_raw_open_growing(alloc, &mut heap, 1, 1, 1, 1, 256);
    agree(&rt, all, OK);
}

#[test]
fn a_heap_of_a_fixed_shape_is_one_chunk(rt: HostRuntime) {
    let alloc = rt.alloc();
    let mut heap = opened(&rt, alloc, 1, 1);
    chunks_are(&rt, alloc, &mut heap, 1);
}

// The value of a key, by a load.
fn has(rt: &impl Abort, alloc: Global, pass: &mut PassHandle, key: u64, value: u64) {
    let (mut words, mut length) = ([5; 2], 99);
    let code = shardheap_raw_load(alloc, pass, key, &mut words[..2], &mut length);
    agree(rt, (code, words, length), (OK, [value, 5], 1));
}

fn is_gone(rt: &impl Abort, alloc: Global, pass: &mut PassHandle, key: u64, wanted: u32) {
    let (mut words, mut length) = ([5; 2], 99);
    let code = shardheap_raw_load(alloc, pass, key, &mut words[..2], &mut length);
    agree(rt, (code, words, length), (wanted, [5, 5], 99));
    agree(rt, shardheap_raw_get(alloc, pass, key), wanted);
    agree(rt, shardheap_raw_remove(alloc, pass, key), wanted);
}

// Stores as many values of one word as a chunk has slots, and returns the last key.
fn fills(rt: &impl Abort, alloc: Global, pass: &mut PassHandle) -> u64 {
    let mut key = 0;
    for n in 0..384 {
        key = stored(rt, alloc, pass, &[n]);
    }
    key
}

// 384 values go to each chunk, and its number is at bits 56 to 63 of their keys.
#[test]
fn inserts_open_chunks(rt: HostRuntime) {
    let alloc = rt.alloc();
    let mut heap = grown(&rt, alloc, 2);
    let mut pass = taken(&rt, alloc, &mut heap);
    let mut other = taken(&rt, alloc, &mut heap);
    is_gone(&rt, alloc, &mut other, FIRST_KEY, GONE);
    is_gone(&rt, alloc, &mut other, 1 << 56 | FIRST_KEY, BAD_KEY);
    is_gone(&rt, alloc, &mut other, 3 << 56 | FIRST_KEY, BAD_KEY);
    for chunk in 0..3 {
        let last = fills(&rt, alloc, &mut pass);
        chunks_are(&rt, alloc, &mut heap, chunk + 1);
        agree(&rt, last >> 56, chunk);
        has(&rt, alloc, &mut other, last, 383);
    }
    let mut key = 77;
    let code = shardheap_raw_insert(alloc, &mut pass, &[7], &mut key);
    agree(&rt, (code, key), (FULL, 77));
    let code = shardheap_raw_insert(alloc, &mut other, &[7], &mut key);
    agree(&rt, (code, key), (NO_SHARD, 77));
    let code = shardheap_raw_insert(alloc, &mut pass, &[7; 17], &mut key);
    agree(&rt, (code, key), (TOO_LONG, 77));
    given(&rt, alloc, pass);
    given(&rt, alloc, other);
}

// As many holds as a pass may have, a read by one of them, and their release. A load needs no room for one more, except
// of a key that was not issued, such as the next one of the slot: it goes on to a get.
fn is_held(rt: &impl Abort, alloc: Global, pass: &mut PassHandle, key: u64, value: u64) {
    let (mut words, mut length) = ([5; 2], 99);
    let code = shardheap_raw_read(alloc, pass, key, &mut words[..2], &mut length);
    agree(rt, (code, words, length), (NOT_HELD, [5, 5], 99));
    agree(rt, shardheap_raw_release(alloc, pass, key), NOT_HELD);
    for _ in 0..16 {
        agree(rt, shardheap_raw_get(alloc, pass, key), OK);
    }
    agree(rt, shardheap_raw_get(alloc, pass, key), HOLDS_FULL);
    has(rt, alloc, pass, key, value);
    let next = key.wrapping_add(FIRST_KEY);
    let code = shardheap_raw_load(alloc, pass, next, &mut words[..2], &mut length);
    agree(rt, (code, words, length), (HOLDS_FULL, [5, 5], 99));
    let code = shardheap_raw_read(alloc, pass, key, &mut words[..2], &mut length);
    agree(rt, (code, words, length), (OK, [value, 5], 1));
    for _ in 0..16 {
        agree(rt, shardheap_raw_release(alloc, pass, key), OK);
    }
}

fn is_taken(rt: &impl Abort, alloc: Global, pass: &mut PassHandle, key: u64, value: u64) {
    let (mut words, mut length) = ([5; 2], 99);
    let code = shardheap_raw_take_value(alloc, pass, key, &mut words[..0], &mut length);
    agree(rt, (code, length), (SHORT, 1));
    let code = shardheap_raw_take_value(alloc, pass, key, &mut words[..2], &mut length);
    agree(rt, (code, words, length), (OK, [value, 5], 1));
    is_gone(rt, alloc, pass, key, GONE);
}

// The tag of a key: its code, and the number as it was written.
fn tagged(key: u64) -> (u32, u64) {
    let mut number = 5;
    let code = shardheap_raw_tag(key, 3, &mut number);
    (code, number)
}

#[test]
fn each_chunk_has_the_calls_on_keys(rt: HostRuntime) {
    let alloc = rt.alloc();
    let mut heap = grown(&rt, alloc, 2);
    let mut pass = taken(&rt, alloc, &mut heap);
    let mut other = taken(&rt, alloc, &mut heap);
    let low = fills(&rt, alloc, &mut pass);
    let high = fills(&rt, alloc, &mut pass);
    agree(&rt, tagged(high), (BAD_KEY, 5));
    is_held(&rt, alloc, &mut other, low, 383);
    is_held(&rt, alloc, &mut other, high, 383);
    is_taken(&rt, alloc, &mut other, low, 383);
    is_taken(&rt, alloc, &mut pass, high, 383);
    // Their slots are used again.
    stored(&rt, alloc, &mut pass, &[8]);
    stored(&rt, alloc, &mut pass, &[9]);
    chunks_are(&rt, alloc, &mut heap, 2);
    given(&rt, alloc, pass);
    given(&rt, alloc, other);
}

// No shard has a number: such a call is refused, and writes nothing.
fn names_no_shard(rt: &impl Abort, alloc: Global, pass: &mut PassHandle) {
    let (mut number, mut place, mut page) = (77, 55, 66);
    agree(rt, shardheap_raw_adopt(alloc, pass, 0), NO_SHARD);
    agree(
        rt,
        shardheap_raw_prepare(alloc, pass, 1, &mut page),
        NO_SHARD,
    );
    agree(
        rt,
        shardheap_raw_pages_left(alloc, pass, &mut number),
        NO_SHARD,
    );
    agree(
        rt,
        shardheap_raw_slots_out(alloc, pass, &mut number),
        NO_SHARD,
    );
    let code = shardheap_raw_next_own_key(alloc, pass, &mut place, &mut number);
    agree(rt, (code, place, number, page), (NO_SHARD, 55, 77, 66));
}

// The heap is not known as a whole: such a call is refused, and writes nothing.
fn is_not_whole(rt: &impl Abort, alloc: Global, heap: &mut HeapHandle) {
    let (mut place, mut key) = (55, 77);
    let mut sums = SumsReport {
        live: 9,
        marked: 9,
        retired: 9,
        queued: 9,
        used_pages: 9,
        blank_pages: 9,
    };
    agree(rt, shardheap_raw_gather(alloc, heap), AWAY);
    agree(rt, shardheap_raw_totals(alloc, heap, &mut sums), AWAY);
    agree(rt, sums.live, 9);
    let code = shardheap_raw_next_key(alloc, heap, &mut place, &mut key);
    agree(rt, (code, place, key), (AWAY, 55, 77));
}

#[test]
fn a_growing_heap_has_no_numbered_shards(rt: HostRuntime) {
    let alloc = rt.alloc();
    let mut heap = grown(&rt, alloc, 1);
    is_not_whole(&rt, alloc, &mut heap);
    let mut pass = taken(&rt, alloc, &mut heap);
    names_no_shard(&rt, alloc, &mut pass);
    let key = stored(&rt, alloc, &mut pass, &[7]);
    names_no_shard(&rt, alloc, &mut pass);
    has(&rt, alloc, &mut pass, key, 7);
    given(&rt, alloc, pass);
    is_not_whole(&rt, alloc, &mut heap);
}

// A receipt covers two chunks, and its pass goes on.
#[test]
fn receipts_of_a_growing_heap_are_made_and_heeded(rt: HostRuntime) {
    let alloc = rt.alloc();
    let mut heap = grown(&rt, alloc, 2);
    heeds_another(&rt, alloc, &mut heap);
    let mut pass = taken(&rt, alloc, &mut heap);
    fills(&rt, alloc, &mut pass);
    let key = stored(&rt, alloc, &mut pass, &[7]);
    makes(&rt, alloc, &mut pass);
    heeds_its_own(&rt, alloc, &mut pass);
    has(&rt, alloc, &mut pass, key, 7);
    stored(&rt, alloc, &mut pass, &[8]);
    chunks_are(&rt, alloc, &mut heap, 2);
    given(&rt, alloc, pass);
}

// A pass leaves its shards by a call of its own or as it is given back, and then another pass inserts there.
#[test]
fn a_pass_leaves_its_shards(rt: HostRuntime) {
    let alloc = rt.alloc();
    let mut heap = grown(&rt, alloc, 2);
    let mut pass = taken(&rt, alloc, &mut heap);
    let mut other = taken(&rt, alloc, &mut heap);
    agree(&rt, shardheap_raw_collect(alloc, &mut pass), OK);
    stored(&rt, alloc, &mut pass, &[7]);
    agree(&rt, shardheap_raw_collect(alloc, &mut pass), OK);
    agree(&rt, shardheap_raw_leave(alloc, &mut pass), OK);
    agree(&rt, shardheap_raw_leave(alloc, &mut pass), OK);
    stored(&rt, alloc, &mut other, &[8]);
    chunks_are(&rt, alloc, &mut heap, 1);
    given(&rt, alloc, other);
    stored(&rt, alloc, &mut pass, &[9]);
    chunks_are(&rt, alloc, &mut heap, 1);
    given(&rt, alloc, pass);
}

// Each pass leaves its shard after it inserted, so that one shard serves both.
#[test]
fn a_pass_leaves_what_is_idle(rt: HostRuntime) {
    let alloc = rt.alloc();
    let mut heap = grown(&rt, alloc, 2);
    let mut pass = taken(&rt, alloc, &mut heap);
    let mut other = taken(&rt, alloc, &mut heap);
    agree(&rt, shardheap_raw_leave_idle(alloc, &mut pass), OK);
    stored(&rt, alloc, &mut pass, &[7]);
    agree(&rt, shardheap_raw_leave_idle(alloc, &mut pass), OK);
    stored(&rt, alloc, &mut other, &[8]);
    agree(&rt, shardheap_raw_leave_idle(alloc, &mut other), OK);
    stored(&rt, alloc, &mut pass, &[9]);
    chunks_are(&rt, alloc, &mut heap, 1);
    given(&rt, alloc, pass);
    given(&rt, alloc, other);
}

// The hold is in chunk 1. The pass that is taken next has it, and its first call there reads or releases.
#[test]
fn a_pass_has_its_holds_when_it_is_taken_again(rt: HostRuntime) {
    let alloc = rt.alloc();
    let mut heap = grown(&rt, alloc, 1);
    let mut pass = taken(&rt, alloc, &mut heap);
    fills(&rt, alloc, &mut pass);
    let key = stored(&rt, alloc, &mut pass, &[7]);
    agree(&rt, shardheap_raw_get(alloc, &mut pass, key), OK);
    agree(&rt, shardheap_raw_remove(alloc, &mut pass, key), OK);
    given(&rt, alloc, pass);
    let mut pass = taken(&rt, alloc, &mut heap);
    let (mut words, mut length) = ([5; 2], 99);
    let code = shardheap_raw_read(alloc, &mut pass, key, &mut words[..2], &mut length);
    agree(&rt, (code, words, length), (OK, [7, 5], 1));
    given(&rt, alloc, pass);
    let mut pass = taken(&rt, alloc, &mut heap);
    agree(&rt, shardheap_raw_release(alloc, &mut pass, key), OK);
    agree(&rt, shardheap_raw_release(alloc, &mut pass, key), NOT_HELD);
    // No chunk of the heap has this number.
    agree(
        &rt,
        shardheap_raw_release(alloc, &mut pass, 3 << 56 | FIRST_KEY),
        BAD_KEY,
    );
    given(&rt, alloc, pass);
}

// A pass that is given back is found again. One that is lost is not.
#[test]
fn passes_of_a_growing_heap_come_home(rt: HostRuntime) {
    let alloc = rt.alloc();
    let mut heap = grown(&rt, alloc, 1);
    let pass = taken(&rt, alloc, &mut heap);
    given(&rt, alloc, pass);
    let mut pass = taken(&rt, alloc, &mut heap);
    let mut none = PassHandle::empty(alloc);
    agree(
        &rt,
        shardheap_raw_take(alloc, &mut heap, &mut none),
        NO_PASS,
    );
    agree(&rt, shardheap_raw_pass_lose(alloc, &mut pass), OK);
    agree(&rt, shardheap_raw_pass_lose(alloc, &mut pass), EMPTY);
    agree(
        &rt,
        shardheap_raw_take(alloc, &mut heap, &mut none),
        NO_PASS,
    );
    ended(alloc, none);
    ended(alloc, pass);
}

// Two handles are of one heap, which goes on when the first is closed.
#[test]
fn a_growing_heap_is_shared(rt: HostRuntime) {
    let alloc = rt.alloc();
    let mut heap = grown(&rt, alloc, 2);
    let mut other = HeapHandle::empty(alloc);
    agree(&rt, shardheap_raw_share(alloc, &mut heap, &mut other), OK);
    let mut pass = taken(&rt, alloc, &mut heap);
    drop(heap);
    let key = stored(&rt, alloc, &mut pass, &[7]);
    let mut second = taken(&rt, alloc, &mut other);
    has(&rt, alloc, &mut second, key, 7);
    given(&rt, alloc, pass);
    given(&rt, alloc, second);
}
