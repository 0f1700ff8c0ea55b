//! Calls that name a key, by its owner and by another pass.
//!
//! A key of layout tiny is ((generation · 4 + shard) · 16 + page) · 64 + slot, and the first generation is 1.
use super::codes::{BAD_KEY, CROWDED, EMPTY, GONE, HOLDS_FULL, NOT_HELD, OK, SHORT};
use super::{agree, ended, given, left, opened, owner, stored, taken};
use crate::calls::{shardheap_raw_get, shardheap_raw_release, shardheap_raw_remove};
use crate::taking::shardheap_raw_take_value;
use crate::values::{shardheap_raw_load, shardheap_raw_read};
use c_handles::PassHandle;
use std::alloc::Global;
use std::process::Abort;

// What a call wrote: the words of its room, and how many words the value has.
type Written = ([u64; 4], u64);

// What is in the room before a call.
const BLANK: [u64; 4] = [5; 4];

const NOTHING: Written = (BLANK, 99);

// A read into the first words of the room: its code, and what it wrote.
fn read(alloc: Global, pass: &mut PassHandle, key: u64, room: usize) -> (u32, Written) {
    let (mut words, mut length) = NOTHING;
    let room = room.min(4);
    let code = shardheap_raw_read(alloc, pass, key, &mut words[..room], &mut length);
    (code, (words, length))
}

// The same for a load.
fn load(alloc: Global, pass: &mut PassHandle, key: u64, room: usize) -> (u32, Written) {
    let (mut words, mut length) = NOTHING;
    let room = room.min(4);
    let code = shardheap_raw_load(alloc, pass, key, &mut words[..room], &mut length);
    (code, (words, length))
}

// The same for the taking of a value.
fn take_value(alloc: Global, pass: &mut PassHandle, key: u64, room: usize) -> (u32, Written) {
    let (mut words, mut length) = NOTHING;
    let room = room.min(4);
    let code = shardheap_raw_take_value(alloc, pass, key, &mut words[..room], &mut length);
    (code, (words, length))
}

// A get and the taking of a value are refused with this code, and write nothing.
fn is_not_got(rt: &impl Abort, alloc: Global, pass: &mut PassHandle, key: u64, wanted: u32) {
    agree(rt, shardheap_raw_get(alloc, pass, key), wanted);
    agree(rt, take_value(alloc, pass, key, 4), (wanted, NOTHING));
}

// The same, and a load is refused with it too.
fn is_not_found(rt: &impl Abort, alloc: Global, pass: &mut PassHandle, key: u64, wanted: u32) {
    is_not_got(rt, alloc, pass, key, wanted);
    agree(rt, load(alloc, pass, key, 4), (wanted, NOTHING));
}

// The pass has no hold on the key.
fn is_not_held(rt: &impl Abort, alloc: Global, pass: &mut PassHandle, key: u64) {
    agree(rt, read(alloc, pass, key, 4), (NOT_HELD, NOTHING));
    agree(rt, shardheap_raw_release(alloc, pass, key), NOT_HELD);
}

#[test]
fn an_empty_handle_has_no_keys(rt: HostRuntime) {
    let alloc = rt.alloc();
    let mut pass = PassHandle::empty(alloc);
    is_not_found(&rt, alloc, &mut pass, 4_096, EMPTY);
    agree(&rt, read(alloc, &mut pass, 4_096, 4), (EMPTY, NOTHING));
    agree(&rt, shardheap_raw_release(alloc, &mut pass, 4_096), EMPTY);
    agree(&rt, shardheap_raw_remove(alloc, &mut pass, 4_096), EMPTY);
    ended(alloc, pass);
}

// In a heap of one shard of 8 pages: generation 0, page 8, shard 1, generation 4, and what is far too large.
const NO_KEYS: [u64; 6] = [0, 4_095, 4_608, 5_120, 16_384, u64::MAX];

// Numbers that are no keys, and a key that nobody was given: generation 2 of the first slot.
fn strange_keys(rt: &impl Abort, alloc: Global, pass: &mut PassHandle) {
    for key in &NO_KEYS {
        is_not_found(rt, alloc, pass, *key, BAD_KEY);
        agree(rt, shardheap_raw_remove(alloc, pass, *key), BAD_KEY);
        is_not_held(rt, alloc, pass, *key);
    }
    is_not_found(rt, alloc, pass, 8_192, GONE);
    agree(rt, shardheap_raw_remove(alloc, pass, 8_192), GONE);
}

// A value of three words does not fit a room of two: the length alone is written, and the key stays.
fn rooms(rt: &impl Abort, alloc: Global, pass: &mut PassHandle, key: u64) {
    let long = (SHORT, (BLANK, 3));
    let fits = (OK, ([7, 8, 9, 5], 3));
    agree(rt, load(alloc, pass, key, 2), long);
    agree(rt, take_value(alloc, pass, key, 2), long);
    agree(rt, load(alloc, pass, key, 3), fits);
    is_not_held(rt, alloc, pass, key);
    agree(rt, shardheap_raw_get(alloc, pass, key), OK);
    agree(rt, read(alloc, pass, key, 0), long);
    agree(rt, read(alloc, pass, key, 2), long);
    agree(rt, read(alloc, pass, key, 3), fits);
    agree(rt, read(alloc, pass, key, 4), fits);
    agree(rt, shardheap_raw_release(alloc, pass, key), OK);
    is_not_held(rt, alloc, pass, key);
}

// The same of a value of one word, and of one of no words, which fits each room.
fn small_rooms(rt: &impl Abort, alloc: Global, one: &mut PassHandle, other: &mut PassHandle) {
    let word = stored(rt, alloc, one, &[6]);
    let none = stored(rt, alloc, one, &[]);
    agree(rt, load(alloc, other, word, 0), (SHORT, (BLANK, 1)));
    agree(rt, load(alloc, other, word, 1), (OK, ([6, 5, 5, 5], 1)));
    agree(rt, load(alloc, other, none, 0), (OK, (BLANK, 0)));
    agree(rt, load(alloc, other, none, 4), (OK, (BLANK, 0)));
    agree(rt, shardheap_raw_remove(alloc, one, word), OK);
    agree(rt, shardheap_raw_remove(alloc, one, none), OK);
}

// A value of 16 words fills a room of 16, and does not fit one of 15.
fn full_room(rt: &impl Abort, alloc: Global, one: &mut PassHandle, other: &mut PassHandle) {
    let all = [1, 2, 3, 4, 5, 6, 7, 8, 9, 10, 11, 12, 13, 14, 15, 16];
    let key = stored(rt, alloc, one, &all);
    let (mut words, mut length) = ([0; 16], 99);
    let code = shardheap_raw_load(alloc, other, key, &mut words[..15], &mut length);
    agree(rt, (code, words, length), (SHORT, [0; 16], 16));
    let code = shardheap_raw_load(alloc, other, key, &mut words[..], &mut length);
    agree(rt, (code, words, length), (OK, all, 16));
    agree(rt, shardheap_raw_remove(alloc, one, key), OK);
}

// A key may have four holds in this layout. A load needs no room for one more.
fn holds(rt: &impl Abort, alloc: Global, pass: &mut PassHandle, key: u64) {
    for _ in 0..4 {
        agree(rt, shardheap_raw_get(alloc, pass, key), OK);
    }
    is_not_got(rt, alloc, pass, key, CROWDED);
    let loaded = (OK, ([7, 8, 9, 5], 3));
    agree(rt, load(alloc, pass, key, 4), loaded);
    for _ in 0..4 {
        agree(rt, shardheap_raw_release(alloc, pass, key), OK);
    }
    is_not_held(rt, alloc, pass, key);
}

// A removed key is gone for every pass, and its value stays for the pass that holds it.
fn removed(rt: &impl Abort, alloc: Global, one: &mut PassHandle, other: &mut PassHandle, key: u64) {
    agree(rt, shardheap_raw_get(alloc, other, key), OK);
    agree(rt, shardheap_raw_remove(alloc, one, key), OK);
    is_not_found(rt, alloc, one, key, GONE);
    is_not_found(rt, alloc, other, key, GONE);
    agree(rt, shardheap_raw_remove(alloc, one, key), GONE);
    agree(rt, shardheap_raw_remove(alloc, other, key), GONE);
    agree(rt, read(alloc, other, key, 4), (OK, ([7, 8, 9, 5], 3)));
    agree(rt, shardheap_raw_release(alloc, other, key), OK);
    is_not_held(rt, alloc, other, key);
}

// A value is taken once, and stays for the pass that holds it.
fn value_taken(rt: &impl Abort, alloc: Global, one: &mut PassHandle, other: &mut PassHandle) {
    let key = stored(rt, alloc, one, &[6]);
    agree(rt, shardheap_raw_get(alloc, one, key), OK);
    agree(
        rt,
        take_value(alloc, other, key, 4),
        (OK, ([6, 5, 5, 5], 1)),
    );
    is_not_found(rt, alloc, other, key, GONE);
    is_not_held(rt, alloc, other, key);
    agree(rt, read(alloc, one, key, 1), (OK, ([6, 5, 5, 5], 1)));
    agree(rt, shardheap_raw_release(alloc, one, key), OK);
    let none = stored(rt, alloc, one, &[]);
    agree(rt, take_value(alloc, other, none, 0), (OK, (BLANK, 0)));
    is_not_found(rt, alloc, one, none, GONE);
}

#[test]
fn a_key_serves_its_owner_and_others(rt: HostRuntime) {
    let alloc = rt.alloc();
    let mut heap = opened(&rt, alloc, 1, 2);
    let mut one = owner(&rt, alloc, &mut heap, 0);
    let mut other = taken(&rt, alloc, &mut heap);
    let key = stored(&rt, alloc, &mut one, &[7, 8, 9]);
    agree(&rt, key, 4_096);
    strange_keys(&rt, alloc, &mut one);
    strange_keys(&rt, alloc, &mut other);
    rooms(&rt, alloc, &mut one, key);
    rooms(&rt, alloc, &mut other, key);
    holds(&rt, alloc, &mut one, key);
    holds(&rt, alloc, &mut other, key);
    small_rooms(&rt, alloc, &mut one, &mut other);
    full_room(&rt, alloc, &mut one, &mut other);
    removed(&rt, alloc, &mut one, &mut other, key);
    value_taken(&rt, alloc, &mut one, &mut other);
    left(&rt, alloc, one);
    given(&rt, alloc, other);
}

// Stores a value, and takes four holds on its key.
fn four_holds(rt: &impl Abort, alloc: Global, pass: &mut PassHandle) -> u64 {
    let key = stored(rt, alloc, pass, &[7]);
    for _ in 0..4 {
        agree(rt, shardheap_raw_get(alloc, pass, key), OK);
    }
    key
}

// A pass may have sixteen holds. A load needs no room for one more, except of a key that was not issued, such as that
// of the next slot: it goes on to a get.
fn all_holds(rt: &impl Abort, alloc: Global, pass: &mut PassHandle) {
    for _ in 0..3 {
        four_holds(rt, alloc, pass);
    }
    let held = four_holds(rt, alloc, pass);
    let key = stored(rt, alloc, pass, &[8]);
    is_not_got(rt, alloc, pass, key, HOLDS_FULL);
    agree(rt, load(alloc, pass, key, 1), (OK, ([8, 5, 5, 5], 1)));
    let next = key.wrapping_add(1);
    is_not_found(rt, alloc, pass, next, HOLDS_FULL);
    agree(rt, shardheap_raw_release(alloc, pass, held), OK);
    is_not_found(rt, alloc, pass, next, GONE);
}

#[test]
fn a_pass_has_sixteen_holds(rt: HostRuntime) {
    let alloc = rt.alloc();
    let mut heap = opened(&rt, alloc, 1, 1);
    let mut pass = owner(&rt, alloc, &mut heap, 0);
    all_holds(&rt, alloc, &mut pass);
    left(&rt, alloc, pass);
}
