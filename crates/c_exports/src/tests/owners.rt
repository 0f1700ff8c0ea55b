//! Calls of the owner of a shard, and what they return to a pass that owns none.
use super::codes::{EMPTY, FULL, NO_SHARD, OK, TAKEN, TOO_LONG};
use super::{agree, ended, given, left, opened, owner, stored, taken};
use crate::calls::{
    shardheap_raw_adopt, shardheap_raw_collect, shardheap_raw_leave, shardheap_raw_leave_idle,
    shardheap_raw_remove,
};
use crate::counting::{shardheap_raw_pages_left, shardheap_raw_slots_out};
use crate::values::{shardheap_raw_insert, shardheap_raw_prepare};
use c_handles::PassHandle;
use std::alloc::Global;
use std::process::Abort;

// Seventeen words, one more than a value may have.
const WORDS: [u64; 17] = [1, 2, 3, 4, 5, 6, 7, 8, 9, 10, 11, 12, 13, 14, 15, 16, 17];

// An insert of the first words: its code, and what it wrote for the key.
fn insert(alloc: Global, pass: &mut PassHandle, words: usize) -> (u32, u64) {
    let mut key = 99;
    let words = words.min(17);
    let code = shardheap_raw_insert(alloc, pass, &WORDS[..words], &mut key);
    (code, key)
}

// A prepare: its code, and what it wrote for the page.
fn prepare(alloc: Global, pass: &mut PassHandle, words: u32) -> (u32, u32) {
    let mut page = 99;
    let code = shardheap_raw_prepare(alloc, pass, words, &mut page);
    (code, page)
}

// How many pages of the shard have no class: the code, and what was written.
fn pages_left(alloc: Global, pass: &mut PassHandle) -> (u32, u64) {
    let mut pages = 99;
    let code = shardheap_raw_pages_left(alloc, pass, &mut pages);
    (code, pages)
}

// How many slots of the others are out: the code, and what was written.
fn slots_out(alloc: Global, pass: &mut PassHandle) -> (u32, u64) {
    let mut slots = 99;
    let code = shardheap_raw_slots_out(alloc, pass, &mut slots);
    (code, slots)
}

// Each call of an owner is refused with this code, and writes nothing.
fn owns_nothing(rt: &impl Abort, alloc: Global, pass: &mut PassHandle, wanted: u32) {
    agree(rt, shardheap_raw_leave(alloc, pass), wanted);
    agree(rt, shardheap_raw_leave_idle(alloc, pass), wanted);
    agree(rt, shardheap_raw_collect(alloc, pass), wanted);
    agree(rt, insert(alloc, pass, 3), (wanted, 99));
    agree(rt, prepare(alloc, pass, 3), (wanted, 99));
    agree(rt, pages_left(alloc, pass), (wanted, 99));
    agree(rt, slots_out(alloc, pass), (wanted, 99));
}

#[test]
fn an_empty_handle_owns_nothing(rt: HostRuntime) {
    let alloc = rt.alloc();
    let mut pass = PassHandle::empty(alloc);
    agree(&rt, shardheap_raw_adopt(alloc, &mut pass, 0), EMPTY);
    owns_nothing(&rt, alloc, &mut pass, EMPTY);
    ended(alloc, pass);
}

// A shard has one owner at a time, a pass owns one shard, and a heap of two shards has no third.
fn adopts(rt: &impl Abort, alloc: Global, one: &mut PassHandle, other: &mut PassHandle) {
    owns_nothing(rt, alloc, one, NO_SHARD);
    agree(rt, shardheap_raw_adopt(alloc, one, 2), NO_SHARD);
    agree(rt, shardheap_raw_adopt(alloc, one, u64::MAX), NO_SHARD);
    agree(rt, shardheap_raw_adopt(alloc, one, 1), OK);
    agree(rt, shardheap_raw_adopt(alloc, one, 0), TAKEN);
    agree(rt, shardheap_raw_adopt(alloc, other, 1), TAKEN);
    owns_nothing(rt, alloc, other, NO_SHARD);
    agree(rt, shardheap_raw_leave(alloc, one), OK);
    owns_nothing(rt, alloc, one, NO_SHARD);
    agree(rt, shardheap_raw_adopt(alloc, other, 1), OK);
    agree(rt, shardheap_raw_leave(alloc, other), OK);
}

#[test]
fn a_shard_has_one_owner(rt: HostRuntime) {
    let alloc = rt.alloc();
    let mut heap = opened(&rt, alloc, 2, 2);
    let mut one = taken(&rt, alloc, &mut heap);
    let mut other = taken(&rt, alloc, &mut heap);
    adopts(&rt, alloc, &mut one, &mut other);
    given(&rt, alloc, one);
    given(&rt, alloc, other);
}

// A shard of 8 pages has 24 values of sixteen words, three on each page. The first page is prepared for them.
fn fills(rt: &impl Abort, alloc: Global, pass: &mut PassHandle) {
    agree(rt, prepare(alloc, pass, 17), (TOO_LONG, 99));
    agree(rt, insert(alloc, pass, 17), (TOO_LONG, 99));
    agree(rt, pages_left(alloc, pass), (OK, 8));
    agree(rt, prepare(alloc, pass, 16), (OK, 0));
    agree(rt, pages_left(alloc, pass), (OK, 7));
    for _ in 0..24 {
        agree(rt, insert(alloc, pass, 16).0, OK);
    }
    agree(rt, insert(alloc, pass, 16), (FULL, 99));
    agree(rt, insert(alloc, pass, 1), (FULL, 99));
    agree(rt, prepare(alloc, pass, 1), (FULL, 99));
    agree(rt, pages_left(alloc, pass), (OK, 0));
    agree(rt, slots_out(alloc, pass), (OK, 24));
}

#[test]
fn a_shard_has_room_for_three_long_values_on_a_page(rt: HostRuntime) {
    let alloc = rt.alloc();
    let mut heap = opened(&rt, alloc, 1, 1);
    let mut pass = owner(&rt, alloc, &mut heap, 0);
    fills(&rt, alloc, &mut pass);
    left(&rt, alloc, pass);
}

// 24 long values fill the shard, and another pass removes each.
fn freed_by_another(rt: &impl Abort, alloc: Global, one: &mut PassHandle, other: &mut PassHandle) {
    let mut keys = [0; 24];
    for key in &mut keys {
        *key = stored(rt, alloc, one, &WORDS[..16]);
    }
    for key in &keys {
        agree(rt, shardheap_raw_remove(alloc, other, *key), OK);
    }
}

// What another pass freed is out until a collect. Only then may its pages take values of another length.
fn collects(rt: &impl Abort, alloc: Global, pass: &mut PassHandle) {
    agree(rt, slots_out(alloc, pass), (OK, 24));
    agree(rt, insert(alloc, pass, 1), (FULL, 99));
    agree(rt, shardheap_raw_collect(alloc, pass), OK);
    agree(rt, slots_out(alloc, pass), (OK, 0));
    agree(rt, insert(alloc, pass, 1).0, OK);
    agree(rt, slots_out(alloc, pass), (OK, 1));
}

#[test]
fn a_collect_finds_what_another_freed(rt: HostRuntime) {
    let alloc = rt.alloc();
    let mut heap = opened(&rt, alloc, 1, 2);
    let mut one = owner(&rt, alloc, &mut heap, 0);
    let mut other = taken(&rt, alloc, &mut heap);
    freed_by_another(&rt, alloc, &mut one, &mut other);
    collects(&rt, alloc, &mut one);
    left(&rt, alloc, one);
    given(&rt, alloc, other);
}
