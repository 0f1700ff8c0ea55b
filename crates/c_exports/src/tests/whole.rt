//! A heap as a whole: with a pass taken, with none, and after a gather.
use super::codes::{AWAY, EMPTY, FULL, NO_KEY, NO_PAGE, NO_PASS, OK};
use super::{agree, ended, given, left, opened, owner, stored, taken};
use crate::accounts::{
    PageReport, SumsReport, shardheap_raw_accounts, shardheap_raw_gather, shardheap_raw_totals,
};
use crate::calls::{shardheap_raw_get, shardheap_raw_remove};
use crate::keys::shardheap_raw_next_key;
use crate::passes::shardheap_raw_take;
use crate::values::shardheap_raw_insert;
use c_handles::{HeapHandle, PassHandle};
use std::alloc::Global;
use std::process::Abort;

// What is written if a call is refused: nothing.
const NINES: [u32; 6] = [9; 6];

// The accounts of a page: the code, and used, class, live, marked, retired and queued as they were written.
fn accounts(alloc: Global, heap: &mut HeapHandle, shard: u32, page: u32) -> (u32, [u32; 6]) {
    let mut told = PageReport {
        used: 9,
        size_class: 9,
        live: 9,
        marked: 9,
        retired: 9,
        queued: 9,
    };
    let code = shardheap_raw_accounts(alloc, heap, shard, page, &mut told);
    let PageReport {
        used,
        size_class,
        live,
        marked,
        retired,
        queued,
    } = told;
    (code, [used, size_class, live, marked, retired, queued])
}

// The sums: the code, and live, marked, retired, queued, used pages and blank pages as they were written.
fn totals(alloc: Global, heap: &mut HeapHandle) -> (u32, [u32; 6]) {
    let mut told = SumsReport {
        live: 9,
        marked: 9,
        retired: 9,
        queued: 9,
        used_pages: 9,
        blank_pages: 9,
    };
    let code = shardheap_raw_totals(alloc, heap, &mut told);
    let SumsReport {
        live,
        marked,
        retired,
        queued,
        used_pages,
        blank_pages,
    } = told;
    (
        code,
        [live, marked, retired, queued, used_pages, blank_pages],
    )
}

// The next key from a place on: the code, and the place and the key as they were written. No key is 77.
fn next_key(alloc: Global, heap: &mut HeapHandle, from: u64) -> (u32, u64, u64) {
    let mut place = from;
    let mut key = 77;
    let code = shardheap_raw_next_key(alloc, heap, &mut place, &mut key);
    (code, place, key)
}

// Each call on the whole heap is refused with this code, and writes nothing.
fn is_not_whole(rt: &impl Abort, alloc: Global, heap: &mut HeapHandle, wanted: u32) {
    agree(rt, shardheap_raw_gather(alloc, heap), wanted);
    agree(rt, accounts(alloc, heap, 0, 0), (wanted, NINES));
    agree(rt, totals(alloc, heap), (wanted, NINES));
    agree(rt, next_key(alloc, heap, 55), (wanted, 55, 77));
}

#[test]
fn an_empty_handle_has_no_accounts(rt: HostRuntime) {
    let alloc = rt.alloc();
    let mut heap = HeapHandle::empty(alloc);
    is_not_whole(&rt, alloc, &mut heap, EMPTY);
}

// A refused gather takes no pass for good: each of three is there to be taken.
#[test]
fn no_heap_is_whole_while_a_pass_is_away(rt: HostRuntime) {
    let alloc = rt.alloc();
    let mut heap = opened(&rt, alloc, 1, 3);
    let one = taken(&rt, alloc, &mut heap);
    is_not_whole(&rt, alloc, &mut heap, AWAY);
    let other = taken(&rt, alloc, &mut heap);
    let third = taken(&rt, alloc, &mut heap);
    is_not_whole(&rt, alloc, &mut heap, AWAY);
    given(&rt, alloc, one);
    given(&rt, alloc, other);
    given(&rt, alloc, third);
    agree(&rt, shardheap_raw_gather(alloc, &mut heap), OK);
    agree(&rt, totals(alloc, &mut heap), (OK, [0, 0, 0, 0, 0, 8]));
}

// The joined pass is the only one, and the heap is whole whenever it is at home.
#[test]
fn joined_passes_are_one(rt: HostRuntime) {
    let alloc = rt.alloc();
    let mut heap = opened(&rt, alloc, 1, 3);
    // No pass carries all tales yet.
    agree(&rt, totals(alloc, &mut heap), (AWAY, NINES));
    agree(&rt, shardheap_raw_gather(alloc, &mut heap), OK);
    let joined = taken(&rt, alloc, &mut heap);
    let mut none = PassHandle::empty(alloc);
    agree(
        &rt,
        shardheap_raw_take(alloc, &mut heap, &mut none),
        NO_PASS,
    );
    ended(alloc, none);
    is_not_whole(&rt, alloc, &mut heap, AWAY);
    given(&rt, alloc, joined);
    agree(&rt, totals(alloc, &mut heap), (OK, [0, 0, 0, 0, 0, 8]));
    agree(&rt, shardheap_raw_gather(alloc, &mut heap), OK);
    agree(&rt, totals(alloc, &mut heap), (OK, [0, 0, 0, 0, 0, 8]));
}

// Stores three values of a word. The second is removed, and the third is removed and held.
fn three_values(rt: &impl Abort, alloc: Global, pass: &mut PassHandle) -> u64 {
    let live = stored(rt, alloc, pass, &[7]);
    let removed = stored(rt, alloc, pass, &[8]);
    let held = stored(rt, alloc, pass, &[9]);
    agree(rt, shardheap_raw_get(alloc, pass, held), OK);
    agree(rt, shardheap_raw_remove(alloc, pass, removed), OK);
    agree(rt, shardheap_raw_remove(alloc, pass, held), OK);
    live
}

// One page of 48 slots is used, and 15 pages of two shards are blank.
fn is_told(rt: &impl Abort, alloc: Global, heap: &mut HeapHandle, live: u64) {
    agree(rt, accounts(alloc, heap, 1, 0), (OK, [1, 0, 1, 1, 0, 46]));
    agree(rt, accounts(alloc, heap, 0, 7), (OK, [0; 6]));
    agree(rt, accounts(alloc, heap, 2, 0), (NO_PAGE, NINES));
    agree(rt, accounts(alloc, heap, 0, 8), (NO_PAGE, NINES));
    agree(rt, totals(alloc, heap), (OK, [1, 1, 0, 46, 1, 15]));
    let (code, behind, key) = next_key(alloc, heap, 0);
    agree(rt, (code, key), (OK, live));
    agree(rt, next_key(alloc, heap, behind), (NO_KEY, behind, 77));
    agree(rt, next_key(alloc, heap, u64::MAX), (NO_KEY, u64::MAX, 77));
}

#[test]
fn what_was_stored_is_told(rt: HostRuntime) {
    let alloc = rt.alloc();
    let mut heap = opened(&rt, alloc, 2, 2);
    let mut pass = owner(&rt, alloc, &mut heap, 1);
    let live = three_values(&rt, alloc, &mut pass);
    left(&rt, alloc, pass);
    agree(&rt, shardheap_raw_gather(alloc, &mut heap), OK);
    is_told(&rt, alloc, &mut heap, live);
}

// A shard of 8 pages of three slots has 72 values of sixteen words in all, since a slot serves three.
fn uses_up(rt: &impl Abort, alloc: Global, pass: &mut PassHandle) {
    for _ in 0..72 {
        let key = stored(rt, alloc, pass, &[3; 16]);
        agree(rt, shardheap_raw_remove(alloc, pass, key), OK);
    }
    let mut key = 99;
    let code = shardheap_raw_insert(alloc, pass, &[3; 16], &mut key);
    agree(rt, (code, key), (FULL, 99));
}

#[test]
fn slots_that_served_three_values_are_retired(rt: HostRuntime) {
    let alloc = rt.alloc();
    let mut heap = opened(&rt, alloc, 1, 1);
    let mut pass = owner(&rt, alloc, &mut heap, 0);
    uses_up(&rt, alloc, &mut pass);
    left(&rt, alloc, pass);
    agree(
        &rt,
        accounts(alloc, &mut heap, 0, 7),
        (OK, [1, 7, 0, 0, 3, 0]),
    );
    agree(&rt, totals(alloc, &mut heap), (OK, [0, 0, 24, 0, 8, 0]));
    agree(&rt, next_key(alloc, &mut heap, 0), (NO_KEY, 0, 77));
}
