//! One allocation may be refused, at any of these calls: nothing has changed then, and the same call succeeds.
use super::codes::{MEMORY, NO_SHARD, OK, TINY};
use super::{agree, given, left};
use crate::accounts::shardheap_raw_gather;
use crate::calls::{shardheap_raw_adopt, shardheap_raw_leave};
use crate::opening::{
    shardheap_raw_open, shardheap_raw_open_for, shardheap_raw_open_growing, shardheap_raw_share,
};
use crate::passes::{shardheap_raw_chunks, shardheap_raw_passes, shardheap_raw_take};
use crate::receipts::shardheap_raw_receipt_make;
use crate::values::{shardheap_raw_insert, shardheap_raw_prepare};
use c_handles::{HeapHandle, PassHandle, ReceiptHandle};
use std::alloc::Global;
use std::process::Abort;

// Whether memory was refused to a call, which is otherwise done.
fn is_refused(rt: &impl Abort, code: u32) -> bool {
    if code == MEMORY {
        return true;
    }
    agree(rt, code, OK);
    false
}

fn opens(rt: &impl Abort, alloc: Global, heap: &mut HeapHandle) {
    if is_refused(rt, shardheap_raw_open(alloc, heap, TINY, 1, 2, 2)) {
        agree(rt, shardheap_raw_passes(alloc, heap), 0);
        agree(rt, shardheap_raw_open(alloc, heap, TINY, 1, 2, 2), OK);
    }
    agree(rt, shardheap_raw_passes(alloc, heap), 2);
}

fn opens_for(rt: &impl Abort, alloc: Global, heap: &mut HeapHandle) {
    if is_refused(rt, shardheap_raw_open_for(alloc, heap, TINY, 1, 24, 16, 3)) {
        agree(rt, shardheap_raw_passes(alloc, heap), 0);
        agree(
            rt,
            shardheap_raw_open_for(alloc, heap, TINY, 1, 24, 16, 3),
            OK,
        );
    }
    agree(rt, shardheap_raw_passes(alloc, heap), 3);
}

fn grows(rt: &impl Abort, alloc: Global, heap: &mut HeapHandle) {
    if is_refused(rt, shardheap_raw_open_growing(alloc, heap, 1, 1, 1, 2, 2)) {
        agree(rt, shardheap_raw_chunks(alloc, heap), 0);
        agree(
            rt,
            shardheap_raw_open_growing(alloc, heap, 1, 1, 1, 2, 2),
            OK,
        );
    }
    agree(rt, shardheap_raw_chunks(alloc, heap), 1);
}

fn shares(rt: &impl Abort, alloc: Global, heap: &mut HeapHandle) {
    let mut other = HeapHandle::empty(alloc);
    if is_refused(rt, shardheap_raw_share(alloc, heap, &mut other)) {
        agree(rt, other.is_full(), false);
        agree(rt, shardheap_raw_share(alloc, heap, &mut other), OK);
    }
    agree(rt, shardheap_raw_passes(alloc, &mut other), 2);
}

fn takes(rt: &impl Abort, alloc: Global, heap: &mut HeapHandle) -> PassHandle {
    let mut pass = PassHandle::empty(alloc);
    if is_refused(rt, shardheap_raw_take(alloc, heap, &mut pass)) {
        agree(rt, pass.is_full(), false);
        agree(rt, shardheap_raw_take(alloc, heap, &mut pass), OK);
    }
    pass
}

fn adopts(rt: &impl Abort, alloc: Global, pass: &mut PassHandle) {
    if is_refused(rt, shardheap_raw_adopt(alloc, pass, 0)) {
        agree(rt, shardheap_raw_leave(alloc, pass), NO_SHARD);
        agree(rt, shardheap_raw_adopt(alloc, pass, 0), OK);
    }
}

fn prepares(rt: &impl Abort, alloc: Global, pass: &mut PassHandle) {
    let mut page = 99;
    if is_refused(rt, shardheap_raw_prepare(alloc, pass, 1, &mut page)) {
        agree(rt, page, 99);
        agree(rt, shardheap_raw_prepare(alloc, pass, 1, &mut page), OK);
    }
    agree(rt, page, 0);
}

fn inserts(rt: &impl Abort, alloc: Global, pass: &mut PassHandle) {
    let mut key = 0;
    if is_refused(rt, shardheap_raw_insert(alloc, pass, &[7; 16], &mut key)) {
        agree(rt, key, 0);
        agree(
            rt,
            shardheap_raw_insert(alloc, pass, &[7; 16], &mut key),
            OK,
        );
    }
}

fn makes(rt: &impl Abort, alloc: Global, pass: &mut PassHandle) {
    let mut receipt = ReceiptHandle::empty(alloc);
    if is_refused(rt, shardheap_raw_receipt_make(alloc, pass, &mut receipt)) {
        agree(rt, receipt.is_full(), false);
        agree(
            rt,
            shardheap_raw_receipt_make(alloc, pass, &mut receipt),
            OK,
        );
    }
    agree(rt, receipt.is_full(), true);
}

// A shard of two segments has 16 pages. One is for short values, and 45 long values fill the others.
fn fills(rt: &impl Abort, alloc: Global, pass: &mut PassHandle) {
    adopts(rt, alloc, pass);
    prepares(rt, alloc, pass);
    for _ in 0..45 {
        inserts(rt, alloc, pass);
    }
    makes(rt, alloc, pass);
}

fn gathers(rt: &impl Abort, alloc: Global, heap: &mut HeapHandle) {
    if is_refused(rt, shardheap_raw_gather(alloc, heap)) {
        agree(rt, shardheap_raw_gather(alloc, heap), OK);
    }
}

#[test]
fn refused_memory_changes_nothing(rt: HostRuntime) {
    let alloc = rt.alloc();
    let mut heap = HeapHandle::empty(alloc);
    opens(&rt, alloc, &mut heap);
    shares(&rt, alloc, &mut heap);
    let mut pass = takes(&rt, alloc, &mut heap);
    fills(&rt, alloc, &mut pass);
    let other = takes(&rt, alloc, &mut heap);
    given(&rt, alloc, other);
    left(&rt, alloc, pass);
    gathers(&rt, alloc, &mut heap);
    let mut larger = HeapHandle::empty(alloc);
    opens_for(&rt, alloc, &mut larger);
}

// 24 values of 16 words fill the first chunk, and the next insert opens another.
#[test]
fn refused_memory_changes_no_growing_heap(rt: HostRuntime) {
    let alloc = rt.alloc();
    let mut heap = HeapHandle::empty(alloc);
    grows(&rt, alloc, &mut heap);
    shares(&rt, alloc, &mut heap);
    let mut pass = takes(&rt, alloc, &mut heap);
    let other = takes(&rt, alloc, &mut heap);
    for _ in 0..25 {
        inserts(&rt, alloc, &mut pass);
    }
    agree(&rt, shardheap_raw_chunks(alloc, &mut heap), 2);
    makes(&rt, alloc, &mut pass);
    given(&rt, alloc, other);
    left(&rt, alloc, pass);
}
