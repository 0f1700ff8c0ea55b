//! Passes are taken, given back and lost.
use super::codes::{EMPTY, NO_PASS, OCCUPIED, OK, OWNS, TAKEN};
use super::{agree, ended, given, opened, taken};
use crate::calls::{shardheap_raw_adopt, shardheap_raw_leave};
use crate::opening::shardheap_raw_close;
use crate::passes::{
    shardheap_raw_give, shardheap_raw_pass_close, shardheap_raw_pass_lose, shardheap_raw_passes,
    shardheap_raw_take,
};
use c_handles::{HeapHandle, PassHandle};
use std::alloc::Global;
use std::process::Abort;

// An attempt to take a pass of the heap has this code, and fills no handle.
fn none_is_taken(rt: &impl Abort, alloc: Global, heap: &mut HeapHandle, wanted: u32) {
    let mut pass = PassHandle::empty(alloc);
    agree(rt, shardheap_raw_take(alloc, heap, &mut pass), wanted);
    agree(rt, pass.is_full(), false);
    ended(alloc, pass);
}

#[test]
fn each_pass_is_taken_once(rt: HostRuntime) {
    let alloc = rt.alloc();
    let mut heap = opened(&rt, alloc, 1, 2);
    let mut one = taken(&rt, alloc, &mut heap);
    let other = taken(&rt, alloc, &mut heap);
    none_is_taken(&rt, alloc, &mut heap, NO_PASS);
    agree(
        &rt,
        shardheap_raw_take(alloc, &mut heap, &mut one),
        OCCUPIED,
    );
    given(&rt, alloc, other);
    let again = taken(&rt, alloc, &mut heap);
    none_is_taken(&rt, alloc, &mut heap, NO_PASS);
    given(&rt, alloc, again);
    given(&rt, alloc, one);
    agree(&rt, shardheap_raw_passes(alloc, &mut heap), 2);
}

// The pass outlives the handle of its heap.
#[test]
fn an_empty_handle_has_no_pass(rt: HostRuntime) {
    let alloc = rt.alloc();
    let mut heap = HeapHandle::empty(alloc);
    none_is_taken(&rt, alloc, &mut heap, EMPTY);
    let mut heap = opened(&rt, alloc, 1, 1);
    let pass = taken(&rt, alloc, &mut heap);
    shardheap_raw_close(alloc, &mut heap);
    none_is_taken(&rt, alloc, &mut heap, EMPTY);
    given(&rt, alloc, pass);
}

// An owner is not given back and stays the owner. Once it has left, it is given back.
fn an_owner_stays(rt: &impl Abort, alloc: Global, pass: &mut PassHandle) {
    agree(rt, shardheap_raw_adopt(alloc, pass, 0), OK);
    agree(rt, shardheap_raw_give(alloc, pass), OWNS);
    agree(rt, shardheap_raw_pass_close(alloc, pass), OWNS);
    agree(rt, shardheap_raw_adopt(alloc, pass, 0), TAKEN);
    agree(rt, shardheap_raw_leave(alloc, pass), OK);
}

#[test]
fn a_pass_is_given_back_unless_it_owns_a_shard(rt: HostRuntime) {
    let alloc = rt.alloc();
    let mut heap = opened(&rt, alloc, 1, 1);
    let mut pass = taken(&rt, alloc, &mut heap);
    an_owner_stays(&rt, alloc, &mut pass);
    agree(&rt, shardheap_raw_give(alloc, &mut pass), OK);
    agree(&rt, shardheap_raw_give(alloc, &mut pass), EMPTY);
    agree(&rt, shardheap_raw_take(alloc, &mut heap, &mut pass), OK);
    an_owner_stays(&rt, alloc, &mut pass);
    agree(&rt, shardheap_raw_pass_close(alloc, &mut pass), OK);
    agree(&rt, shardheap_raw_pass_close(alloc, &mut pass), EMPTY);
    ended(alloc, pass);
    let again = taken(&rt, alloc, &mut heap);
    given(&rt, alloc, again);
}

// No take finds the pass again, and nobody adopts its shard.
#[test]
fn a_lost_pass_stays_away_with_its_shard(rt: HostRuntime) {
    let alloc = rt.alloc();
    let mut heap = opened(&rt, alloc, 1, 2);
    let mut lost = taken(&rt, alloc, &mut heap);
    agree(&rt, shardheap_raw_adopt(alloc, &mut lost, 0), OK);
    agree(&rt, shardheap_raw_pass_lose(alloc, &mut lost), OK);
    agree(&rt, shardheap_raw_pass_lose(alloc, &mut lost), EMPTY);
    ended(alloc, lost);
    let mut other = taken(&rt, alloc, &mut heap);
    none_is_taken(&rt, alloc, &mut heap, NO_PASS);
    agree(&rt, shardheap_raw_adopt(alloc, &mut other, 0), TAKEN);
    given(&rt, alloc, other);
    agree(&rt, shardheap_raw_passes(alloc, &mut heap), 2);
}
