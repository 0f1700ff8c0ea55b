//! Each export reaches each code that `shardheap.h` names for it, except three. `Waiting` and `Crowded` of a load take
//! a second thread, and `Taken` of a heed takes a receipt of another heap.
//!
//! The heaps are of layout tiny, and those of `growing` grow. A test opens a heap and closes it; its story is in
//! functions over handles.
mod batches;
mod calls;
mod codes;
mod growing;
mod memory;
mod opening;
mod owners;
mod passes;
mod receipts;
mod sizes;
mod tags;
mod telling;
mod whole;

use crate::calls::{shardheap_raw_adopt, shardheap_raw_leave};
use crate::opening::shardheap_raw_open;
use crate::passes::{shardheap_raw_give, shardheap_raw_take};
use crate::values::shardheap_raw_insert;
use c_handles::{HeapHandle, PassHandle};
use codes::{OK, TINY};
use std::alloc::Global;
use std::fmt::Debug;
use std::process::Abort;

// Fails unless the two are equal. It is a function because each assertion that is written out is proved anew.
fn agree<T: PartialEq + Debug + Drop>(rt: &impl Abort, found: T, wanted: T) {
    assert_eq!(rt; found, wanted);
}

// A heap of layout tiny. Its shards have one segment, of 8 pages.
fn opened(rt: &impl Abort, alloc: Global, shards: u32, passes: u32) -> HeapHandle {
    let mut heap = HeapHandle::empty(alloc);
    let code = shardheap_raw_open(alloc, &mut heap, TINY, shards, 1, passes);
    agree(rt, code, OK);
    heap
}

// A pass of the heap.
fn taken(rt: &impl Abort, alloc: Global, heap: &mut HeapHandle) -> PassHandle {
    let mut pass = PassHandle::empty(alloc);
    agree(rt, shardheap_raw_take(alloc, heap, &mut pass), OK);
    pass
}

// The owner of a shard of the heap.
fn owner(rt: &impl Abort, alloc: Global, heap: &mut HeapHandle, shard: u64) -> PassHandle {
    let mut pass = taken(rt, alloc, heap);
    agree(rt, shardheap_raw_adopt(alloc, &mut pass, shard), OK);
    pass
}

// Gives the pass back.
fn given(rt: &impl Abort, alloc: Global, mut pass: PassHandle) {
    agree(rt, shardheap_raw_give(alloc, &mut pass), OK);
    ended(alloc, pass);
}

// Ends a handle that should be empty. A pass in it is lost.
fn ended(alloc: Global, mut pass: PassHandle) {
    drop(pass.take(alloc));
}

// Leaves the shard that the pass owns, and gives the pass back.
fn left(rt: &impl Abort, alloc: Global, mut pass: PassHandle) {
    agree(rt, shardheap_raw_leave(alloc, &mut pass), OK);
    given(rt, alloc, pass);
}

// Stores a value of these words, and returns its key.
fn stored(rt: &impl Abort, alloc: Global, owner: &mut PassHandle, words: &[u64]) -> u64 {
    let mut key = 0;
    agree(rt, shardheap_raw_insert(alloc, owner, words, &mut key), OK);
    key
}
