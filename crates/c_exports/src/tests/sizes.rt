//! What an open heap has. A page has 195 words of 8 bytes, and slots for 48 values of one word or 3 of sixteen. Each
//! shard has two words more.
use super::codes::{EMPTY, OK, TINY};
use super::{agree, given, opened, stored, taken};
use crate::opening::{shardheap_raw_open, shardheap_raw_open_growing};
use crate::sizes::{shardheap_raw_bytes, shardheap_raw_capacity, shardheap_raw_layout_of};
use c_handles::HeapHandle;
use std::alloc::Global;
use std::process::Abort;

// The heap has room for this many values of 1 and of 16 words, and takes this many bytes.
fn has(
    rt: &impl Abort,
    alloc: Global,
    heap: &mut HeapHandle,
    ones: u64,
    sixteens: u64,
    bytes: u64,
) {
    agree(rt, shardheap_raw_capacity(alloc, heap, 1), ones);
    agree(rt, shardheap_raw_capacity(alloc, heap, 16), sixteens);
    agree(rt, shardheap_raw_capacity(alloc, heap, 17), 0);
    agree(rt, shardheap_raw_bytes(alloc, heap), bytes);
}

// The layout of the heap: the code, and what was written.
fn layout_of(alloc: Global, heap: &mut HeapHandle) -> (u32, u32) {
    let mut layout = 99;
    let code = shardheap_raw_layout_of(alloc, heap, &mut layout);
    (code, layout)
}

#[test]
fn an_empty_handle_has_nothing(rt: HostRuntime) {
    let alloc = rt.alloc();
    let mut heap = HeapHandle::empty(alloc);
    has(&rt, alloc, &mut heap, 0, 0, 0);
    agree(&rt, layout_of(alloc, &mut heap), (EMPTY, 99));
}

// Two shards of 8 pages: 16 pages, and 16 x 195 + 2 x 2 = 3,124 words.
#[test]
fn a_heap_of_a_fixed_shape_has_its_size(rt: HostRuntime) {
    let alloc = rt.alloc();
    let mut heap = opened(&rt, alloc, 2, 1);
    has(&rt, alloc, &mut heap, 768, 48, 24_992);
    has(&rt, alloc, &mut heap, 768, 48, 24_992);
}

#[test]
fn a_heap_has_the_layout_that_it_was_opened_with(rt: HostRuntime) {
    let alloc = rt.alloc();
    for layout in 0..TINY + 1 {
        let mut heap = HeapHandle::empty(alloc);
        let code = shardheap_raw_open(alloc, &mut heap, layout, 1, 1, 1);
        agree(&rt, code, OK);
        agree(&rt, layout_of(alloc, &mut heap), (OK, layout));
    }
}

// The first chunk has one shard of 8 pages: 8 x 195 + 2 = 1,562 words. The 385th value opens the second chunk, which has
// as many.
#[test]
fn a_growing_heap_has_the_size_of_its_chunks(rt: HostRuntime) {
    let alloc = rt.alloc();
    let mut heap = HeapHandle::empty(alloc);
    let code = shardheap_raw_open_growing(alloc, &mut heap, 1, 1, 1, 1, 3);
    agree(&rt, code, OK);
    agree(&rt, layout_of(alloc, &mut heap), (OK, 4));
    has(&rt, alloc, &mut heap, 384, 24, 12_496);
    let mut pass = taken(&rt, alloc, &mut heap);
    for n in 0..385 {
        stored(&rt, alloc, &mut pass, &[n]);
    }
    has(&rt, alloc, &mut heap, 768, 48, 24_992);
    given(&rt, alloc, pass);
}
