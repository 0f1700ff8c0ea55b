//! Heaps are opened, shared and closed.
use super::codes::{BAD_LAYOUT, BAD_SHAPE, EMPTY, OCCUPIED, OK, TINY};
use super::{agree, given, opened, taken};
use crate::opening::{
    shardheap_raw_close, shardheap_raw_open, shardheap_raw_open_for, shardheap_raw_share,
};
use crate::passes::shardheap_raw_passes;
use c_handles::HeapHandle;
use std::alloc::Global;
use std::process::Abort;

// A layout, how many shards, segments and passes there are, and the code of the opening.
const SHAPES: [(u32, u32, u32, u32, u32); 14] = [
    (4, 1, 1, 1, BAD_LAYOUT),
    (u32::MAX, 1, 1, 1, BAD_LAYOUT),
    (TINY, 0, 1, 1, BAD_SHAPE),
    (TINY, 1, 0, 1, BAD_SHAPE),
    (TINY, 1, 1, 0, BAD_SHAPE),
    (TINY, 1, 1, 65, BAD_SHAPE),
    (TINY, 5, 2, 1, BAD_SHAPE),
    (TINY, 4, 3, 1, BAD_SHAPE),
    (TINY, u32::MAX, u32::MAX, u32::MAX, BAD_SHAPE),
    (TINY, 4, 2, 64, OK),
    (0, 257, 1, 1, BAD_SHAPE),
    (0, 2, 1, 1, OK),
    (1, 65, 1, 1, BAD_SHAPE),
    (2, 65, 1, 1, BAD_SHAPE),
];

// A heap of this shape is opened, or refused with this code. It has these passes, or none.
fn opens(rt: &impl Abort, alloc: Global, shape: &(u32, u32, u32, u32, u32)) {
    let (layout, shards, segments, passes, wanted) = *shape;
    let mut heap = HeapHandle::empty(alloc);
    let code = shardheap_raw_open(alloc, &mut heap, layout, shards, segments, passes);
    agree(rt, code, wanted);
    let has = if wanted == OK { u64::from(passes) } else { 0 };
    agree(rt, shardheap_raw_passes(alloc, &mut heap), has);
}

#[test]
fn a_shape_is_opened_if_the_layout_has_it(rt: HostRuntime) {
    for shape in &SHAPES {
        opens(&rt, rt.alloc(), shape);
    }
}

// A layout, how many owners, values of each, words of a value and passes there are, and the code of the opening.
const ROOMS: [(u32, u32, u64, u32, u32, u32); 7] = [
    (4, 1, 1, 1, 1, BAD_LAYOUT),
    // A shard of layout tiny has 16 pages of 3 slots for such values.
    (TINY, 4, 48, 16, 2, OK),
    (TINY, 4, 49, 16, 2, BAD_SHAPE),
    (TINY, 5, 48, 16, 2, BAD_SHAPE),
    (TINY, 1, 1, 17, 1, BAD_SHAPE),
    (TINY, 1, 1, 1, 65, BAD_SHAPE),
    (0, 1, u64::MAX, 1, 1, BAD_SHAPE),
];

// A heap with this room is opened, or refused with this code. It has these passes, or none.
fn opens_for(rt: &impl Abort, alloc: Global, room: &(u32, u32, u64, u32, u32, u32)) {
    let (layout, owners, values, words, passes, wanted) = *room;
    let mut heap = HeapHandle::empty(alloc);
    let code = shardheap_raw_open_for(alloc, &mut heap, layout, owners, values, words, passes);
    agree(rt, code, wanted);
    let has = if wanted == OK { u64::from(passes) } else { 0 };
    agree(rt, shardheap_raw_passes(alloc, &mut heap), has);
}

#[test]
fn room_is_opened_if_the_layout_has_it(rt: HostRuntime) {
    for room in &ROOMS {
        opens_for(&rt, rt.alloc(), room);
    }
}

#[test]
fn a_full_handle_is_not_opened(rt: HostRuntime) {
    let alloc = rt.alloc();
    let mut heap = opened(&rt, alloc, 1, 2);
    // Also if there is no such layout or shape.
    agree(
        &rt,
        shardheap_raw_open(alloc, &mut heap, 4, 0, 0, 0),
        OCCUPIED,
    );
    agree(
        &rt,
        shardheap_raw_open_for(alloc, &mut heap, 4, 1, 1, 1, 7),
        OCCUPIED,
    );
    agree(&rt, shardheap_raw_passes(alloc, &mut heap), 2);
}

// A closed handle is empty, and may be closed again and opened again.
#[test]
fn a_closed_handle_is_empty(rt: HostRuntime) {
    let alloc = rt.alloc();
    let mut heap = opened(&rt, alloc, 1, 2);
    shardheap_raw_close(alloc, &mut heap);
    agree(&rt, shardheap_raw_passes(alloc, &mut heap), 0);
    shardheap_raw_close(alloc, &mut heap);
    agree(&rt, shardheap_raw_open(alloc, &mut heap, TINY, 1, 1, 3), OK);
    agree(&rt, shardheap_raw_passes(alloc, &mut heap), 3);
}

// Both handles give out the passes of one heap, and either keeps it.
#[test]
fn a_share_is_of_the_same_heap(rt: HostRuntime) {
    let alloc = rt.alloc();
    let mut heap = HeapHandle::empty(alloc);
    let mut other = HeapHandle::empty(alloc);
    agree(
        &rt,
        shardheap_raw_share(alloc, &mut heap, &mut other),
        EMPTY,
    );
    agree(&rt, shardheap_raw_open(alloc, &mut heap, TINY, 1, 1, 1), OK);
    agree(&rt, shardheap_raw_share(alloc, &mut heap, &mut other), OK);
    agree(
        &rt,
        shardheap_raw_share(alloc, &mut heap, &mut other),
        OCCUPIED,
    );
    let pass = taken(&rt, alloc, &mut heap);
    shardheap_raw_close(alloc, &mut heap);
    given(&rt, alloc, pass);
    let pass = taken(&rt, alloc, &mut other);
    given(&rt, alloc, pass);
}
