//! What an open heap has: room for values, memory, and a layout.
ghost use Rattle.c_handles.specs.HeldHeaps.{HasBytes, HasCapacity};
ghost use Rattle.c_exports.specs.Opened.{KnowsHeap, LayoutTold};

use crate::codes::{EMPTY, OK};
use c_handles::HeapHandle;
use std::alloc::Global;

/// How many values of this many words the heap has slots for, in the chunks that are open. It is 0 for more than 16
/// words, and if the handle is empty.
#[unsafe(no_mangle)]
pub extern "C" fn shardheap_raw_capacity(alloc: Global, heap: &mut HeapHandle, words: u32) -> u64
    ensures { KnowsHeap (HasCapacity words) result heap.old.slot.value heap.new.slot.value }
{
    let Some(held) = heap.take(alloc) else {
        return 0;
    };
    let count = held.capacity(words);
    *heap = HeapHandle::of(held);
    count
}

/// How many bytes the words of the heap take, in the chunks that are open. It is 0 if the handle is empty.
#[unsafe(no_mangle)]
pub extern "C" fn shardheap_raw_bytes(alloc: Global, heap: &mut HeapHandle) -> u64
    ensures { KnowsHeap HasBytes result heap.old.slot.value heap.new.slot.value }
{
    let Some(held) = heap.take(alloc) else {
        return 0;
    };
    let bytes = held.bytes();
    *heap = HeapHandle::of(held);
    bytes
}

/// Writes the number of the heap's layout, and 4 if it grows.
#[unsafe(no_mangle)]
pub extern "C" fn shardheap_raw_layout_of(
    alloc: Global,
    heap: &mut HeapHandle,
    layout: &mut u32,
) -> u32
    ensures { LayoutTold result layout.old layout.new heap.old.slot.value heap.new.slot.value }
{
    let Some(held) = heap.take(alloc) else {
        return EMPTY;
    };
    *layout = held.layout();
    *heap = HeapHandle::of(held);
    OK
}
