//! Opening, sharing and closing a heap.
ghost use Rattle.std.specs.Prelude.{◌≡◌, None};
ghost use Rattle.c_handles.specs.Heaps.{OpensShaped, OpensFor};
ghost use Rattle.c_handles.specs.HeldHeaps.{OpensFixed};
ghost use Rattle.c_exports.specs.Opened.{OpenTold, OpensGrowing, HeapPut, ShareTold};

use crate::codes::{BAD_LAYOUT, EMPTY, OCCUPIED, OK};
use c_handles::heap::LayoutName;
use c_handles::{HeapHandle, HeldHeap};
use sh_value::Refusal;
use std::alloc::Global;

// Puts what was opened into an empty handle.
fn put_opened(alloc: Global, heap: &mut HeapHandle, opened: Result<HeldHeap, Refusal>) -> u32
    requires { heap.old.slot.value ≡ None }
    ensures { HeapPut opened result heap.new.slot.value }
{
    let held = match opened {
        Ok(opened) => Box::new(alloc, opened),
        Err(refusal) => return refusal.number(),
    };
    match held {
        Ok(held) => {
            *heap = HeapHandle::of(held);
            OK
        }
        Err(_) => Refusal::Memory.number(),
    }
}

/// Opens a heap of this layout and shape into an empty handle.
#[unsafe(no_mangle)]
pub extern "C" fn shardheap_raw_open(
    alloc: Global,
    heap: &mut HeapHandle,
    layout: u32,
    shards: u32,
    segments: u32,
    passes: u32,
) -> u32
    ensures { OpenTold (λ l. OpensFixed (OpensShaped l
        (record { shards = shards; segments = segments; passes = passes }))) layout result heap.old.slot.value
        heap.new.slot.value }
{
    if heap.is_full() {
        return OCCUPIED;
    }
    let Some(layout) = LayoutName::numbered(layout) else {
        return BAD_LAYOUT;
    };
    let opened = HeldHeap::open_shaped(alloc, layout, shards, segments, passes);
    put_opened(alloc, heap, opened)
}

/// Opens a heap of this layout into an empty handle. The shard of each owner has room for `values` values of `words`
/// words.
#[unsafe(no_mangle)]
pub extern "C" fn shardheap_raw_open_for(
    alloc: Global,
    heap: &mut HeapHandle,
    layout: u32,
    owners: u32,
    values: u64,
    words: u32,
    passes: u32,
) -> u32
    ensures { OpenTold (λ l. OpensFixed (OpensFor l owners values words passes)) layout result heap.old.slot.value
        heap.new.slot.value }
{
    if heap.is_full() {
        return OCCUPIED;
    }
    let Some(layout) = LayoutName::numbered(layout) else {
        return BAD_LAYOUT;
    };
    let opened = HeldHeap::open_for(alloc, layout, owners, values, words, passes);
    put_opened(alloc, heap, opened)
}

/// Opens a growing heap of at most this many chunks into an empty handle. In its first chunk the shard of each owner
/// has room for `values` values of `words` words.
#[unsafe(no_mangle)]
pub extern "C" fn shardheap_raw_open_growing(
    alloc: Global,
    heap: &mut HeapHandle,
    owners: u32,
    values: u64,
    words: u32,
    passes: u32,
    chunks: u32,
) -> u32
    ensures { OpensGrowing owners values words passes chunks result heap.old.slot.value heap.new.slot.value }
{
    if heap.is_full() {
        return OCCUPIED;
    }
    let opened = HeldHeap::open_growing(alloc, owners, values, words, passes, chunks);
    put_opened(alloc, heap, opened)
}

/// Makes a second handle of the heap in an empty handle.
#[unsafe(no_mangle)]
pub extern "C" fn shardheap_raw_share(
    alloc: Global,
    heap: &mut HeapHandle,
    other: &mut HeapHandle,
) -> u32
    ensures { ShareTold result heap.old.slot.value heap.new.slot.value other.old.slot.value other.new.slot.value }
{
    if other.is_full() {
        return OCCUPIED;
    }
    let Some(held) = heap.take(alloc) else {
        return EMPTY;
    };
    let shared = held.share();
    *heap = HeapHandle::of(held);
    put_opened(alloc, other, shared)
}

/// Drops the handle's share of the heap, and leaves the handle empty. The last handle or pass frees the heap.
#[unsafe(no_mangle)]
pub extern "C" fn shardheap_raw_close(alloc: Global, heap: &mut HeapHandle)
    ensures { heap.new.slot.value ≡ None }
{
    drop(heap.take(alloc));
}
