//! Passes: how they are taken, given back or lost.
ghost use Rattle.std.specs.Prelude.{◌≡◌, None, IfSome, MatchResult};
ghost use Rattle.sh_value.specs.declared.refusal.Refusal.TheVariants.{Memory};
ghost use Rattle.c_handles.specs.HeldHeaps.{HasChunks, passes_of};
ghost use Rattle.c_exports.specs.Opened.{GiveTold, GivesBack, HasBegun, IsPutBack, KnowsHeap, LoseTold, TakeTold};

use crate::codes::{EMPTY, NO_PASS, OCCUPIED, OK, OWNS};
use c_handles::{HeapHandle, HeldHeap, HeldPass, PassHandle};
use sh_value::Refusal;
use std::alloc::Global;

/// The number of passes of the heap, taken or not. It is 0 if the handle is empty.
#[unsafe(no_mangle)]
pub extern "C" fn shardheap_raw_passes(alloc: Global, heap: &mut HeapHandle) -> u64
    ensures { KnowsHeap (λ held count. count ≡ passes_of held) result heap.old.slot.value heap.new.slot.value }
{
    let Some(held) = heap.take(alloc) else {
        return 0;
    };
    let passes = held.passes();
    *heap = HeapHandle::of(held);
    passes
}

/// The number of chunks of the heap that are open: 1 unless it grows. It is 0 if the handle is empty.
#[unsafe(no_mangle)]
pub extern "C" fn shardheap_raw_chunks(alloc: Global, heap: &mut HeapHandle) -> u64
    ensures { KnowsHeap HasChunks result heap.old.slot.value heap.new.slot.value }
{
    let Some(held) = heap.take(alloc) else {
        return 0;
    };
    let chunks = held.chunks();
    *heap = HeapHandle::of(held);
    chunks
}

// Takes a free pass of the heap, and puts it in a box.
fn next_pass(alloc: Global, heap: &HeldHeap) -> Result<Option<PassHandle>, Refusal>
    ensures { MatchResult result (λ taken. IfSome taken (λ pass. HasBegun heap.now pass.slot.value))
        (λ why. why ≡ Memory) }
{
    let Some(member) = heap.take(alloc)? else {
        return Ok(None);
    };
    match Box::new(alloc, member) {
        Ok(held) => Ok(Some(PassHandle::of(held))),
        Err(failed) => {
            // The pass goes back to its pool slot, so that it is not lost.
            drop(failed.value.return_to_pool());
            Err(Refusal::Memory)
        }
    }
}

/// Takes a free pass of the heap into an empty handle.
#[unsafe(no_mangle)]
pub extern "C" fn shardheap_raw_take(
    alloc: Global,
    heap: &mut HeapHandle,
    pass: &mut PassHandle,
) -> u32
    ensures { TakeTold result heap.old.slot.value heap.new.slot.value pass.old.slot.value pass.new.slot.value }
{
    if pass.is_full() {
        return OCCUPIED;
    }
    let Some(held) = heap.take(alloc) else {
        return EMPTY;
    };
    let next = next_pass(alloc, &held);
    *heap = HeapHandle::of(held);
    match next {
        Ok(Some(handle)) => {
            *pass = handle;
            OK
        }
        Ok(None) => NO_PASS,
        Err(refusal) => refusal.number(),
    }
}

// Gives the pass back, and leaves the handle empty. A pass that owns a shard stays as it is. A caller of a growing heap
// leaves its shards first, and stays in its handle if it has to wait.
fn leave_and_give_back(alloc: Global, pass: &mut PassHandle) -> u32
    ensures { GiveTold result pass.old.slot.value pass.new.slot.value }
{
    if !pass.is_full() {
        return EMPTY;
    }
    let answer = pass.held().leave_shards();
    match answer {
        Ok(()) => give_back(alloc, pass),
        Err(refusal) => refusal.number(),
    }
}

// Gives a pass back that let go, and leaves the handle empty. A pass that owns a shard stays as it is.
fn give_back(alloc: Global, pass: &mut PassHandle) -> u32
    ensures { GivesBack result pass.old.slot.value pass.new.slot.value }
{
    let Some(held) = pass.take(alloc) else {
        return EMPTY;
    };
    if held.owns_shard() {
        *pass = PassHandle::of(held);
        return OWNS;
    }
    match Box::into_inner(held).return_to_pool() {
        Ok(()) => OK,
        Err(member) => put_back(alloc, pass, member),
    }
}

/// Gives the pass back, and leaves the handle empty. A pass that owns a shard stays as it is.
#[unsafe(no_mangle)]
pub extern "C" fn shardheap_raw_give(alloc: Global, pass: &mut PassHandle) -> u32
    ensures { GiveTold result pass.old.slot.value pass.new.slot.value }
{
    leave_and_give_back(alloc, pass)
}

// Puts a pass whose pool slot is not free back into its handle. If memory for its box is refused, the pass is lost.
fn put_back(alloc: Global, pass: &mut PassHandle, member: HeldPass) -> u32
    requires { pass.old.slot.value ≡ None }
    ensures { IsPutBack member result pass.new.slot.value }
{
    match Box::new(alloc, member) {
        Ok(held) => {
            *pass = PassHandle::of(held);
            OCCUPIED
        }
        Err(failed) => {
            failed.value.lose();
            Refusal::Memory.number()
        }
    }
}

/// Closes the handle of a pass as a give does: it gives the pass back. A pass that owns a shard stays as it is.
#[unsafe(no_mangle)]
pub extern "C" fn shardheap_raw_pass_close(alloc: Global, pass: &mut PassHandle) -> u32
    ensures { GiveTold result pass.old.slot.value pass.new.slot.value }
{
    leave_and_give_back(alloc, pass)
}

/// Loses the pass, and leaves the handle empty. A shard that it owns stays owned for ever, and its holds stay.
#[unsafe(no_mangle)]
pub extern "C" fn shardheap_raw_pass_lose(alloc: Global, pass: &mut PassHandle) -> u32
    ensures { LoseTold result pass.old.slot.value pass.new.slot.value }
{
    match pass.take(alloc) {
        Some(held) => {
            Box::into_inner(held).lose();
            OK
        }
        None => EMPTY,
    }
}
