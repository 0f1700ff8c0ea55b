//! Receipts: the calls of one pass happen before the later calls of another.
ghost use Rattle.std.specs.Prelude.{◌≡◌, None};
ghost use Rattle.c_handles.specs.HeldPasses.{HeldHeeds, IsOfHeldHeap};
ghost use Rattle.c_exports.specs.Receipts.{AreOfOneHeap, HeedTold, ReceiptTold};

use crate::codes::{EMPTY, OCCUPIED, OK, code};
use c_handles::{HeldPass, KeptReceipt, PassHandle, ReceiptHandle};
use sh_value::Refusal;
use std::alloc::Global;

/// Makes a receipt of all calls of the pass until now, in an empty handle.
#[unsafe(no_mangle)]
pub extern "C" fn shardheap_raw_receipt_make(
    alloc: Global,
    pass: &mut PassHandle,
    receipt: &mut ReceiptHandle,
) -> u32
    ensures { ReceiptTold result pass.old.slot.value pass.new.slot.value receipt.old.slot.value
        receipt.new.slot.value }
{
    if receipt.is_full() {
        return OCCUPIED;
    }
    if !pass.is_full() {
        return EMPTY;
    }
    let made = pass.held().receipt();
    match Box::new(alloc, made) {
        Ok(kept) => {
            *receipt = ReceiptHandle::of(kept);
            OK
        }
        Err(_) => Refusal::Memory.number(),
    }
}

// The pass heeds the receipt that was in the box.
fn heed_kept(pass: &mut HeldPass, kept: Box<KeptReceipt, Global>) -> Result<(), Refusal>
    requires { IsOfHeldHeap pass.old kept.value }
    ensures { HeldHeeds kept.value pass.old result pass.new }
{
    pass.heed(Box::into_inner(kept))
}

/// Heeds a receipt of the same heap, and leaves its handle empty: all that it covers happens before the next calls of
/// the pass. A pass of a growing heap is refused as `Taken` if it has no pass in a chunk of the receipt, which no call
/// brings about.
#[unsafe(no_mangle)]
pub extern "C" fn shardheap_raw_heed(
    alloc: Global,
    pass: &mut PassHandle,
    receipt: &mut ReceiptHandle,
) -> u32
    requires { AreOfOneHeap pass.old.slot.value receipt.old.slot.value }
    ensures { HeedTold result pass.old.slot.value pass.new.slot.value receipt.old.slot.value receipt.new.slot.value }
{
    if !pass.is_full() {
        return EMPTY;
    }
    let Some(kept) = receipt.take(alloc) else {
        return EMPTY;
    };
    let answer = heed_kept(pass.held(), kept);
    code(&answer)
}

/// Drops the receipt, and leaves the handle empty. A receipt that is not heeded orders nothing.
#[unsafe(no_mangle)]
pub extern "C" fn shardheap_raw_receipt_close(alloc: Global, receipt: &mut ReceiptHandle)
    ensures { receipt.new.slot.value ≡ None }
{
    drop(receipt.take(alloc));
}
