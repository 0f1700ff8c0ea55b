//! Receipts are made, heeded and closed.
use super::codes::{EMPTY, OCCUPIED, OK};
use super::{agree, ended, given, left, opened, owner, stored, taken};
use crate::passes::shardheap_raw_take;
use crate::receipts::{
    shardheap_raw_heed, shardheap_raw_receipt_close, shardheap_raw_receipt_make,
};
use c_handles::{HeapHandle, PassHandle, ReceiptHandle};
use std::alloc::Global;
use std::process::Abort;

#[test]
fn an_empty_handle_heeds_nothing(rt: HostRuntime) {
    let alloc = rt.alloc();
    let mut pass = PassHandle::empty(alloc);
    let mut receipt = ReceiptHandle::empty(alloc);
    agree(
        &rt,
        shardheap_raw_heed(alloc, &mut pass, &mut receipt),
        EMPTY,
    );
    agree(
        &rt,
        shardheap_raw_receipt_make(alloc, &mut pass, &mut receipt),
        EMPTY,
    );
    agree(&rt, receipt.is_full(), false);
    ended(alloc, pass);
}

// A receipt for no pass stays in its handle until that is closed.
fn is_kept(rt: &impl Abort, alloc: Global, receipt: &mut ReceiptHandle) {
    let mut none = PassHandle::empty(alloc);
    agree(rt, shardheap_raw_heed(alloc, &mut none, receipt), EMPTY);
    ended(alloc, none);
    agree(rt, receipt.is_full(), true);
    shardheap_raw_receipt_close(alloc, receipt);
    agree(rt, receipt.is_full(), false);
    shardheap_raw_receipt_close(alloc, receipt);
    agree(rt, receipt.is_full(), false);
}

// A pass heeds no receipt, and one of its own once.
#[tactic(auto, using(crate::proofs::Heeding::own_receipt))]
pub(crate) fn heeds_its_own(rt: &impl Abort, alloc: Global, pass: &mut PassHandle) {
    let mut receipt = ReceiptHandle::empty(alloc);
    agree(
        rt,
        shardheap_raw_receipt_make(alloc, pass, &mut receipt),
        OK,
    );
    agree(rt, shardheap_raw_heed(alloc, pass, &mut receipt), OK);
    agree(rt, receipt.is_full(), false);
    let mut none = ReceiptHandle::empty(alloc);
    agree(rt, shardheap_raw_heed(alloc, pass, &mut none), EMPTY);
}

// A full handle keeps its receipt.
pub(crate) fn makes(rt: &impl Abort, alloc: Global, pass: &mut PassHandle) {
    let mut receipt = ReceiptHandle::empty(alloc);
    agree(
        rt,
        shardheap_raw_receipt_make(alloc, pass, &mut receipt),
        OK,
    );
    agree(
        rt,
        shardheap_raw_receipt_make(alloc, pass, &mut receipt),
        OCCUPIED,
    );
    is_kept(rt, alloc, &mut receipt);
}

#[test]
fn a_receipt_is_made_and_heeded(rt: HostRuntime) {
    let alloc = rt.alloc();
    let mut heap = opened(&rt, alloc, 1, 1);
    let mut pass = owner(&rt, alloc, &mut heap, 0);
    stored(&rt, alloc, &mut pass, &[7]);
    makes(&rt, alloc, &mut pass);
    heeds_its_own(&rt, alloc, &mut pass);
    // It is still the owner.
    stored(&rt, alloc, &mut pass, &[8]);
    left(&rt, alloc, pass);
}

// A pass heeds the receipt of another pass of its heap, and the receipt is used up.
#[tactic(auto, using(crate::proofs::Heeding::other_receipt))]
pub(crate) fn heeds_another(rt: &impl Abort, alloc: Global, heap: &mut HeapHandle) {
    let mut one = PassHandle::empty(alloc);
    let mut other = PassHandle::empty(alloc);
    let mut receipt = ReceiptHandle::empty(alloc);
    agree(rt, shardheap_raw_take(alloc, heap, &mut one), OK);
    agree(rt, shardheap_raw_take(alloc, heap, &mut other), OK);
    agree(
        rt,
        shardheap_raw_receipt_make(alloc, &mut one, &mut receipt),
        OK,
    );
    agree(rt, shardheap_raw_heed(alloc, &mut other, &mut receipt), OK);
    agree(rt, receipt.is_full(), false);
    given(rt, alloc, one);
    given(rt, alloc, other);
}

#[test]
fn a_pass_heeds_another(rt: HostRuntime) {
    let alloc = rt.alloc();
    let mut heap = opened(&rt, alloc, 1, 2);
    heeds_another(&rt, alloc, &mut heap);
}
