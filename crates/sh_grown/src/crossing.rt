//! Threads share a growing heap, and callers and receipts may go from one thread to another.
use crate::caller::Caller;
use crate::growing::Growing;
use crate::receipts::GrownReceipt;
use crate::share::GrowingShare;

fn shares<T: Send + Sync>(_shared: &T) {}

fn sends<T: Send>(_sent: &T) {}

/// Threads share a growing heap, by a `&` or by a share each.
pub fn growing_heaps_are_shared(growing: &Growing, share: &GrowingShare) {
    shares(growing);
    shares(share);
}

/// A caller goes to another thread, with all that it has in its chunks.
pub fn callers_are_sent(caller: &Caller) {
    sends(caller);
}

/// A receipt goes to another thread, with what it covers in each chunk.
pub fn receipts_are_sent(receipt: &GrownReceipt) {
    sends(receipt);
}
