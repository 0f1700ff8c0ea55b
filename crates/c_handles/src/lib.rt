//! Handles: a heap, a pass or a receipt by its address, of any layout, for callers in other languages.
//!
//! A heap's layout is chosen when it is opened, or it is one that grows, so what a handle owns is of one of several
//! types. Each call finds out which, and then calls the function of the heap's own crates.
#![tactic(auto)]

mod accounts;
mod calls;
mod counting;
pub mod heap;
pub mod heap_handle;
pub mod held_heap;
pub mod held_pass;
mod held_whole;
mod keys;
mod moving;
mod own_keys;
mod owner;
pub mod pass_handle;
pub mod receipt_handle;
pub mod receipts;
mod sizes;
mod taking;
mod telling;
mod walking;
mod warming;

pub use heap::AnyHeap;
pub use heap_handle::HeapHandle;
pub use held_heap::HeldHeap;
pub use held_pass::HeldPass;
pub use pass_handle::PassHandle;
pub use receipt_handle::ReceiptHandle;
pub use receipts::KeptReceipt;
