//! Passes and owners that borrow their heap.
use crate::heap::Heap;
use crate::{busy, owner, pass};

/// One caller's right to use a heap, which it borrows. It may go to another thread.
pub type Pass<'a, L> = pass::PassOn<L, &'a Heap<L>>;

/// A pass that may own a shard, on a heap that it borrows.
pub type Owner<'a, L> = owner::OwnerOn<L, &'a Heap<L>>;

/// A pass that is driven step by step, on a heap that it borrows.
pub type Busy<'a, L> = busy::BusyOn<L, &'a Heap<L>>;
