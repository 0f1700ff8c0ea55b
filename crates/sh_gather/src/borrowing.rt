//! The whole of a heap that is borrowed.
use crate::view;
use sh_pass::Heap;

/// The heap, which it borrows, as the pass sees it that carries the tales of all passes.
pub type Whole<'a, L> = view::WholeOn<L, &'a Heap<L>>;
