//! Types that keep a heap: by a borrow, or by a share.
ghost use Rattle.std.specs.Prelude.{◌≡◌};

use crate::heap::Heap;
use sh_key::KeyLayout;
use std::alloc::Global;
use std::sync::Arc;

/// A type that keeps a heap, and lends it.
pub trait KeepsHeap<L: KeyLayout>: Drop {
    ghost use Rattle.sh_table.specs.Seats.{Heap};

    ghost heap: { Self → Heap };

    /// The heap that it keeps.
    fn kept(&self) -> &Heap<L>
        ensures { result.now ≡ heap self.now };
}

impl<'a, L: KeyLayout> KeepsHeap<L> for &'a Heap<L> {
    ghost heap = { λ h. h.now };

    fn kept(&self) -> &Heap<L> {
        self
    }
}

impl<L: KeyLayout> KeepsHeap<L> for Arc<Heap<L>, Global> {
    ghost heap = { λ h. h.value };

    fn kept(&self) -> &Heap<L> {
        self
    }
}
