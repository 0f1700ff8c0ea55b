//! What the heap of a handle has: its size and its layout. Of a growing heap the size is that of its open chunks.
ghost use Rattle.std.specs.Prelude.{◌≡◌};
ghost use Rattle.c_handles.specs.Heaps.{heap_of, layout_number, name_of};
ghost use Rattle.c_handles.specs.HeldHeaps.{HasBytes, HasCapacity, HasSize, layout_by};

use crate::heap::{AnyHeap, LayoutName};
use crate::held_heap::HeldHeap;
use sh_grown::HeapSize;
use sh_shape::Shape;

// The number that stands for the layout of growing heaps, after those of `LayoutName::numbered`.
const GROWING: u32 = 4;

impl LayoutName {
    /// The number of the layout, from 0 to 3: the same as in `numbered`.
    pub fn number(self) -> u32
        ensures { result ≡ layout_number self }
    {
        match self {
            LayoutName::Wide => 0,
            LayoutName::Tagged => 1,
            LayoutName::Deep => 2,
            LayoutName::Tiny => 3,
        }
    }
}

impl AnyHeap {
    // Its shape.
    fn shape(&self) -> &Shape
        ensures { result.now ≡ (heap_of self.now).shape }
    {
        match self {
            AnyHeap::Wide(share) => share.pool().shape(),
            AnyHeap::Tagged(share) => share.pool().shape(),
            AnyHeap::Deep(share) => share.pool().shape(),
            AnyHeap::Tiny(share) => share.pool().shape(),
        }
    }

    // The name of its layout.
    fn layout(&self) -> LayoutName
        ensures { result ≡ name_of self.now }
    {
        match self {
            AnyHeap::Wide(_) => LayoutName::Wide,
            AnyHeap::Tagged(_) => LayoutName::Tagged,
            AnyHeap::Deep(_) => LayoutName::Deep,
            AnyHeap::Tiny(_) => LayoutName::Tiny,
        }
    }
}

impl HeldHeap {
    // Its size.
    fn size(&self) -> HeapSize
        ensures { HasSize self.now result }
    {
        match self {
            HeldHeap::Fixed(heap) => HeapSize::of(heap.shape()),
            HeldHeap::Growing(growing) => growing.heap().size(),
        }
    }

    /// How many values of this many words its pages have slots for, if each page is for values of that length. It is 0
    /// for more than 16 words.
    pub fn capacity(&self, words: u32) -> u64
        ensures { HasCapacity words self.now result }
    {
        let size = self.size();
        size.capacity(words as usize)
    }

    /// How many bytes of memory its words take.
    pub fn bytes(&self) -> u64
        ensures { HasBytes self.now result }
    {
        let size = self.size();
        size.bytes()
    }

    /// The number of its layout, and 4 if it grows.
    pub fn layout(&self) -> u32
        ensures { result ≡ layout_by self.now }
    {
        match self {
            HeldHeap::Fixed(heap) => heap.layout().number(),
            HeldHeap::Growing(_) => GROWING,
        }
    }
}
