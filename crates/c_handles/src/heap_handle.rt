//! A heap's handle.
ghost use Rattle.std.specs.Prelude.{◌≡◌, true, false};
ghost use Rattle.std.specs.Option.{MatchOption};
ghost use Rattle.std.specs.declared.option.Option.{Option};
ghost use Rattle.std.specs.declared.option.Option.TheVariants.{None, Some};
ghost use Rattle.c_handles.specs.declared.held_heap.HeldHeap.{HeldHeap as Held};
ghost use Rattle.sh_nullable.specs.Owning.{has_value};
ghost use Rattle.c_handles.specs.HeapOwning.{heap_owns, heap_coded};

use crate::held_heap::HeldHeap;
use sh_nullable::NullableBox;
use std::alloc::Global;
use std::marker::Model;
use std::mem::replace;

/// A `NullableBox<HeldHeap>` whose pointer has no type, since C may not see a type that leads to an `Arc`.
#[repr(C)]
#[derive(Drop)]
pub struct HeapSlot {
    at: *mut u8,
    alloc: Global,
    pub ghost value: { Option Held } by { heap_coded },
}

impl Model for HeapSlot {
    ghost also_owns = { λ s. heap_owns s.alloc s.at s.value };
}

impl HeapSlot {
    fn of_slot(slot: NullableBox<HeldHeap, Global>) -> HeapSlot
        ensures { result.value ≡ slot.value }
    {
        let NullableBox { at, alloc } = slot;
        HeapSlot {
            at: at as *mut u8,
            alloc,
        }
    }

    fn into_slot(self) -> NullableBox<HeldHeap, Global>
        ensures { result.value ≡ self.value }
    {
        let HeapSlot { at, alloc } = self;
        NullableBox {
            at: at as *mut HeldHeap,
            alloc,
        }
    }
}

/// A heap or nothing, as C holds it: zeroed bytes are a handle of nothing.
#[repr(C)]
#[derive(Drop)]
pub struct HeapHandle {
    pub(crate) slot: HeapSlot,
    pub(crate) full: bool,
    ghost told: { has_value slot.value ≡ full },
}

impl HeapHandle {
    /// A handle of nothing.
    pub fn empty(alloc: Global) -> HeapHandle
        ensures { result.slot.value ≡ None }
    {
        HeapHandle {
            slot: HeapSlot::of_slot(NullableBox::empty(alloc)),
            full: false,
        }
    }

    /// A handle of what the box owned.
    pub fn of(b: Box<HeldHeap, Global>) -> HeapHandle
        ensures { result.slot.value ≡ Some b.value }
    {
        HeapHandle {
            slot: HeapSlot::of_slot(NullableBox::of(b)),
            full: true,
        }
    }

    /// Whether it holds something.
    pub fn is_full(&self) -> bool
        ensures { result ≡ has_value self.now.slot.value }
    {
        self.full
    }

    /// Takes the box out, if there is one.
    pub fn take(&mut self, alloc: Global) -> Option<Box<HeldHeap, Global>>
        ensures gone { self.new.slot.value ≡ None }
        ensures value { MatchOption result (self.old.slot.value ≡ None) (λ b. self.old.slot.value ≡ Some b.value) }
    {
        let HeapHandle { slot, full } = replace(self, HeapHandle::empty(alloc));
        if full {
            Some(slot.into_slot().into_box())
        } else {
            None
        }
    }
}

// It may go to another thread, as a heap may.
unsafe impl Send for HeapSlot {}

fn crosses<T: Send>(_value: &T) {}

/// C may pass a handle to another thread only since this is proved of its type.
pub fn heap_crosses(handle: &HeapHandle) {
    crosses(handle);
}
