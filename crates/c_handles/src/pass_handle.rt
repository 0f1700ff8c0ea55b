//! A pass's handle.
ghost use Rattle.std.specs.Prelude.{◌≡◌, true, false};
ghost use Rattle.std.specs.Option.{MatchOption};
ghost use Rattle.std.specs.declared.option.Option.{Option};
ghost use Rattle.std.specs.declared.option.Option.TheVariants.{None, Some};
ghost use Rattle.c_handles.specs.declared.held_pass.HeldPass.{HeldPass as Held};
ghost use Rattle.sh_nullable.specs.Owning.{has_value};
ghost use Rattle.c_handles.specs.PassOwning.{pass_owns, pass_coded};

use crate::held_pass::HeldPass;
use sh_nullable::NullableBox;
use std::alloc::Global;
use std::marker::Model;
use std::mem::replace;

/// A `NullableBox<HeldPass>` whose pointer has no type, since C may not see a type that leads to an `Arc`.
#[repr(C)]
#[derive(Drop)]
pub struct PassSlot {
    at: *mut u8,
    alloc: Global,
    pub ghost value: { Option Held } by { pass_coded },
}

impl Model for PassSlot {
    ghost also_owns = { λ s. pass_owns s.alloc s.at s.value };
}

impl PassSlot {
    fn of_slot(slot: NullableBox<HeldPass, Global>) -> PassSlot
        ensures { result.value ≡ slot.value }
    {
        let NullableBox { at, alloc } = slot;
        PassSlot {
            at: at as *mut u8,
            alloc,
        }
    }

    fn into_slot(self) -> NullableBox<HeldPass, Global>
        ensures { result.value ≡ self.value }
    {
        let PassSlot { at, alloc } = self;
        NullableBox {
            at: at as *mut HeldPass,
            alloc,
        }
    }

    ghost use Rattle.std.specs.Borrow.{sem};
    ghost use Rattle.c_handles.specs.PassLending.{LendsPass};

    // What it owns, in place. (Its proof is a file of `proofs/`.)
    #[inline(always)]
    fn in_place(&mut self) -> &mut HeldPass
        requires { has_value self.old.value ≡ true }
        ensures* writes_back { sem 𝓛 (LendsPass self.entry result) }
        ensures value { self.old.value ≡ Some result.now }
    {
        unsafe { &mut *(self.at as *mut HeldPass) }
    }
}

/// A pass or nothing, as C holds it: zeroed bytes are a handle of nothing.
///
/// Only an empty handle is dropped or overwritten: a pass is first taken out, and then given back or lost.
#[repr(C)]
pub struct PassHandle {
    pub(crate) slot: PassSlot,
    pub(crate) full: bool,
    ghost told: { has_value slot.value ≡ full },
}

impl Drop for PassHandle {
    fn drop(self)
        requires { self.slot.value ≡ None }
    {
        let PassHandle { slot: _, full: _ } = self;
    }
}

impl PassHandle {
    ghost use Rattle.std.specs.Borrow.{sem};
    ghost use Rattle.c_handles.specs.PassLending.{LendsHeld};

    /// A handle of nothing.
    pub fn empty(alloc: Global) -> PassHandle
        ensures { result.slot.value ≡ None }
    {
        PassHandle {
            slot: PassSlot::of_slot(NullableBox::empty(alloc)),
            full: false,
        }
    }

    /// A handle of what the box owned.
    pub fn of(b: Box<HeldPass, Global>) -> PassHandle
        ensures { result.slot.value ≡ Some b.value }
    {
        PassHandle {
            slot: PassSlot::of_slot(NullableBox::of(b)),
            full: true,
        }
    }

    /// Whether it holds something.
    pub fn is_full(&self) -> bool
        ensures { result ≡ has_value self.now.slot.value }
    {
        self.full
    }

    /// The pass of a full handle, in place.
    #[inline(always)]
    pub fn held(&mut self) -> &mut HeldPass
        requires { has_value self.old.slot.value ≡ true }
        ensures* writes_back { sem 𝓛 (LendsHeld self.entry result) }
        ensures value { self.old.slot.value ≡ Some result.now }
    {
        self.slot.in_place()
    }

    /// Takes the box out, if there is one.
    pub fn take(&mut self, alloc: Global) -> Option<Box<HeldPass, Global>>
        ensures gone { self.new.slot.value ≡ None }
        ensures value { MatchOption result (self.old.slot.value ≡ None) (λ b. self.old.slot.value ≡ Some b.value) }
    {
        replace(self, PassHandle::empty(alloc)).into_box()
    }

    // The box, if there is one.
    fn into_box(self) -> Option<Box<HeldPass, Global>>
        ensures { MatchOption result (self.slot.value ≡ None) (λ b. self.slot.value ≡ Some b.value) }
    {
        let PassHandle { slot, full } = self;
        if full {
            Some(slot.into_slot().into_box())
        } else {
            None
        }
    }
}

// It may go to another thread, as a pass may.
unsafe impl Send for PassSlot {}

fn crosses<T: Send>(_value: &T) {}

/// C may pass a handle to another thread only since this is proved of its type.
pub fn pass_crosses(handle: &PassHandle) {
    crosses(handle);
}
