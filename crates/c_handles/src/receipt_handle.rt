//! A receipt's handle.
ghost use Rattle.std.specs.Prelude.{◌≡◌, true, false};
ghost use Rattle.std.specs.Option.{MatchOption};
ghost use Rattle.std.specs.declared.option.Option.{Option};
ghost use Rattle.std.specs.declared.option.Option.TheVariants.{None, Some};
ghost use Rattle.c_handles.specs.declared.receipts.KeptReceipt.{KeptReceipt as Held};
ghost use Rattle.sh_nullable.specs.Owning.{has_value};
ghost use Rattle.c_handles.specs.ReceiptOwning.{receipt_owns, receipt_coded};

use crate::receipts::KeptReceipt;
use sh_nullable::NullableBox;
use std::alloc::Global;
use std::marker::Model;
use std::mem::replace;

/// A `NullableBox<KeptReceipt>` whose pointer has no type, since C knows no type behind it.
#[repr(C)]
#[derive(Drop)]
pub struct ReceiptSlot {
    at: *mut u8,
    alloc: Global,
    pub ghost value: { Option Held } by { receipt_coded },
}

impl Model for ReceiptSlot {
    ghost also_owns = { λ s. receipt_owns s.alloc s.at s.value };
}

impl ReceiptSlot {
    fn of_slot(slot: NullableBox<KeptReceipt, Global>) -> ReceiptSlot
        ensures { result.value ≡ slot.value }
    {
        let NullableBox { at, alloc } = slot;
        ReceiptSlot {
            at: at as *mut u8,
            alloc,
        }
    }

    fn into_slot(self) -> NullableBox<KeptReceipt, Global>
        ensures { result.value ≡ self.value }
    {
        let ReceiptSlot { at, alloc } = self;
        NullableBox {
            at: at as *mut KeptReceipt,
            alloc,
        }
    }
}

/// A receipt or nothing, as C holds it: zeroed bytes are a handle of nothing.
#[repr(C)]
#[derive(Drop)]
pub struct ReceiptHandle {
    pub(crate) slot: ReceiptSlot,
    pub(crate) full: bool,
    ghost told: { has_value slot.value ≡ full },
}

impl ReceiptHandle {
    /// A handle of nothing.
    pub fn empty(alloc: Global) -> ReceiptHandle
        ensures { result.slot.value ≡ None }
    {
        ReceiptHandle {
            slot: ReceiptSlot::of_slot(NullableBox::empty(alloc)),
            full: false,
        }
    }

    /// A handle of what the box owned.
    pub fn of(b: Box<KeptReceipt, Global>) -> ReceiptHandle
        ensures { result.slot.value ≡ Some b.value }
    {
        ReceiptHandle {
            slot: ReceiptSlot::of_slot(NullableBox::of(b)),
            full: true,
        }
    }

    /// Whether it holds something.
    pub fn is_full(&self) -> bool
        ensures { result ≡ has_value self.now.slot.value }
    {
        self.full
    }

    /// Takes the box out, if there is one.
    pub fn take(&mut self, alloc: Global) -> Option<Box<KeptReceipt, Global>>
        ensures gone { self.new.slot.value ≡ None }
        ensures value { MatchOption result (self.old.slot.value ≡ None) (λ b. self.old.slot.value ≡ Some b.value) }
    {
        let ReceiptHandle { slot, full } = replace(self, ReceiptHandle::empty(alloc));
        if full {
            Some(slot.into_slot().into_box())
        } else {
            None
        }
    }
}

// It may go to another thread, as a receipt may.
unsafe impl Send for ReceiptSlot {}

fn crosses<T: Send>(_value: &T) {}

/// C may pass a handle to another thread only since this is proved of its type.
pub fn receipt_crosses(handle: &ReceiptHandle) {
    crosses(handle);
}
