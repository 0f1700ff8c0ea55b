//! The slots that are a pass's own to fill.
ghost use Rattle.std.specs.Prelude.{◌≡◌, ◌==◌, ◌∷◌, ◌++◌, ◌≤◌, [], length, IfErr, IsOk, OnOk, OnErr};
ghost use Rattle.sh_shape.specs.Places.{slot_places};
ghost use Rattle.sh_slots.specs.Slots.{same_slot, slot_refs};
ghost use Rattle.sh_step.specs.Collections.{has, without, off, every};

use crate::part::lists::{make_room, put_first, put_in_room};
use crate::part::notes::Notes;
use crate::part::run::{Run, run_of_page, run_of_slot};
use crate::part::runs::{forget_page, has_no_slot, has_slot, has_slots, remove_slot};
use sh_slots::SlotRef;
use sh_value::Refusal;
use std::alloc::Global;
use std::collections::VecDeque;
use std::marker::Model;

/// Own slots, the newest first. They are kept in runs, so that a page whose slots are all own is one run, and a call
/// looks at a run and not at each slot.
#[derive(Drop)]
pub struct OwnSlots {
    runs: VecDeque<Run>,
}

impl Model for OwnSlots {
    ghost use Rattle.std.specs.Prelude.{List};
    ghost use Rattle.sh_slots.specs.declared.hand.SlotRef.{SlotRef};
    ghost use Rattle.sh_step.specs.Runs.{slots_in};

    ghost Value = { List SlotRef };

    ghost view = { λ o. slots_in o.runs.items };
}

impl OwnSlots {
    /// No slot.
    pub fn new(alloc: Global) -> Self
        ensures { result ≡ [] }
    {
        OwnSlots {
            runs: VecDeque::new(alloc),
        }
    }

    /// Whether the slot is there.
    pub fn has(&self, slot_ref: SlotRef) -> bool
        ensures { result ≡ has (same_slot slot_ref) self.now }
    {
        has_slot(&self.runs, slot_ref)
    }

    /// Whether the first `count` slots of a page are all there.
    pub fn has_first(&self, page: u64, count: u64) -> bool
        requires { count ≤ slot_places }
        ensures { result ≡ every (λ x. has (same_slot x) self.now) (slot_refs page 0 count) }
    {
        has_slots(&self.runs, page, count)
    }

    /// Whether no slot is there.
    pub fn is_empty(&self) -> bool
        ensures { result ≡ (length self.now == 0) }
    {
        has_no_slot(&self.runs)
    }

    /// Puts the slot first. If memory is refused, all stays as it is.
    pub fn put(&mut self, slot_ref: SlotRef) -> Result<(), Refusal>
        ensures ok { OnOk result (self.new ≡ slot_ref ∷ self.old) }
        ensures err { OnErr result (self.new ≡ self.old) }
        ensures memory { IfErr result (λ refusal. refusal ≡ Refusal.Memory) }
    {
        put_first(&mut self.runs, run_of_slot(slot_ref))?;
        Ok(())
    }

    /// Takes the slot out once, if it is there.
    pub fn remove(&mut self, slot_ref: SlotRef)
        ensures { self.new ≡ without (same_slot slot_ref) self.old }
    {
        remove_slot(&mut self.runs, slot_ref);
    }

    /// Takes all slots out.
    pub fn clear(&mut self)
        ensures { self.new ≡ [] }
    {
        self.runs.clear();
    }

    /// Notes the class word of a page that is given a class. Of the page's slots exactly the first `count` are then
    /// there, before those of other pages. If memory is refused, all stays as it is.
    pub fn set_class(
        &mut self,
        page: u64,
        count: u64,
        classes: &mut Notes,
        word: u64,
    ) -> Result<(), Refusal>
        requires { count ≤ slot_places }
        ensures slots { OnOk result (self.new ≡ slot_refs page 0 count ++ off (λ x. x.page == page) self.old) }
        ensures noted { OnOk result (classes.new ≡ (page, word) ∷ classes.old) }
        ensures err { OnErr result (self.new ≡ self.old) }
        ensures unnoted { OnErr result (classes.new ≡ classes.old) }
        ensures memory { IfErr result (λ refusal. refusal ≡ Refusal.Memory) }
    {
        make_room(&mut self.runs, 1)?;
        classes.put(page, word)?;
        forget_page(&mut self.runs, page);
        put_in_room(&mut self.runs, run_of_page(page, count));
        Ok(())
    }
}
