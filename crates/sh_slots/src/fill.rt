//! How a value gets into its slot.
ghost use Rattle.std.specs.Prelude.{◌≡◌};
ghost use Rattle.sh_slots.specs.Slots.{name_at, same_slot, published_name};

use crate::{KeyRef, SlotRef};
use sh_word::State;

impl SlotRef {
    /// What a key of this generation names.
    pub fn name(&self, generation: u32) -> KeyRef
        ensures { result ≡ name_at self.now generation }
    {
        KeyRef {
            page: self.page,
            slot: self.slot,
            generation,
        }
    }

    /// Whether they are one slot.
    pub fn is_same(&self, other: &SlotRef) -> bool
        ensures { result ≡ same_slot self.now other.now }
    {
        self.page == other.page && self.slot == other.slot
    }
}

/// The name of the key under which a value becomes present in the slot, by the state word found: the slot, in the
/// word's generation.
pub fn published_name(slot_ref: SlotRef, found: u64) -> KeyRef
    ensures { result ≡ published_name slot_ref found }
{
    slot_ref.name(State::of(found).generation)
}
