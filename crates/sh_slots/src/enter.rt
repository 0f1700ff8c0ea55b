//! What a pass learns as it enters a slot.
ghost use Rattle.std.specs.Prelude.{◌≡◌};
ghost use Rattle.sh_slots.specs.Slots.{slot_ref_of, live_at, past_at, answer_to_get, after_enter_remove};

use crate::{Hand, KeyRef, SlotRef};
use sh_word::{Kind, State};

/// What a get returns as it enters a slot.
#[derive(Clone, Copy, Debug, PartialEq, Eq)]
pub enum GetAnswer {
    /// The value is there, and its key has room for a hold.
    Got,
    /// The value is there, and its key has as many holds as it may have.
    Crowded,
    /// The value is not there.
    Gone,
}

impl KeyRef {
    /// The slot.
    pub fn slot_ref(&self) -> SlotRef
        ensures { result ≡ slot_ref_of self.now }
    {
        SlotRef {
            page: self.page,
            slot: self.slot,
        }
    }
}

/// Whether the state word says that the slot has a live value of this generation.
pub fn is_live_at(generation: u32, word: u64) -> bool
    ensures { result ≡ live_at generation word }
{
    let state = State::of(word);
    state.kind() == Kind::Live && state.generation == generation
}

/// Whether the state word says that the slot's value of this generation was removed: the slot is marked in it, or is in
/// a later generation. A word that is neither live nor past comes before the value was there.
pub fn is_past_at(generation: u32, word: u64) -> bool
    ensures { result ≡ past_at generation word }
{
    let state = State::of(word);
    generation < state.generation || state.generation == generation && state.marked
}

/// What a get of a key of this generation returns, by the state word that it found as it entered. A key may have
/// `guard_max` holds.
pub fn answer_to_get(generation: u32, guard_max: u32, found: u64) -> GetAnswer
    ensures { result ≡ answer_to_get generation guard_max found }
{
    if !is_live_at(generation, found) {
        GetAnswer::Gone
    } else if State::of(found).count < guard_max {
        GetAnswer::Got
    } else {
        GetAnswer::Crowded
    }
}

/// What a removal of the key has in hand, by the state word that it found as it entered the key's slot. It continues if
/// the value is there, and otherwise leaves.
pub fn after_enter_remove(key: u64, name: KeyRef, found: u64) -> Hand
    ensures { result ≡ after_enter_remove key name found }
{
    if is_live_at(name.generation, found) {
        Hand::Removing(key)
    } else {
        Hand::Leaving(name.slot_ref())
    }
}
