//! How a value leaves its slot: the first mark removes it, and the last pass on the slot ends its generation.
ghost use Rattle.std.specs.Prelude.{◌≡◌, ◌+◌, ◌^◌, ◌<◌, ◌≢◌};
ghost use Rattle.sh_slots.specs.Slots.{is_first_mark, after_drop, marked_word, reusable_word, retired_word};
ghost use Rattle.sh_slots.specs.Slots.{finished_word, is_reusable_after};

use crate::{Hand, Sight, SlotRef};
use sh_word::{Kind, State};

/// Whether a mark that found this state word decides: it is the first mark of the slot.
pub fn is_first_mark(found: u64) -> bool
    ensures { result ≡ is_first_mark found }
{
    !State::of(found).marked
}

/// What a pass has in hand after it gave back its count on the slot, by the state word that it found. If the slot is
/// marked and the count was the last one, the pass has to end the generation. It has read nothing of the value yet.
pub fn after_drop(slot_ref: SlotRef, found: u64) -> Hand
    ensures { result ≡ after_drop slot_ref found }
{
    let state = State::of(found);
    if state.kind() == Kind::Marked && state.count == 1 {
        Hand::Finishing(slot_ref, state.generation, Sight::Bare)
    } else {
        Hand::Idle
    }
}

/// The state word of a marked slot of this generation that no pass is on.
pub fn marked_word(generation: u32) -> u64
    ensures { result ≡ marked_word generation }
{
    State::new(Kind::Marked, generation, 0).word()
}

/// The state word of an empty slot whose generation, not the last one, has ended: it is in the next one.
pub fn reusable_word(generation: u32) -> u64
    requires { generation + 1 < 2 ^ 32 }
    ensures { result ≡ reusable_word generation }
{
    State::new(Kind::Empty, generation + 1, 0).word()
}

/// The state word of a slot whose last generation has ended.
pub fn retired_word(generation: u32) -> u64
    ensures { result ≡ retired_word generation }
{
    State::new(Kind::Retired, generation, 0).word()
}

/// The state word that the end of a generation puts in place of the marked word; `gen_max` is the last generation.
pub fn finished_word(generation: u32, gen_max: u32) -> u64
    requires { generation ≢ gen_max → generation + 1 < 2 ^ 32 }
    ensures { result ≡ finished_word generation gen_max }
{
    if generation == gen_max {
        retired_word(generation)
    } else {
        reusable_word(generation)
    }
}

/// Whether a pass that went to end this generation has the slot, empty and in the next generation. It does if it found
/// the word as it left it, and the generation is not `gen_max`, the last one.
pub fn is_reusable_after(generation: u32, gen_max: u32, found: u64) -> bool
    ensures { result ≡ is_reusable_after generation gen_max found }
{
    found == marked_word(generation) && generation != gen_max
}
