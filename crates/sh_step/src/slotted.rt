//! The moves of actions on slots. A move is `None` if the action may not be done.
ghost use Rattle.std.specs.Prelude.{◌≡◌, ◌-◌, ◌&&◌, nat_lt, nat_le, length};
ghost use Rattle.sh_shape.specs.Classes.{width};
ghost use Rattle.sh_slots.specs.Slots.{same_slot};
ghost use Rattle.sh_step.specs.Plans.{plan_of};
ghost use Rattle.sh_step.specs.Collections.{has};
ghost use Rattle.sh_step.specs.Rows.{idle, own, class_word_noted};
ghost use Rattle.sh_step.specs.Moves.{move_of};

use crate::names::slot_of_name;
use crate::operands::width_of_word;
use crate::paged::may_touch;
use crate::{Action, Move, Part, SlotName};
use sh_key::KeyLayout;
use sh_shape::Shape;
use sh_slots::SlotRef;
use sh_value::Value;

// How many words the value has.
fn value_length(value: &Value) -> u64
    ensures { result ≡ length value.now }
{
    value.words().len() as u64
}

// Whether the pass may put the slot, which is its own.
fn may_put<L: KeyLayout>(shape: &Shape, part: &Part, slot_ref: SlotRef) -> bool
    ensures { result ≡ (idle part.now && own (plan_of L.layout shape.now) part.now slot_ref.page
        && has (same_slot slot_ref) part.now.mine) }
{
    may_touch::<L>(shape, part, slot_ref.page) && part.has_mine(slot_ref)
}

// Whether a value of this length fits a slot of this class word, which is not blank.
fn fits_class(length: u64, class_word: u64) -> bool
    ensures { result ≡ (nat_lt 0 class_word && nat_le length (width (class_word - 1))) }
{
    class_word > 0 && length <= width_of_word(class_word)
}

// Whether it may fill the slot, which is its own, with a value of this length.
fn may_fill<L: KeyLayout>(shape: &Shape, part: &Part, slot_ref: SlotRef, length: u64) -> bool
    ensures { result ≡ (idle part.now && own (plan_of L.layout shape.now) part.now slot_ref.page
        && has (same_slot slot_ref) part.now.mine && nat_lt 0 (class_word_noted part.now slot_ref.page) && nat_le length
        (width (class_word_noted part.now slot_ref.page - 1))) }
{
    may_put::<L>(shape, part, slot_ref) && fits_class(length, part.class_word(slot_ref.page))
}

/// The move that begins a filling.
#[tactic(auto, unfolding(crate::specs::Moves::move_of))]
pub fn fill_slot<L: KeyLayout>(
    shape: &Shape,
    part: &Part,
    name: SlotName,
    value: &Value,
) -> Option<Move>
    ensures { result ≡ move_of (plan_of L.layout shape.now) part.now (Action.FillSlot name value.now) }
{
    match slot_of_name::<L>(shape, name) {
        Some(slot_ref) => may_fill::<L>(shape, part, slot_ref, value_length(value)).then_some(
            Move::FillSlot(slot_ref, value.copy()),
        ),
        None => None,
    }
}

/// The move that puts a slot of the pass's own.
#[tactic(auto, unfolding(crate::specs::Moves::move_of))]
pub fn put_slot<L: KeyLayout>(shape: &Shape, part: &Part, name: SlotName) -> Option<Move>
    ensures { result ≡ move_of (plan_of L.layout shape.now) part.now (Action.PutSlot name) }
{
    match slot_of_name::<L>(shape, name) {
        Some(slot_ref) => may_put::<L>(shape, part, slot_ref).then_some(Move::PutSlot(slot_ref)),
        None => None,
    }
}

/// The move that loads the state of a slot.
#[tactic(auto, unfolding(crate::specs::Moves::move_of))]
pub fn peek<L: KeyLayout>(shape: &Shape, part: &Part, name: SlotName) -> Option<Move>
    ensures { result ≡ move_of (plan_of L.layout shape.now) part.now (Action.Peek name) }
{
    match slot_of_name::<L>(shape, name) {
        Some(slot_ref) => part.is_idle().then_some(Move::Peek(slot_ref)),
        None => None,
    }
}
