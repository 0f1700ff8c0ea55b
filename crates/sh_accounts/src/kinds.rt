//! What one slot of a page's class is.
ghost use Rattle.std.specs.Prelude.{◌≡◌};
ghost use Rattle.std.specs.List.{list_any};
ghost use Rattle.sh_word.specs.Fields.{fields_of};
ghost use Rattle.sh_word.specs.Kinds.{kind_of};
ghost use Rattle.sh_slots.specs.Slots.{same_slot};
ghost use Rattle.sh_step.specs.Collections.{has};
ghost use Rattle.sh_accounts.specs.Kinds.{has_in_hand, empty_kind, slot_kind_by};

use sh_slots::{Hand, SlotRef};
use sh_step::Part;
use sh_word::{Kind, State};

/// What one slot of a page's class is.
#[derive(Clone, Copy, Debug, PartialEq, Eq)]
pub enum SlotKind {
    /// It has a value that can be got.
    Live,
    /// It has a value that was removed and is still held, or being left.
    Marked,
    /// It has no generation left.
    Retired,
    /// It is empty, and the owner's to fill.
    Mine,
    /// It is empty, in the hand of one pass.
    Hand,
    /// It is empty, put on the page and not taken back yet.
    Queued,
}

// Whether the pass has the empty slot in its hand: it has yet to put it, or it fills it.
fn is_in_hand(part: &Part, slot_ref: SlotRef) -> bool
    ensures { result ≡ has_in_hand slot_ref part.now }
{
    match part.hand() {
        Hand::ToPut(slot) => slot_ref.is_same(slot),
        Hand::Filling(slot, _, _) => slot_ref.is_same(slot),
        _ => false,
    }
}

// Whether the empty slot is the own one of some pass.
fn is_mine(parts: &[Part], slot_ref: SlotRef) -> bool
    ensures { result ≡ list_any (λ p. has (same_slot slot_ref) p.mine) parts.now }
{
    parts.iter().any(|part| part.has_mine(slot_ref))
}

// Whether the empty slot is in the hand of some pass.
fn is_in_a_hand(parts: &[Part], slot_ref: SlotRef) -> bool
    ensures { result ≡ list_any (has_in_hand slot_ref) parts.now }
{
    parts.iter().any(|part| is_in_hand(part, slot_ref))
}

// What an empty slot of a page's class is. If no pass has it, it is queued: no list says so.
#[tactic(auto, unfolding(crate::specs::Kinds::empty_kind))]
fn empty_kind(parts: &[Part], slot_ref: SlotRef) -> SlotKind
    ensures { result ≡ empty_kind parts.now slot_ref }
{
    if is_mine(parts, slot_ref) {
        SlotKind::Mine
    } else if is_in_a_hand(parts, slot_ref) {
        SlotKind::Hand
    } else {
        SlotKind::Queued
    }
}

/// What a slot of a page's class is, by its state word and what the passes have of their own.
pub fn slot_kind(word: u64, parts: &[Part], slot_ref: SlotRef) -> SlotKind
    ensures { result ≡ slot_kind_by (kind_of (fields_of word)) parts.now slot_ref }
{
    match State::of(word).kind() {
        Kind::Live => SlotKind::Live,
        Kind::Marked => SlotKind::Marked,
        Kind::Retired => SlotKind::Retired,
        Kind::Empty => empty_kind(parts, slot_ref),
    }
}
