//! The entry of a reply, with the value in the slot if it is got.
ghost use Rattle.std.specs.Prelude.{ℕ, ◌≡◌, length};
ghost use Rattle.sh_shape.specs.Places.{IsPlace, words_of};
ghost use Rattle.sh_slots.specs.declared.reply.Reply.TheVariants.{Got};
ghost use Rattle.sh_core.specs.Worlds.{entry};
ghost use Rattle.sh_core.specs.Kept.{word_at, SlotHasValue, value_in, KeepsValue, value_kept};

use sh_history::Entry;
use sh_shape::{Place, Shape, classes};
use sh_slots::{Reply, SlotRef};
use sh_value::Value;

/// The word at a place.
pub fn word_at(shape: &Shape, words: &[u64], place: Place) -> u64
    requires place { IsPlace shape.now place }
    requires count { length words.now ≡ words_of shape.now }
    ensures { result ≡ word_at shape.now words.now place }
{
    words[shape.index(place)]
}

// The value in a slot.
#[tactic(auto, using(crate::proofs::Words::KeptValues::value_rows))]
fn value_in(shape: &Shape, words: &[u64], slot_ref: SlotRef) -> Value
    requires count { length words.now ≡ words_of shape.now }
    requires value { SlotHasValue shape.now words.now slot_ref }
    ensures { result ≡ value_in shape.now words.now slot_ref }
{
    let class = word_at(shape, words, Place::Class(slot_ref.page)) - 1;
    let length = word_at(shape, words, Place::Length(slot_ref.page, slot_ref.slot));
    let first = slot_ref.slot * u64::from(classes::width(class as u32));
    let start = shape.index(Place::Payload(slot_ref.page, first));
    match Value::new(&words[start..start + length as usize]) {
        Ok(value) => value,
        Err(_) => unreachable!(),
    }
}

// The value in the slot of a state word.
fn value_kept(shape: &Shape, words: &[u64], place: Place) -> Value
    requires count { length words.now ≡ words_of shape.now }
    requires value { KeepsValue shape.now words.now place }
    ensures { result ≡ value_kept shape.now words.now place }
{
    match place {
        Place::State(page, slot) => value_in(shape, words, SlotRef { page, slot }),
        _ => unreachable!(),
    }
}

/// The entry of a reply to a pass for a step on the word at a place.
pub fn entry(shape: &Shape, words: &[u64], pass: u32, place: Place, reply: Reply) -> Entry
    requires count { length words.now ≡ words_of shape.now }
    requires gets { (k : ℕ) → reply ≡ Got k → KeepsValue shape.now words.now place }
    ensures { result ≡ entry pass (value_kept shape.now words.now place) reply }
{
    match reply {
        Reply::Insert(key, value) => Entry::Insert(pass, key, value),
        Reply::Got(key) => Entry::Got(pass, key, value_kept(shape, words, place)),
        Reply::Gone(key) => Entry::Gone(pass, key),
        Reply::Crowded(key) => Entry::Crowded(pass, key),
        Reply::Removed(key) => Entry::Removed(pass, key),
        Reply::Released(key) => Entry::Released(pass, key),
        Reply::Seen(key, value) => Entry::Seen(pass, key, value),
    }
}
