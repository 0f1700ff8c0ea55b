//! The text on a slot.
use crate::class_named::class_named;
use crate::lane::{push_target, slot_owed};
use crate::view::View;
use sh_shape::{Place, width};
use sh_slots::{Hand, SlotRef};
use sh_step::Part;
use sh_value::WORDS_MAX;
use sh_word::{Kind, State};
use std::alloc::{AllocError, Global};
use std::fmt::Write;

// How a kind is written.
fn kind_name(kind: Kind) -> &'static str {
    match kind {
        Kind::Empty => "Empty",
        Kind::Live => "Live",
        Kind::Marked => "Marked",
        Kind::Retired => "Retired",
    }
}

// Whether the pass has the empty slot in its hand.
fn is_in_hand(part: &Part, slot_ref: SlotRef) -> bool {
    match part.hand() {
        Hand::ToPut(slot) => slot_ref.is_same(slot),
        Hand::Filling(slot, _, _) => slot_ref.is_same(slot),
        _ => false,
    }
}

// Writes the words of the value in the slot.
fn push_value(out: &mut String, view: &View<'_>, slot_ref: SlotRef) -> Result<(), AllocError> {
    let width = match class_named(view.class_word(slot_ref.page)) {
        Some(class) => width(class),
        None => 0,
    };
    let length = view.word(Place::Length(slot_ref.page, slot_ref.slot));
    if length == 0 {
        return out.push_str("; the empty value");
    }
    out.push_str("; value")?;
    for number in 0..length.min(WORDS_MAX as u64) {
        let word = view.value_word(slot_ref, width, number);
        write!(out, " {word}")?;
    }
    Ok(())
}

// Writes the link of a slot that was put.
fn push_queued(out: &mut String, view: &View<'_>, slot_ref: SlotRef) -> Result<(), AllocError> {
    match slot_owed(view, slot_ref) {
        Some(owed) => {
            let pass = owed.pass;
            write!(out, "; queued, pass {pass} owes its link")?;
            push_target(out, "slot", owed.link)
        }
        None => {
            out.push_str("; queued, linked")?;
            push_target(out, "slot", view.link(slot_ref))
        }
    }
}

// Writes which pass has an empty slot.
fn push_whereabouts(
    out: &mut String,
    view: &View<'_>,
    slot_ref: SlotRef,
) -> Result<(), AllocError> {
    if let Some(pass) = view.parts.iter().position(|part| part.has_mine(slot_ref)) {
        return write!(out, "; own of pass {pass}");
    }
    if let Some(pass) = view
        .parts
        .iter()
        .position(|part| is_in_hand(part, slot_ref))
    {
        return write!(out, "; in the hand of pass {pass}");
    }
    push_queued(out, view, slot_ref)
}

/// The text of a slot of its page's class: its kind, its generation, the number of passes on it, and where it is or
/// what it has.
pub fn slot_text(alloc: Global, view: &View<'_>, slot_ref: SlotRef) -> Result<String, AllocError> {
    let state = State::of(view.state(slot_ref));
    let kind = state.kind();
    let name = kind_name(kind);
    let (generation, count) = (state.generation, state.count);
    let mut text = format!(in alloc; "{name}, generation {generation}, count {count}")?;
    match kind {
        Kind::Live | Kind::Marked => push_value(&mut text, view, slot_ref)?,
        Kind::Empty => push_whereabouts(&mut text, view, slot_ref)?,
        Kind::Retired => {}
    }
    Ok(text)
}
