//! The text on a pass: what it owns, what it has begun, and what it holds.
use crate::lane::push_target;
use crate::view::View;
use sh_history::Entry;
use sh_slots::{Hand, SlotRef};
use sh_step::Part;
use sh_step::operands::is_read;
use std::alloc::AllocError;
use std::fmt::Write;

// Writes the name of a slot.
fn push_slot(out: &mut String, view: &View<'_>, slot_ref: SlotRef) -> Result<(), AllocError> {
    let (shard, page) = (view.shard_of(slot_ref.page), view.local_of(slot_ref.page));
    let slot = slot_ref.slot;
    write!(out, "slot {shard}.{page}.{slot}")
}

// Writes the name of a page.
fn push_page_name(out: &mut String, view: &View<'_>, page: u64) -> Result<(), AllocError> {
    let (shard, page) = (view.shard_of(page), view.local_of(page));
    write!(out, "page {shard}.{page}")
}

// Writes what a pass has begun, with the event that continues it.
fn push_hand(out: &mut String, view: &View<'_>, hand: &Hand) -> Result<(), AllocError> {
    match hand {
        Hand::Idle => out.push_str("idle"),
        Hand::Removing(key) => {
            let key = view.key(*key);
            write!(out, "removes {key}, next Mark")
        }
        Hand::Leaving(slot_ref) => {
            out.push_str("leaves ")?;
            push_slot(out, view, *slot_ref)?;
            out.push_str(", next Drop")
        }
        Hand::Finishing(slot_ref, generation, _) => {
            write!(out, "ends generation {generation} of ")?;
            push_slot(out, view, *slot_ref)?;
            out.push_str(", next Finish")
        }
        Hand::ToPut(slot_ref) => {
            out.push_str("has ")?;
            push_slot(out, view, *slot_ref)?;
            out.push_str(" to put, next Put")
        }
        Hand::Tying(slot_ref, link, rings) => {
            out.push_str("ties ")?;
            push_slot(out, view, *slot_ref)?;
            push_target(out, "slot", *link)?;
            out.push_str(if *rings {
                ", next Tie and then Ring"
            } else {
                ", next Tie"
            })
        }
        Hand::Ringing(page) => {
            out.push_str("rings for ")?;
            push_page_name(out, view, *page)?;
            out.push_str(", next Ring")
        }
        Hand::RingTying(page, link) => {
            out.push_str("ties ")?;
            push_page_name(out, view, *page)?;
            push_target(out, "page", *link)?;
            out.push_str(", next RingTie")
        }
        Hand::Filling(slot_ref, value, done) => {
            out.push_str("fills ")?;
            push_slot(out, view, *slot_ref)?;
            let words = value.words().len() as u64;
            let next = if *done < words { "Fill" } else { "Publish" };
            write!(out, " with {done} of {words} words, next {next}")
        }
        Hand::Looking(key, name, sight) => {
            let key = view.key(*key);
            let next = if is_read(*name, sight) {
                "LookAgain"
            } else {
                "LookOn"
            };
            write!(out, "looks at {key}, next {next}")
        }
    }
}

// The key of a get by this pass.
fn key_got(entry: &Entry, pass: u32) -> Option<u64> {
    match entry {
        Entry::Got(by, key, _) if *by == pass => Some(*key),
        _ => None,
    }
}

fn is_release(entry: &Entry, pass: u32, key: u64) -> bool {
    match entry {
        Entry::Released(by, released) => *by == pass && *released == key,
        _ => false,
    }
}

// The number of holds that the pass has on the key.
fn holds_on(view: &View<'_>, pass: u32, key: u64) -> usize {
    let got = view
        .log
        .iter()
        .filter(|entry| key_got(entry, pass) == Some(key))
        .count();
    let released = view
        .log
        .iter()
        .filter(|entry| is_release(entry, pass, key))
        .count();
    got.saturating_sub(released)
}

// Whether this entry is the first get of the key by the pass.
fn is_first_got(view: &View<'_>, pass: u32, key: u64, at: usize) -> bool {
    view.log
        .iter()
        .position(|entry| key_got(entry, pass) == Some(key))
        == Some(at)
}

// Writes the key once for each hold of the pass on it.
fn push_hold(
    out: &mut String,
    view: &View<'_>,
    pass: u32,
    part: &Part,
    key: u64,
) -> Result<(), AllocError> {
    if !part.has_hold(key) {
        return Ok(());
    }
    let (times, key) = (holds_on(view, pass, key), view.key(key));
    match times {
        1 => write!(out, "; holds {key}"),
        _ => write!(out, "; holds {key} {times} times"),
    }
}

// Writes the keys that the pass holds, in the order of its first gets.
fn push_holds(out: &mut String, view: &View<'_>, pass: u32, part: &Part) -> Result<(), AllocError> {
    let mut at = 0;
    for entry in view.log {
        if let Some(key) = key_got(entry, pass) {
            if is_first_got(view, pass, key, at) {
                push_hold(out, view, pass, part, key)?;
            }
        }
        at = at.saturating_add(1);
    }
    Ok(())
}

// Whether there is something to write about a pass.
fn is_busy(part: &Part) -> bool {
    !part.is_idle() || part.owned().is_some() || part.hold_count() > 0
}

fn push_pass(out: &mut String, view: &View<'_>, pass: u32, part: &Part) -> Result<(), AllocError> {
    write!(out, "  pass {pass}: ")?;
    push_hand(out, view, part.hand())?;
    if let Some(shard) = part.owned() {
        write!(out, "; owns shard {shard}")?;
    }
    push_holds(out, view, pass, part)?;
    out.push_str("\n")
}

/// Writes a line for each pass that has begun something, owns a shard or holds a key.
pub fn push_passes(out: &mut String, view: &View<'_>) -> Result<(), AllocError> {
    let mut pass: u32 = 0;
    for part in view.parts {
        if is_busy(part) {
            push_pass(out, view, pass, part)?;
        }
        pass = pass.saturating_add(1);
    }
    Ok(())
}
