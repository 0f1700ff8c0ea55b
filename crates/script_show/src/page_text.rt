//! The text on a page.
ghost use Rattle.std.specs.Prelude.{◌<◌, IfSome};
ghost use Rattle.sh_shape.specs.Classes.{class_count};

use crate::class_named::class_named;
use crate::lane::{Lane, push_lane};
use crate::slot_text::slot_text;
use crate::view::View;
use sh_bell::{is_armed, top_of};
use sh_shape::{slots, width};
use sh_slots::SlotRef;
use sh_stack::top_item;
use std::alloc::{AllocError, Global};
use std::fmt::Write;

// Writes the class of a page, which is blank if it has none.
fn push_class(out: &mut String, class: Option<u32>) -> Result<(), AllocError>
    requires { IfSome class (λ class. class < class_count) }
{
    match class {
        Some(class) => {
            let (slots, width) = (slots(class), width(class));
            write!(out, "class {class}, {slots} slots of {width}")
        }
        None => out.push_str("blank"),
    }
}

// Writes which pass owns the page's shard, and whether that pass has noted the page's class.
fn push_owner(out: &mut String, view: &View<'_>, page: u64) -> Result<(), AllocError> {
    let Some(pass) = view.owner_of(view.shard_of(page)) else {
        return out.push_str("; left");
    };
    write!(out, "; owner pass {pass}")?;
    match view.parts.get(pass) {
        Some(part) if part.class_noted(page).is_none() => out.push_str(", class not noted"),
        _ => Ok(()),
    }
}

// Writes whether the page is armed: by its flag, and by what its owner knows.
fn push_armed(out: &mut String, view: &View<'_>, page: u64) -> Result<(), AllocError> {
    if is_armed(view.head(page)) {
        return out.push_str("; armed\n");
    }
    if view.parts.iter().any(|part| part.has_armed(page)) {
        return out.push_str("; armed, the flag was taken\n");
    }
    out.push_str("; not armed\n")
}

// Writes the line of slots that are alike.
fn push_run(out: &mut String, first: u32, last: u32, text: &str) -> Result<(), AllocError> {
    if first == last {
        writeln!(out, "    slot {first}: {text}")
    } else {
        writeln!(out, "    slots {first} to {last}: {text}")
    }
}

// Writes the slots of the page's class. Neighbours that are alike share a line.
fn push_slots(
    out: &mut String,
    alloc: Global,
    view: &View<'_>,
    page: u64,
    count: u32,
) -> Result<(), AllocError> {
    let mut first = 0;
    let mut text = slot_text(alloc, view, SlotRef { page, slot: 0 })?;
    for slot in 1..count {
        let slot_ref = SlotRef {
            page,
            slot: u64::from(slot),
        };
        let next = slot_text(alloc, view, slot_ref)?;
        if next.as_str() != text.as_str() {
            push_run(out, first, slot - 1, text.as_str())?;
            first = slot;
            text = next;
        }
    }
    push_run(out, first, count.saturating_sub(1), text.as_str())
}

// Writes what was put on the page, and what its owner has yet to follow.
fn push_lanes(out: &mut String, view: &View<'_>, page: u64) -> Result<(), AllocError> {
    out.push_str("    stack: ")?;
    push_lane(
        out,
        view,
        Lane::Slots(page),
        top_item(top_of(view.head(page))),
    )?;
    out.push_str("\n    chain: ")?;
    push_lane(out, view, Lane::Slots(page), cursor(view, page))?;
    out.push_str("\n")
}

// The slot that the cursor of the page's owner is at.
fn cursor(view: &View<'_>, page: u64) -> Option<u64> {
    let pass = view.owner_of(view.shard_of(page))?;
    view.parts.get(pass)?.cursor(page)
}

/// Writes what a page is: its class, its owner, whether it is armed, its slots, its stack and its chain.
pub fn push_page(
    out: &mut String,
    alloc: Global,
    view: &View<'_>,
    page: u64,
) -> Result<(), AllocError> {
    let (shard, local) = (view.shard_of(page), view.local_of(page));
    let class = class_named(view.class_word(page));
    write!(out, "  page {shard}.{local}: ")?;
    push_class(out, class)?;
    push_owner(out, view, page)?;
    push_armed(out, view, page)?;
    match class {
        Some(class) => {
            push_slots(out, alloc, view, page, slots(class))?;
            push_lanes(out, view, page)
        }
        None => Ok(()),
    }
}
