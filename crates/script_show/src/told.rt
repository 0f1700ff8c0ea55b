//! What a trace says of an event.
use crate::page_text::push_page;
use crate::pass_text::push_passes;
use crate::shard_text::push_shard;
use crate::touched::Touched;
use crate::view::View;
use std::alloc::{AllocError, Global};

/// What a trace says of an event.
#[derive(Drop)]
pub struct Told {
    /// Its line as mode steps writes it, with its newline: `0 Adopt moved`.
    pub line: Vec<u8>,
    /// The text after that on the same line: why an event was skipped, or what an event that changed nothing met. Empty
    /// for any other event.
    pub remark: &'static str,
    /// The lines on what it touched, as that is after the event, and on the passes.
    pub shown: String,
}

// Writes what the event touched, as that is after the event.
fn push_touched(
    out: &mut String,
    alloc: Global,
    view: &View<'_>,
    touched: Touched,
) -> Result<(), AllocError> {
    match touched {
        Touched::Nothing(_) => Ok(()),
        Touched::Page(page) | Touched::Link(page, _) => push_page(out, alloc, view, page),
        Touched::Slot(slot_ref) => push_page(out, alloc, view, slot_ref.page),
        Touched::Shard(shard) => push_shard(out, view, shard),
        Touched::PageAndBell(page) => {
            push_page(out, alloc, view, page)?;
            push_shard(out, view, view.shard_of(page))
        }
    }
}

/// The lines on what an event touched, and on the passes.
pub fn shown_text(alloc: Global, view: &View<'_>, touched: Touched) -> Result<String, AllocError> {
    let mut text = String::new(alloc);
    push_touched(&mut text, alloc, view, touched)?;
    push_passes(&mut text, view)?;
    Ok(text)
}
