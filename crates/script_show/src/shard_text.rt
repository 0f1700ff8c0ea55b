//! The text on a shard.
use crate::lane::{Lane, push_lane};
use crate::view::View;
use sh_shape::Place;
use sh_stack::top_item;
use std::alloc::AllocError;
use std::fmt::Write;

// The page of the shard that its owner's bell cursor is at.
fn bell_cursor(view: &View<'_>, shard: u64) -> Option<u64> {
    let pass = view.owner_of(shard)?;
    let page = view.parts.get(pass)?.bell_cursor()?;
    Some(view.local_of(page))
}

/// Writes the state of a shard: its owner, its bell, and the chain of pages that its owner has yet to follow.
pub fn push_shard(out: &mut String, view: &View<'_>, shard: u64) -> Result<(), AllocError> {
    write!(out, "  shard {shard}: ")?;
    match view.owner_of(shard) {
        Some(pass) => write!(out, "owner pass {pass}")?,
        None => out.push_str(if view.word(Place::Owner(shard)) == 0 {
            "left"
        } else {
            "taken"
        })?,
    }
    out.push_str("\n    bell: ")?;
    push_lane(
        out,
        view,
        Lane::Pages(shard),
        top_item(view.word(Place::Bell(shard))),
    )?;
    out.push_str("\n    bell chain: ")?;
    push_lane(out, view, Lane::Pages(shard), bell_cursor(view, shard))?;
    out.push_str("\n")
}
