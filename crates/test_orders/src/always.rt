//! The assertions that hold in every state.
use crate::pages::{Page, pages, state_of};
use sh_core::World;
use sh_history::{Entry, check};
use sh_key::{KeyLayout, Tiny};
use sh_step::Part;
use sh_word::Kind;
use std::alloc::Global;
use std::process::Abort;
use std::test::Fail;

// Asserts that the six kinds of slots add up to the page's slots.
fn assert_filled(rt: &impl Abort, page: &Page) {
    let accounts = page.accounts;
    let counted = accounts
        .live
        .saturating_add(accounts.marked)
        .saturating_add(accounts.retired)
        .saturating_add(accounts.mine)
        .saturating_add(accounts.hand)
        .saturating_add(accounts.queued);
    assert_eq!(rt; counted, page.slots, "{accounts:?}");
}

// Asserts that, if the pass holds the key, its slot is live or marked in the key's generation.
fn assert_held(rt: &impl Abort, world: &World<Tiny>, part: &Part, key: u64) {
    if !part.has_hold(key) {
        return;
    }
    let state = state_of(world, key).expect(rt, "a key that is held has a slot");
    let is_there = state.kind() == Kind::Live || state.kind() == Kind::Marked;
    assert!(rt; is_there && state.count > 0, "{key} is held: {state:?}");
    let parts = Tiny::unpack(key).expect(rt, "a key that is held has parts");
    assert_eq!(rt; parts.generation, state.generation);
}

/// Asserts that the log is legal, that the six kinds add up to the slots of each page, and that held values are there.
pub fn assert_always(rt: &impl Abort, alloc: Global, world: &World<Tiny>) -> Result<(), Fail> {
    let passes = world.shape().passes();
    let log = world.log();
    assert_eq!(rt; check(log, passes, Tiny::GUARD_MAX), Ok(()), "{log:?}");
    for page in &pages(alloc, world)? {
        assert_filled(rt, page);
    }
    for part in world.parts() {
        for entry in log {
            if let Entry::Insert(_, key, _) = entry {
                assert_held(rt, world, part, *key);
            }
        }
    }
    Ok(())
}
