//! The pages of an owner's shard. What is kept of each page is what the owner knows about it.
ghost use Rattle.std.specs.Prelude.{◌≡◌, ℕ, ◌^◌, ◌<◌, ◌≤◌, None, Some, MatchOption, MatchBool, true};
ghost use Rattle.sh_shard.specs.Pages.{page_at, HasCursor, NothingMine, WhollyMine, NoneWhollyMine, BlankHasNothing};
ghost use Rattle.sh_shard.specs.Pages.{seen_class, lists_at};
ghost use Rattle.sh_shard.specs.Slots.{NoSlots};

mod adopting;
mod bell;
mod between_calls;
mod calls;
mod collecting;
mod counting;
mod insert;
mod leaving;
mod peeking;
mod places;
mod receipts;
mod stack;
mod telling;

use sh_key::KeyLayout;
use sh_pass::KeepsHeap;
use sh_pass::owner::OwnerOn;
use sh_states::PageStates;
use std::marker::Model;

/// The pages of an owner's shard. `Pages` are those of an owner that borrows its heap.
#[derive(Drop)]
pub struct PagesOn<L: KeyLayout, H: KeepsHeap<L>> {
    pub(crate) owner: OwnerOn<L, H>,
    pub(crate) shard: u64,
    // The page of the bell whose link is to be followed next.
    pub(crate) rings: Option<u64>,
    // One state for each page of the shard.
    pub(crate) states: PageStates,
}

impl<L: KeyLayout, H: KeepsHeap<L>> Model for PagesOn<L, H> {
    ghost use Rattle.std.specs.Prelude.{length};
    ghost use Rattle.sh_pass.specs.Owners.{seen_bell};
    ghost use Rattle.sh_shard.specs.Kept.{KeepsPages};
    ghost use Rattle.sh_shard.specs.Pages.{Paged};

    ghost Value = { Paged };

    ghost view = { λ p. record {
      owner = p.owner;
      shard = p.shard;
      count = length p.states;
      bell = seen_bell
          L.layout p.owner p.shard;
      kept = p.states;
    } };

    ghost invariant = { λ p. KeepsPages L.layout p.owner p.shard p.rings p.states };
}

impl<L: KeyLayout, H: KeepsHeap<L>> PagesOn<L, H> {
    /// The number of pages of the shard.
    pub(crate) fn count(&self) -> u64
        ensures count { result ≡ self.now.count }
        ensures few { result ≤ 2 ^ 24 }
    {
        self.states.len()
    }

    /// The class word of a page: 0 if it is blank, and otherwise one more than its class.
    pub(crate) fn class_word(&self, page: u64) -> u64
        requires { page < self.now.count }
        ensures word { (page_at self.now page).class ≡ Some result }
        ensures few { result ≤ 8 }
    {
        self.states.class_word(page)
    }

    /// Whether the page has a cursor.
    pub(crate) fn has_cursor(&self, page: u64) -> bool
        requires { page < self.now.count }
        ensures { MatchBool result (HasCursor (page_at self.now page).cursor)
            ((page_at self.now page).cursor ≡ None) }
    {
        self.states.cursor(page).is_some()
    }

    /// Whether the page is armed.
    pub(crate) fn is_armed(&self, page: u64) -> bool
        requires { page < self.now.count }
        ensures armed { result ≡ (page_at self.now page).armed }
        ensures classed { result ≡ true → 0 < seen_class (page_at self.now page) }
    {
        self.states.is_armed(page)
    }

    /// Whether a slot of the page is the owner's.
    pub(crate) fn has_slot(&self, page: u64) -> bool
        requires { page < self.now.count }
        ensures mine { MatchBool result ((s : ℕ) × ((page_at self.now page).mine s ≡ true))
            (NothingMine (page_at self.now page)) }
        ensures none { MatchBool result (Unit {0}) (NoSlots (lists_at self.now page)) }
    {
        self.states.slots(page) > 0
    }

    /// Whether the page has a class, and all its slots are the owner's.
    pub(crate) fn is_wholly_mine(&self, page: u64) -> bool
        requires { page < self.now.count }
        ensures { MatchBool result (WhollyMine (page_at self.now page)) (¬ WhollyMine (page_at self.now page)) }
    {
        self.states.is_whole(page)
    }

    /// The first of the pages below `end` that has a class and all of whose slots are the owner's. A page that was seen
    /// to have a slot out is looked at again only after it gained a slot.
    pub(crate) fn first_whole(&mut self, end: u64) -> Option<u64>
        requires { end ≤ self.old.count }
        ensures same { self.new ≡ self.old }
        ensures first { MatchOption result (NoneWhollyMine end self.old)
            (λ page. (page < end) × WhollyMine (page_at self.old page) × NoneWhollyMine page self.old) }
    {
        self.states.first_whole(end)
    }

    // What is known of blank pages.
    pub(crate) fn blank_pages(&self)
        ensures { BlankHasNothing self.now }
    {
        let _known = &self.states;
    }
}
