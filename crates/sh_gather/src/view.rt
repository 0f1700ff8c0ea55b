//! A heap of which one pass knows all.
ghost use Rattle.std.specs.Prelude.{◌≡◌, ◌+◌, ◌≤◌, length, IfSome, MatchOption};
ghost use Rattle.sh_shape.specs.Places.{page_number};
ghost use Rattle.sh_accounts.specs.Accounts.{ShapeHasPage};
ghost use Rattle.sh_table.specs.Tales.{ViewIsValid};
ghost use Rattle.sh_pass.specs.Passes.{IsAtRest};
ghost use Rattle.sh_gather.specs.Gathering.{AreWholeAccounts, NotedMore};

use crate::accounts::accounts;
use sh_core::Accounts;
use sh_key::KeyLayout;
use sh_pass::KeepsHeap;
use sh_pass::pass::PassOn;
use sh_shape::Shape;
use std::marker::Model;

/// The heap as seen by the pass that carries the tales of all passes. No other pass steps any more, so nothing changes.
/// A `Whole` is one whose pass borrows the heap.
#[derive(Drop)]
pub struct WholeOn<L: KeyLayout, H: KeepsHeap<L>> {
    pub(crate) pass: PassOn<L, H>,
}

impl<L: KeyLayout, H: KeepsHeap<L>> Model for WholeOn<L, H> {
    ghost use Rattle.sh_table.specs.Whole.{IsWhole};
    ghost use Rattle.sh_pass.specs.Passes.{Caller};

    ghost Value = { Caller };

    ghost view = { λ w. w.pass };

    ghost invariant = { λ w. IsWhole w.pass.view };
}

impl<L: KeyLayout, H: KeepsHeap<L>> WholeOn<L, H> {
    /// The shape of the heap. The pass that carries the tales owns no shard, and all that it knows holds.
    pub fn shape(&self) -> &Shape
        ensures is { result.now ≡ self.now.heap.shape }
        ensures rest { IsAtRest self.now }
        ensures stands { ViewIsValid L.layout self.now.view }
    {
        self.pass.shape()
    }

    /// The pass that carries the tales, for further use. It is whole for good, since nobody else has a pass. What it
    /// noted holds until its next step.
    pub fn into_pass(self) -> PassOn<L, H>
        ensures { result ≡ self }
    {
        let WholeOn { pass } = self;
        pass
    }

    /// The accounts of a shard's page: its class, and how many of the slots of the class are live, marked, retired and
    /// queued. The call loads at most 98 words of the page, and finds the queued slots by walking the page's stack.
    /// `None` if the heap has no such page.
    ///
    /// No slot is an owner's or in a hand, since all passes met. In any history of the passes' results, the counts are
    /// these. Live are the page's keys that were inserted and not removed. Marked are those that were removed and are
    /// still held. Retired are those that were removed in the last generation of their slots and are not held.
    pub fn accounts(&mut self, shard: u32, page: u32) -> Option<Accounts>
        ensures rest { IsAtRest self.old }
        ensures stands { ViewIsValid L.layout self.old.view }
        ensures heap { self.new.heap ≡ self.old.heap }
        ensures tale { NotedMore self.old.view self.new.view }
        ensures looks { length self.new.view.noted ≤ length self.old.view.noted + 98 }
        ensures there { MatchOption result
            (¬ ShapeHasPage self.old.heap.shape shard page)
            (λ accounts. ShapeHasPage self.old.heap.shape shard page) }
        ensures are { IfSome result
            (AreWholeAccounts L.layout self.new.view (page_number self.old.heap.shape shard page)) }
    {
        accounts(&mut self.pass, shard, page)
    }
}
