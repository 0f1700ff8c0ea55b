//! Shards: the pages of an owner, and the queues that they are in.

mod adopting;
mod bell;
mod between_calls;
mod calls;
mod collecting;
mod counting;
mod insert;
mod leaving;
mod peeking;
mod places;
mod prepare;
mod receipts;
mod returning;
mod search;
mod store;
mod telling;

use crate::pages::PagesOn;
use sh_key::KeyLayout;
use sh_pass::KeepsHeap;
use sh_queue::Queues;
use std::marker::Model;

/// A shard that a pass owns: its owner inserts into it, and gets, reads, removes and releases as any pass does. A
/// `Shard` is one whose pass borrows its heap.
///
/// Other passes act between all its calls. Only `adopt` takes memory, and an `insert` or a `prepare` that opens a
/// segment.
///
/// Only `leave` gives a shard up. A shard that is dropped stays taken as long as the heap exists: each adopt is refused
/// as `Taken`. Nobody uses the slots that were its owner's, and what others free there is not collected. Its pass is
/// lost with it: no other pass can be joined to it, so the heap is never known whole. The values stay, and other passes
/// get, read, remove and release them as before.
#[derive(Drop)]
pub struct ShardOn<L: KeyLayout, H: KeepsHeap<L>> {
    pub(crate) pages: PagesOn<L, H>,
    pub(crate) queues: Queues,
}

impl<L: KeyLayout, H: KeepsHeap<L>> Model for ShardOn<L, H> {
    ghost use Rattle.sh_shard.specs.Shards.{Sharded, SortedPages};

    ghost Value = { Sharded };

    ghost view = { λ s. record { pages = s.pages; queues = s.queues } };

    ghost invariant = { λ s. SortedPages s.pages s.queues };
}
