// The calls of an owner that say which key they ended: a full page that gains a slot in one goes back to its class.
ghost use Rattle.sh_pass.specs.Passes.{GetDoesWithin, RemoveDoesWithin, ReleaseDoesWithin};
ghost use Rattle.sh_pass.specs.Telling.{TellsEnd, words_asked};
ghost use Rattle.sh_shard.specs.Shards.{StaysOwner, ReturnsSlot};

use crate::shard::ShardOn;
use crate::shard::returning::return_one;
use sh_key::KeyLayout;
use sh_pass::{EndRoom, KeepsHeap, Tells};
use sh_value::{Hold, Refusal};

impl<L: KeyLayout, H: KeepsHeap<L>> ShardOn<L, H> {
    /// `get`, and the key that it ended. A refused get may end one, also another than its own.
    pub fn get_ended<M: EndRoom>(
        &mut self,
        key: u64,
        room: &mut M,
    ) -> (Result<Hold, Refusal>, Option<u64>)
        ensures does { GetDoesWithin (words_asked M.asks) L.layout key self.old.pages.owner result.0
            self.new.pages.owner }
        ensures returned { ReturnsSlot self.old self.new }
        ensures stays { StaysOwner L.layout self.old self.new }
        ensures tells { TellsEnd M.asks M.takes L.layout result.1 room.old room.new self.old.pages.owner.view
            self.new.pages.owner.view }
    {
        let (answer, gained, ended) = self.pages.get_ended(key, room);
        return_one(&self.pages, &mut self.queues, gained);
        (answer, ended)
    }

    /// `remove`, and the key that it ended. If it is refused, that may be another than its own.
    pub fn remove_ended<M: EndRoom>(
        &mut self,
        key: u64,
        room: &mut M,
    ) -> (Result<(), Refusal>, Option<u64>)
        ensures does { RemoveDoesWithin (words_asked M.asks) L.layout key self.old.pages.owner result.0
            self.new.pages.owner }
        ensures returned { ReturnsSlot self.old self.new }
        ensures stays { StaysOwner L.layout self.old self.new }
        ensures tells { TellsEnd M.asks M.takes L.layout result.1 room.old room.new self.old.pages.owner.view
            self.new.pages.owner.view }
    {
        let (answer, gained, ended) = self.pages.remove_ended(key, room);
        return_one(&self.pages, &mut self.queues, gained);
        (answer, ended)
    }

    /// `release`, and the key that it ended.
    pub fn release_ended<M: EndRoom>(
        &mut self,
        hold: Hold,
        room: &mut M,
    ) -> (Result<(), Refusal>, Option<u64>)
        ensures does { ReleaseDoesWithin (words_asked M.asks) L.layout hold.key self.old.pages.owner result.0
            self.new.pages.owner }
        ensures returned { ReturnsSlot self.old self.new }
        ensures stays { StaysOwner L.layout self.old self.new }
        ensures tells { TellsEnd M.asks M.takes L.layout result.1 room.old room.new self.old.pages.owner.view
            self.new.pages.owner.view }
    {
        let (answer, gained, ended) = self.pages.release_ended(hold, room);
        return_one(&self.pages, &mut self.queues, gained);
        (answer, ended)
    }
}

impl<L: KeyLayout, H: KeepsHeap<L>> Tells for ShardOn<L, H> {
    ghost told_layout = { L.layout };

    ghost teller = { λ shard. shard.pages.owner };

    fn get_ended<M: EndRoom>(
        &mut self,
        key: u64,
        room: &mut M,
    ) -> (Result<Hold, Refusal>, Option<u64>) {
        ShardOn::get_ended(self, key, room)
    }

    fn remove_ended<M: EndRoom>(
        &mut self,
        key: u64,
        room: &mut M,
    ) -> (Result<(), Refusal>, Option<u64>) {
        ShardOn::remove_ended(self, key, room)
    }

    fn release_ended<M: EndRoom>(
        &mut self,
        hold: Hold,
        room: &mut M,
    ) -> (Result<(), Refusal>, Option<u64>) {
        ShardOn::release_ended(self, hold, room)
    }
}
