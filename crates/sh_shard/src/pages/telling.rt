// The calls that say which key they ended, for an owner: a slot of its shard that the call frees goes to its page's
// lists, as in `calls.rt`. Each returns also the page that gained a slot, and the key that ended.
ghost use Rattle.sh_pass.specs.Passes.{GetDoesWithin, RemoveDoesWithin, ReleaseDoesWithin};
ghost use Rattle.sh_pass.specs.Remaining.{Remains};
ghost use Rattle.sh_pass.specs.Telling.{TellsEnd, words_asked};
ghost use Rattle.sh_shard.specs.Pages.{GainsSlot, HoldsPages};

use crate::pages::PagesOn;
use crate::pages::calls::push_gained;
use sh_key::KeyLayout;
use sh_pass::{EndRoom, KeepsHeap};
use sh_value::{Hold, Refusal};

impl<L: KeyLayout, H: KeepsHeap<L>> PagesOn<L, H> {
    /// `get`, and the key that it ended.
    pub(crate) fn get_ended<M: EndRoom>(
        &mut self,
        key: u64,
        room: &mut M,
    ) -> (Result<Hold, Refusal>, Option<u64>, Option<u64>)
        ensures does { GetDoesWithin (words_asked M.asks) L.layout key self.old.owner result.0 self.new.owner }
        ensures gained { GainsSlot result.1 self.old self.new }
        ensures holds { HoldsPages L.layout self.new }
        ensures tells { TellsEnd M.asks M.takes L.layout result.2 room.old room.new self.old.owner.view
            self.new.owner.view }
        ensures remains { Remains L.layout self.old.owner self.new.owner }
    {
        let (answer, gained, ended) = self.owner.get_ended(key, room);
        let page = push_gained(&mut self.states, self.shard, gained);
        (answer, page, ended)
    }

    /// `remove`, and the key that it ended.
    pub(crate) fn remove_ended<M: EndRoom>(
        &mut self,
        key: u64,
        room: &mut M,
    ) -> (Result<(), Refusal>, Option<u64>, Option<u64>)
        ensures does { RemoveDoesWithin (words_asked M.asks) L.layout key self.old.owner result.0 self.new.owner }
        ensures gained { GainsSlot result.1 self.old self.new }
        ensures holds { HoldsPages L.layout self.new }
        ensures tells { TellsEnd M.asks M.takes L.layout result.2 room.old room.new self.old.owner.view
            self.new.owner.view }
        ensures remains { Remains L.layout self.old.owner self.new.owner }
    {
        let (answer, gained, ended) = self.owner.remove_ended(key, room);
        let page = push_gained(&mut self.states, self.shard, gained);
        (answer, page, ended)
    }

    /// `release`, and the key that it ended.
    pub(crate) fn release_ended<M: EndRoom>(
        &mut self,
        hold: Hold,
        room: &mut M,
    ) -> (Result<(), Refusal>, Option<u64>, Option<u64>)
        ensures does { ReleaseDoesWithin (words_asked M.asks) L.layout hold.key self.old.owner result.0 self.new.owner }
        ensures gained { GainsSlot result.1 self.old self.new }
        ensures holds { HoldsPages L.layout self.new }
        ensures tells { TellsEnd M.asks M.takes L.layout result.2 room.old room.new self.old.owner.view
            self.new.owner.view }
        ensures remains { Remains L.layout self.old.owner self.new.owner }
    {
        let (answer, gained, ended) = self.owner.release_ended(hold, room);
        let page = push_gained(&mut self.states, self.shard, gained);
        (answer, page, ended)
    }
}
