// The calls of a member that say which key they ended.
ghost use Rattle.sh_pass.specs.Telling.{GetTells, RemoveTells, ReleaseTells};
ghost use Rattle.sh_member.specs.Sides.{SideDoes};

use crate::member::{Member, Side};
use sh_key::KeyLayout;
use sh_pass::{EndRoom, KeepsHeap, Tells};
use sh_value::{Hold, Refusal};

impl<L: KeyLayout, H: KeepsHeap<L>> Member<L, H> {
    /// `get`, and the key that it ended. A refused get may end one, also another than its own.
    pub fn get_ended<M: EndRoom>(
        &mut self,
        key: u64,
        room: &mut M,
    ) -> (Result<Hold, Refusal>, Option<u64>)
        ensures { SideDoes L.layout (λ v answer w. GetTells M.asks M.takes L.layout key room.old v answer room.new w)
            self.old result self.new }
    {
        match &mut self.side {
            Side::Pass(pass) => pass.get_ended(key, room),
            Side::Shard(shard) => shard.get_ended(key, room),
        }
    }

    /// `remove`, and the key that it ended. If it is refused, that may be another than its own.
    pub fn remove_ended<M: EndRoom>(
        &mut self,
        key: u64,
        room: &mut M,
    ) -> (Result<(), Refusal>, Option<u64>)
        ensures { SideDoes L.layout (λ v answer w. RemoveTells M.asks M.takes L.layout key room.old v answer room.new w)
            self.old result self.new }
    {
        match &mut self.side {
            Side::Pass(pass) => pass.remove_ended(key, room),
            Side::Shard(shard) => shard.remove_ended(key, room),
        }
    }

    /// `release`, and the key that it ended.
    pub fn release_ended<M: EndRoom>(
        &mut self,
        hold: Hold,
        room: &mut M,
    ) -> (Result<(), Refusal>, Option<u64>)
        ensures { SideDoes L.layout (λ v answer w. ReleaseTells M.asks M.takes L.layout hold.key room.old v answer room.new w)
            self.old result self.new }
    {
        match &mut self.side {
            Side::Pass(pass) => pass.release_ended(hold, room),
            Side::Shard(shard) => shard.release_ended(hold, room),
        }
    }
}

impl<L: KeyLayout, H: KeepsHeap<L>> Tells for Member<L, H> {
    ghost use Rattle.sh_member.specs.Sides.{caller_by};

    ghost told_layout = { L.layout };

    ghost teller = { caller_by };

    fn get_ended<M: EndRoom>(
        &mut self,
        key: u64,
        room: &mut M,
    ) -> (Result<Hold, Refusal>, Option<u64>) {
        Member::get_ended(self, key, room)
    }

    fn remove_ended<M: EndRoom>(
        &mut self,
        key: u64,
        room: &mut M,
    ) -> (Result<(), Refusal>, Option<u64>) {
        Member::remove_ended(self, key, room)
    }

    fn release_ended<M: EndRoom>(
        &mut self,
        hold: Hold,
        room: &mut M,
    ) -> (Result<(), Refusal>, Option<u64>) {
        Member::release_ended(self, hold, room)
    }
}
