// The calls of what a pass's handle holds that say which key they ended.
ghost use Rattle.c_handles.specs.Ended.{HeldGetTells, HeldReleaseTells, HeldRemoveTells};

use crate::held_pass::HeldPass;
use sh_pass::EndRoom;
use sh_value::{Hold, Refusal};

impl HeldPass {
    /// `get`, and the key that it ended. Only a refused get ends one, as `Gone` or `Crowded`. The words of its value go
    /// into the room, which otherwise stays as it was.
    pub fn get_ended<M: EndRoom>(
        &mut self,
        key: u64,
        room: &mut M,
    ) -> (Result<Hold, Refusal>, Option<u64>)
        ensures { HeldGetTells M.asks M.takes key room.old self.old result room.new self.new }
    {
        match self {
            HeldPass::Wide(member, _) => member.get_ended(key, room),
            HeldPass::Tagged(member, _) => member.get_ended(key, room),
            HeldPass::Deep(member, _) => member.get_ended(key, room),
            HeldPass::Tiny(member, _) => member.get_ended(key, room),
            HeldPass::Growing(caller) => caller.get_ended(key, room),
        }
    }

    /// `remove`, and the key that it ended: its own, or if it is refused one of another key.
    pub fn remove_ended<M: EndRoom>(
        &mut self,
        key: u64,
        room: &mut M,
    ) -> (Result<(), Refusal>, Option<u64>)
        ensures { HeldRemoveTells M.asks M.takes key room.old self.old result room.new self.new }
    {
        match self {
            HeldPass::Wide(member, _) => member.remove_ended(key, room),
            HeldPass::Tagged(member, _) => member.remove_ended(key, room),
            HeldPass::Deep(member, _) => member.remove_ended(key, room),
            HeldPass::Tiny(member, _) => member.remove_ended(key, room),
            HeldPass::Growing(caller) => caller.remove_ended(key, room),
        }
    }

    /// `release`, and the key that it ended: its own.
    pub fn release_ended<M: EndRoom>(
        &mut self,
        hold: Hold,
        room: &mut M,
    ) -> (Result<(), Refusal>, Option<u64>)
        ensures { HeldReleaseTells M.asks M.takes hold.key room.old self.old result room.new self.new }
    {
        match self {
            HeldPass::Wide(member, _) => member.release_ended(hold, room),
            HeldPass::Tagged(member, _) => member.release_ended(hold, room),
            HeldPass::Deep(member, _) => member.release_ended(hold, room),
            HeldPass::Tiny(member, _) => member.release_ended(hold, room),
            HeldPass::Growing(caller) => caller.release_ended(hold, room),
        }
    }
}
