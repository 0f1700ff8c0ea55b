// The calls on keys of what a pass's handle holds. (Those of a caller are functions of their own, so that a call in a
// heap of a fixed shape saves no registers for them.)
ghost use Rattle.sh_chunk.specs.Chunks.{chunked, key_within};
ghost use Rattle.sh_pass.specs.Passes.{ReadIntoDoes};
ghost use Rattle.sh_pass.specs.Rooms.{FillsRoom};
ghost use Rattle.sh_member.specs.Sides.{SideDoes};
ghost use Rattle.c_handles.specs.Members.{AnyDoes};
ghost use Rattle.c_handles.specs.HeldPasses.{FillsByKey, HeldFetches, HeldGets, HeldReads, HeldReleases, HeldRemoves};

use crate::held_pass::HeldPass;
use sh_pass::Room;
use sh_value::{Hold, Refusal, Value};

impl HeldPass {
    /// Takes a hold on a key. Refused as `BadKey`, `HoldsFull`, `Gone` or `Crowded`, tried in that order.
    pub fn get(&mut self, key: u64) -> Result<Hold, Refusal>
        ensures { HeldGets key self.old result self.new }
    {
        match self {
            HeldPass::Wide(member, _) => member.get(key),
            HeldPass::Tagged(member, _) => member.get(key),
            HeldPass::Deep(member, _) => member.get(key),
            HeldPass::Tiny(member, _) => member.get(key),
            HeldPass::Growing(caller) => caller.get(key),
        }
    }

    /// Returns the value of a key that it holds. Refused as `NotHeld`.
    pub fn read(&mut self, hold: Hold) -> Result<Value, Refusal>
        ensures { HeldReads hold.key self.old result self.new }
    {
        match self {
            HeldPass::Wide(member, _) => member.read(hold),
            HeldPass::Tagged(member, _) => member.read(hold),
            HeldPass::Deep(member, _) => member.read(hold),
            HeldPass::Tiny(member, _) => member.read(hold),
            HeldPass::Growing(caller) => caller.read(hold),
        }
    }

    /// The same into a value of the caller's, which is as it was if the call is refused.
    pub fn read_into(&mut self, hold: Hold, value: &mut Value) -> Result<(), Refusal>
        ensures { FillsByKey (AnyDoes (λ l. SideDoes l (λ v a w. ReadIntoDoes hold.key v value.old a value.new w)))
            (λ v a w. ReadIntoDoes (key_within hold.key) v value.old a value.new w) hold.key self.old result self.new }
    {
        match self {
            HeldPass::Wide(member, _) => member.read_into(hold, value),
            HeldPass::Tagged(member, _) => member.read_into(hold, value),
            HeldPass::Deep(member, _) => member.read_into(hold, value),
            HeldPass::Tiny(member, _) => member.read_into(hold, value),
            HeldPass::Growing(caller) => caller.read_into(hold, value),
        }
    }

    /// Returns the value of a key, by a look. Refused as the `look` of a reader is. The holds stay as they were.
    pub fn look(&mut self, key: u64) -> Result<Value, Refusal>
        ensures { HeldFetches key self.old result self.new }
    {
        match self {
            HeldPass::Wide(member, _) => member.look(key),
            HeldPass::Tagged(member, _) => member.look(key),
            HeldPass::Deep(member, _) => member.look(key),
            HeldPass::Tiny(member, _) => member.look(key),
            HeldPass::Growing(caller) => caller.look(key),
        }
    }

    /// The same into a room of the caller's, which is as it was if the call is refused.
    #[inline(always)]
    pub fn look_into<M: Room>(&mut self, key: u64, room: &mut M) -> Result<(), Refusal>
        ensures { FillsRoom M.takes (λ answer. HeldFetches key self.old answer self.new) room.old result room.new }
    {
        match self {
            HeldPass::Wide(member, _) => member.look_into(key, room),
            HeldPass::Tagged(member, _) => member.look_into(key, room),
            HeldPass::Deep(member, _) => member.look_into(key, room),
            HeldPass::Tiny(member, _) => member.look_into(key, room),
            HeldPass::Growing(caller) => caller.look_into(key, room),
        }
    }

    /// Removes a key: no later get finds it, and its value stays until the last hold goes. Refused as `BadKey` or
    /// `Gone`.
    pub fn remove(&mut self, key: u64) -> Result<(), Refusal>
        ensures { HeldRemoves key self.old result self.new }
    {
        match self {
            HeldPass::Wide(member, _) => member.remove(key),
            HeldPass::Tagged(member, _) => member.remove(key),
            HeldPass::Deep(member, _) => member.remove(key),
            HeldPass::Tiny(member, _) => member.remove(key),
            HeldPass::Growing(caller) => caller.remove(key),
        }
    }

    /// Gives one hold on a key back. Refused as `NotHeld`.
    pub fn release(&mut self, hold: Hold) -> Result<(), Refusal>
        ensures { HeldReleases hold.key self.old result self.new }
    {
        match self {
            HeldPass::Wide(member, _) => member.release(hold),
            HeldPass::Tagged(member, _) => member.release(hold),
            HeldPass::Deep(member, _) => member.release(hold),
            HeldPass::Tiny(member, _) => member.release(hold),
            HeldPass::Growing(caller) => caller.release(hold),
        }
    }
}
