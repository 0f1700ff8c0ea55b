// The calls of what a pass's handle holds that a shard is needed for. A caller of a growing heap adopts its shards by
// itself, in its inserts, so it names none: a call that does is refused as `NoShard`.
ghost use Rattle.std.specs.Prelude.{◌<◌};
ghost use Rattle.c_handles.specs.HeldPasses.{HeldCollects, HeldInserts, HeldPrepares};

use crate::held_pass::HeldPass;
use sh_value::{Refusal, Value};
use std::alloc::Global;

impl HeldPass {
    /// Stores a value under a new key. A pass stores it in the shard that it owns, and is refused as `NoShard`, `Full`
    /// or `Memory`. A caller stores it in a chunk with room, and is refused as `NoShard`, `Full`, `Memory` or `Taken`.
    pub fn insert(&mut self, alloc: Global, value: &Value) -> Result<u64, Refusal>
        ensures { HeldInserts value.now self.old result self.new }
    {
        match self {
            HeldPass::Wide(member, _) => member.insert(value),
            HeldPass::Tagged(member, _) => member.insert(value),
            HeldPass::Deep(member, _) => member.insert(value),
            HeldPass::Tiny(member, _) => member.insert(value),
            HeldPass::Growing(caller) => caller.insert(alloc, value),
        }
    }

    /// Gives a page of the shard that a pass owns to class `class`, from 0 to 7, and returns the page. Refused as
    /// `NoShard`, `Full` or `Memory`, and a caller as `NoShard`.
    pub fn prepare(&mut self, class: u32) -> Result<u32, Refusal>
        requires { class < 8 }
        ensures { HeldPrepares class self.old result self.new }
    {
        match self {
            HeldPass::Wide(member, _) => member.prepare(class),
            HeldPass::Tagged(member, _) => member.prepare(class),
            HeldPass::Deep(member, _) => member.prepare(class),
            HeldPass::Tiny(member, _) => member.prepare(class),
            HeldPass::Growing(_) => Err(Refusal::NoShard),
        }
    }

    /// Collects what others freed in the shard that a pass owns, or in all shards that a caller owns. A pass that owns
    /// none is refused as `NoShard`.
    pub fn collect(&mut self) -> Result<(), Refusal>
        ensures { HeldCollects self.old result self.new }
    {
        match self {
            HeldPass::Wide(member, _) => member.collect(),
            HeldPass::Tagged(member, _) => member.collect(),
            HeldPass::Deep(member, _) => member.collect(),
            HeldPass::Tiny(member, _) => member.collect(),
            HeldPass::Growing(caller) => {
                caller.collect();
                Ok(())
            }
        }
    }
}
