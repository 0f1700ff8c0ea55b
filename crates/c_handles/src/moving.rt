// How what a pass's handle holds adopts a shard and leaves it.
ghost use Rattle.std.specs.Prelude.{MatchBool};
ghost use Rattle.c_handles.specs.HeldPasses.{HeldAdopts, HeldLeaves, HeldLeavesIdle, LeavesShards, MayBeGivenBack};

use crate::held_pass::HeldPass;
use sh_value::Refusal;
use std::alloc::Global;

impl HeldPass {
    /// Makes a pass the owner of shard `n`. Refused as `Taken` if it owns one already or another pass owns that one, as
    /// `NoShard` if there is none, and as `Memory`. A caller is refused as `NoShard`.
    pub fn adopt(&mut self, alloc: Global, n: u64) -> Result<(), Refusal>
        ensures { HeldAdopts n self.old result self.new }
    {
        match self {
            HeldPass::Wide(member, _) => member.adopt(alloc, n),
            HeldPass::Tagged(member, _) => member.adopt(alloc, n),
            HeldPass::Deep(member, _) => member.adopt(alloc, n),
            HeldPass::Tiny(member, _) => member.adopt(alloc, n),
            HeldPass::Growing(_) => Err(Refusal::NoShard),
        }
    }

    /// Leaves the shard that a pass owns, or all shards that a caller owns. A pass that owns none is refused as
    /// `NoShard`. Refused as `Waiting` if another caller has begun a free there and not ended it.
    pub fn leave(&mut self) -> Result<(), Refusal>
        ensures { HeldLeaves self.old result self.new }
    {
        match self {
            HeldPass::Wide(member, _) => member.leave(),
            HeldPass::Tagged(member, _) => member.leave(),
            HeldPass::Deep(member, _) => member.leave(),
            HeldPass::Tiny(member, _) => member.leave(),
            HeldPass::Growing(caller) => caller.leave(),
        }
    }

    /// Leaves the shard that a pass owns, as `leave` does, or each shard that a caller owns and can leave. Refused as
    /// `Waiting` if another caller has begun a free in one of them and not ended it. All others are left then.
    pub fn leave_idle(&mut self) -> Result<(), Refusal>
        ensures { HeldLeavesIdle self.old result self.new }
    {
        match self {
            HeldPass::Wide(member, _) => member.leave(),
            HeldPass::Tagged(member, _) => member.leave(),
            HeldPass::Deep(member, _) => member.leave(),
            HeldPass::Tiny(member, _) => member.leave(),
            HeldPass::Growing(caller) => caller.leave_idle(),
        }
    }

    /// Whether it is a pass that owns a shard, so that it cannot be given back.
    pub fn owns_shard(&self) -> bool
        ensures { MatchBool result (¬ MayBeGivenBack self.now) (MayBeGivenBack self.now) }
    {
        match self {
            HeldPass::Wide(member, _) => member.owns_shard(),
            HeldPass::Tagged(member, _) => member.owns_shard(),
            HeldPass::Deep(member, _) => member.owns_shard(),
            HeldPass::Tiny(member, _) => member.owns_shard(),
            HeldPass::Growing(_) => false,
        }
    }

    /// Leaves the shards of a caller as by `leave_idle`, so that it may be given back. A pass keeps its shard. Refused
    /// as `Waiting` if another caller has begun a free in one of the shards and not ended it.
    pub fn leave_shards(&mut self) -> Result<(), Refusal>
        ensures { LeavesShards self.old result self.new }
    {
        match self {
            HeldPass::Wide(_, _) => Ok(()),
            HeldPass::Tagged(_, _) => Ok(()),
            HeldPass::Deep(_, _) => Ok(()),
            HeldPass::Tiny(_, _) => Ok(()),
            HeldPass::Growing(ending) => ending.leave_idle(),
        }
    }
}
