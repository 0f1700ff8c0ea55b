// How a member adopts a shard and leaves it.
ghost use Rattle.std.specs.Prelude.{MatchBool};
ghost use Rattle.sh_member.specs.Sides.{SideAdopts, SideLeaves, SideGivesPass, IsPass, seen_side};
ghost use Rattle.sh_member.specs.SideBounds.{AdoptTakes, LeaveTakes};

use crate::member::{Member, Side};
use core::mem::replace_with;
use sh_key::KeyLayout;
use sh_pass::KeepsHeap;
use sh_pass::pass::PassOn;
use sh_shard::shard::ShardOn;
use sh_value::Refusal;
use std::alloc::Global;

impl<L: KeyLayout, H: KeepsHeap<L>> Member<L, H> {
    /// Makes it the owner of shard `n`. Refused as `Taken` if it owns one already or another pass owns that one, as
    /// `NoShard` if there is no such shard, and as `Memory`.
    pub fn adopt(&mut self, alloc: Global, n: u64) -> Result<(), Refusal>
        ensures serves { SideAdopts n self.old result self.new }
        ensures bounded { AdoptTakes self.old self.new }
    {
        replace_with(&mut self.side, (alloc, n), Side::adopt)
    }

    /// Leaves the shard that it owns. Refused as `NoShard` if it owns none, and as `Waiting` if another caller has
    /// begun a free there that is yet to end.
    pub fn leave(&mut self) -> Result<(), Refusal>
        ensures serves { SideLeaves self.old result self.new }
        ensures bounded { LeaveTakes self.old self.new }
    {
        replace_with(&mut self.side, (), Side::leave)
    }

    /// Whether it owns a shard.
    pub fn owns_shard(&self) -> bool
        ensures { MatchBool result (¬ IsPass self.now) (IsPass self.now) }
    {
        match &self.side {
            Side::Pass(_) => false,
            Side::Shard(_) => true,
        }
    }

    /// The pass, if it owns no shard; otherwise the member comes back.
    pub fn into_pass(self) -> Result<PassOn<L, H>, Self>
        ensures { SideGivesPass self result }
    {
        let Member { side } = self;
        match side {
            Side::Pass(pass) => Ok(pass),
            Side::Shard(shard) => Err(Member {
                side: Side::Shard(shard),
            }),
        }
    }
}

impl<L: KeyLayout, H: KeepsHeap<L>> Side<L, H> {
    // What it becomes if it adopts.
    fn adopt(self, to: (Global, u64)) -> (Self, Result<(), Refusal>)
        ensures serves { SideAdopts to.1 (seen_side self) result.1 (seen_side result.0) }
        ensures bounded { AdoptTakes (seen_side self) (seen_side result.0) }
    {
        let (alloc, n) = to;
        match self {
            Side::Pass(pass) => match ShardOn::adopt(alloc, pass, n) {
                Ok(shard) => (Side::Shard(shard), Ok(())),
                Err((pass, refusal)) => (Side::Pass(pass), Err(refusal)),
            },
            Side::Shard(shard) => (Side::Shard(shard), Err(Refusal::Taken)),
        }
    }

    // What it becomes if it leaves.
    fn leave(self, _none: ()) -> (Self, Result<(), Refusal>)
        ensures serves { SideLeaves (seen_side self) result.1 (seen_side result.0) }
        ensures bounded { LeaveTakes (seen_side self) (seen_side result.0) }
    {
        match self {
            Side::Shard(shard) => match shard.leave() {
                Ok(pass) => (Side::Pass(pass), Ok(())),
                Err((shard, refusal)) => (Side::Shard(shard), Err(refusal)),
            },
            Side::Pass(pass) => (Side::Pass(pass), Err(Refusal::NoShard)),
        }
    }
}
