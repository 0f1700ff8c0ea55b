// The live keys of a member's shard, one after the other.
ghost use Rattle.sh_member.specs.Sides.{SideNextKey};

use crate::member::{Member, Side};
use crate::own_keys::next_own_key;
use sh_key::KeyLayout;
use sh_pass::{KeepsHeap, NextKey};
use sh_value::Refusal;

impl<L: KeyLayout, H: KeepsHeap<L>> Member<L, H> {
    /// The first live key of the shard that it owns from a place on, and the place at which to continue, or `None`. The
    /// places of a shard begin at 0. It is the walk of `next_live` over them. Refused as `NoShard` if it owns none.
    pub fn next_own_key(&mut self, from: u64) -> Result<Option<NextKey>, Refusal>
        ensures { SideNextKey L.layout from self.old result self.new }
    {
        match &mut self.side {
            Side::Pass(_) => Err(Refusal::NoShard),
            Side::Shard(shard) => Ok(next_own_key(shard, from)),
        }
    }
}
