// What a member knows of how full its shard is.
ghost use Rattle.sh_member.specs.Sides.{SideCounts};
ghost use Rattle.sh_shard.specs.Pages.{blank_pages, slots_out};

use crate::member::{Member, Side};
use sh_key::KeyLayout;
use sh_pass::KeepsHeap;
use sh_value::Refusal;

impl<L: KeyLayout, H: KeepsHeap<L>> Member<L, H> {
    /// How many pages of the shard that it owns have no class yet. Refused as `NoShard` if it owns none. It takes no
    /// step.
    pub fn pages_left(&self) -> Result<u64, Refusal>
        ensures { SideCounts blank_pages self.now result self.now }
    {
        match &self.side {
            Side::Pass(_) => Err(Refusal::NoShard),
            Side::Shard(shard) => Ok(shard.pages_left()),
        }
    }

    /// How many slots of the other pages of its shard are not free for it. The shard has at most that many values.
    /// Refused as `NoShard` if it owns none. It takes no step.
    pub fn slots_out(&self) -> Result<u64, Refusal>
        ensures { SideCounts slots_out self.now result self.now }
    {
        match &self.side {
            Side::Pass(_) => Err(Refusal::NoShard),
            Side::Shard(shard) => Ok(shard.slots_out()),
        }
    }
}
