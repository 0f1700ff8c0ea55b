// The live keys of a pass's shard, one after the other. A caller of a growing heap is refused as `NoShard`.
ghost use Rattle.sh_member.specs.Sides.{SideNextKey};
ghost use Rattle.c_handles.specs.Members.{AnyDoes};
ghost use Rattle.c_handles.specs.HeldPasses.{EitherDoes, NamesNoShard};

use crate::held_pass::HeldPass;
use sh_pass::NextKey;
use sh_value::Refusal;

impl HeldPass {
    /// The first live key of the shard that it owns from a place on, and the place at which to continue. `None` if no
    /// live key was found from there on. Refused as `NoShard` if it owns none, and as `HoldsFull` if it has 16 holds.
    pub fn next_own_key(&mut self, from: u64) -> Result<Option<NextKey>, Refusal>
        ensures { EitherDoes (AnyDoes (λ l. SideNextKey l from)) NamesNoShard self.old result self.new }
    {
        match self {
            HeldPass::Wide(member, _) => member.next_own_key(from),
            HeldPass::Tagged(member, _) => member.next_own_key(from),
            HeldPass::Deep(member, _) => member.next_own_key(from),
            HeldPass::Tiny(member, _) => member.next_own_key(from),
            HeldPass::Growing(_) => Err(Refusal::NoShard),
        }
    }
}
