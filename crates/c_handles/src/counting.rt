// How full the shard of a pass is. A caller of a growing heap is refused as `NoShard`.
ghost use Rattle.sh_member.specs.Sides.{SideCounts};
ghost use Rattle.sh_shard.specs.Pages.{blank_pages, slots_out};
ghost use Rattle.c_handles.specs.Members.{AnyDoes};
ghost use Rattle.c_handles.specs.HeldPasses.{EitherDoes, NamesNoShard};

use crate::held_pass::HeldPass;
use sh_value::Refusal;

impl HeldPass {
    /// The number of pages without a class in the shard that it owns. Refused as `NoShard` if it owns none.
    pub fn pages_left(&self) -> Result<u64, Refusal>
        ensures { EitherDoes (AnyDoes (λ l. SideCounts blank_pages)) NamesNoShard self.now result self.now }
    {
        match self {
            HeldPass::Wide(member, _) => member.pages_left(),
            HeldPass::Tagged(member, _) => member.pages_left(),
            HeldPass::Deep(member, _) => member.pages_left(),
            HeldPass::Tiny(member, _) => member.pages_left(),
            HeldPass::Growing(_) => Err(Refusal::NoShard),
        }
    }

    /// The number of slots, in pages with a class of its shard, that it cannot use now. Refused as `NoShard` if it owns
    /// none.
    pub fn slots_out(&self) -> Result<u64, Refusal>
        ensures { EitherDoes (AnyDoes (λ l. SideCounts slots_out)) NamesNoShard self.now result self.now }
    {
        match self {
            HeldPass::Wide(member, _) => member.slots_out(),
            HeldPass::Tagged(member, _) => member.slots_out(),
            HeldPass::Deep(member, _) => member.slots_out(),
            HeldPass::Tiny(member, _) => member.slots_out(),
            HeldPass::Growing(_) => Err(Refusal::NoShard),
        }
    }
}
