// Walks of what a pass's handle holds over the live keys of its heap.
ghost use Rattle.sh_member.specs.Walks.{PutsIfLive};
ghost use Rattle.c_handles.specs.HeldPasses.{HeldNextHeld, HeldNextLive};

use crate::held_pass::HeldPass;
use sh_member::NextHeld;
use sh_pass::NextKey;
use sh_value::{Refusal, Value};

impl HeldPass {
    /// The first live key of the heap at a place from `from` on and before `before`, and the place at which to continue.
    /// Its value replaces the caller's. `None` if no key is met: then the caller's value is as it was. The holds stay as
    /// they were. A pass is never refused. A caller goes over the chunks, and is refused as `Taken` if its pass is not
    /// in the pool of one that it has not met.
    pub fn next_live_into(
        &mut self,
        from: u64,
        before: u64,
        value: &mut Value,
    ) -> Result<Option<NextKey>, Refusal>
        ensures { PutsIfLive (λ met. HeldNextLive from before self.old met self.new) value.old result value.new }
    {
        match self {
            HeldPass::Wide(member, _) => Ok(member.next_live_into(from, before, value)),
            HeldPass::Tagged(member, _) => Ok(member.next_live_into(from, before, value)),
            HeldPass::Deep(member, _) => Ok(member.next_live_into(from, before, value)),
            HeldPass::Tiny(member, _) => Ok(member.next_live_into(from, before, value)),
            HeldPass::Growing(caller) => caller.next_live_into(from, before, value),
        }
    }

    /// The same with a hold on the key, in place of its value. There is no hold if the key has as many as it may have.
    /// Refused as `HoldsFull` too, if a key is met and the pass has 16 holds, or the caller in the key's chunk.
    pub fn next_held(&mut self, from: u64, before: u64) -> Result<Option<NextHeld>, Refusal>
        ensures { HeldNextHeld from before self.old result self.new }
    {
        match self {
            HeldPass::Wide(member, _) => member.next_held(from, before),
            HeldPass::Tagged(member, _) => member.next_held(from, before),
            HeldPass::Deep(member, _) => member.next_held(from, before),
            HeldPass::Tiny(member, _) => member.next_held(from, before),
            HeldPass::Growing(caller) => caller.next_held(from, before),
        }
    }
}
