//! What a pass's handle holds, and how it is given back or lost.
ghost use Rattle.c_handles.specs.Members.{Gives};
ghost use Rattle.c_handles.specs.HeldPasses.{HeldGives};

use sh_grown::Caller;
use sh_key::{Deep, KeyLayout, Tagged, Tiny, Wide};
use sh_member::Member;
use sh_pool::{PoolSlot, Share, give_pass};

/// A pass that may own a shard, of a heap of any layout, and its pool slot; or a caller of a growing heap.
///
/// They are variants of one enum, so that a call finds the layout or the caller by one branch. What is dropped is lost,
/// as by `lose`.
pub enum HeldPass {
    /// Of layout `Wide`.
    Wide(Member<Wide, Share<Wide>>, PoolSlot<Wide>),
    /// Of layout `Tagged`.
    Tagged(Member<Tagged, Share<Tagged>>, PoolSlot<Tagged>),
    /// Of layout `Deep`.
    Deep(Member<Deep, Share<Deep>>, PoolSlot<Deep>),
    /// Of layout `Tiny`.
    Tiny(Member<Tiny, Share<Tiny>>, PoolSlot<Tiny>),
    /// Of a growing heap.
    Growing(Caller),
}

impl Drop for HeldPass {
    fn drop(self) {
        self.lose();
    }
}

impl HeldPass {
    /// Gives its pass back, or the passes of a caller. A pass that owns a shard, or whose pool slot is not free, is
    /// returned as it was. A caller is not returned: each pass of it leaves its shard, and is lost if it has to wait.
    pub fn return_to_pool(self) -> Result<(), HeldPass>
        ensures { HeldGives self result }
    {
        match self {
            HeldPass::Wide(member, pool_slot) => match given(member, pool_slot) {
                Ok(()) => Ok(()),
                Err((member, pool_slot)) => Err(HeldPass::Wide(member, pool_slot)),
            },
            HeldPass::Tagged(member, pool_slot) => match given(member, pool_slot) {
                Ok(()) => Ok(()),
                Err((member, pool_slot)) => Err(HeldPass::Tagged(member, pool_slot)),
            },
            HeldPass::Deep(member, pool_slot) => match given(member, pool_slot) {
                Ok(()) => Ok(()),
                Err((member, pool_slot)) => Err(HeldPass::Deep(member, pool_slot)),
            },
            HeldPass::Tiny(member, pool_slot) => match given(member, pool_slot) {
                Ok(()) => Ok(()),
                Err((member, pool_slot)) => Err(HeldPass::Tiny(member, pool_slot)),
            },
            HeldPass::Growing(caller) => {
                caller.give_back();
                Ok(())
            }
        }
    }

    /// Loses the pass, or the passes of a caller: their pool slots stay empty for ever, their holds stay in their
    /// slots, and shards that they own stay owned. It drops its share of the heap.
    pub fn lose(self) {
        match self {
            HeldPass::Wide(member, pool_slot) => lost(member, pool_slot),
            HeldPass::Tagged(member, pool_slot) => lost(member, pool_slot),
            HeldPass::Deep(member, pool_slot) => lost(member, pool_slot),
            HeldPass::Tiny(member, pool_slot) => lost(member, pool_slot),
            HeldPass::Growing(caller) => drop(caller),
        }
    }
}

// Loses the pass of this pool slot.
fn lost<L: KeyLayout>(member: Member<L, Share<L>>, pool_slot: PoolSlot<L>) {
    drop(member);
    pool_slot.lose();
}

// Gives the pass back to its pool slot, if it owns no shard.
fn given<L: KeyLayout>(
    member: Member<L, Share<L>>,
    pool_slot: PoolSlot<L>,
) -> Result<(), (Member<L, Share<L>>, PoolSlot<L>)>
    ensures { Gives member pool_slot result }
{
    match member.into_pass() {
        Ok(pass) => match give_pass(pass, pool_slot) {
            Ok(()) => Ok(()),
            Err((pass, pool_slot)) => Err((Member::of(pass), pool_slot)),
        },
        Err(member) => Err((member, pool_slot)),
    }
}
