//! Shares of a pool: the pool lives as long as one of them.
ghost use Rattle.std.specs.Prelude.{◌≡◌, ◌<◌, IfErr, IfSome, MatchResult, OnOk};
ghost use Rattle.sh_value.specs.declared.refusal.Refusal.TheVariants.{Memory};
ghost use Rattle.sh_pass.specs.Passes.{IsAtRest};

use crate::pool::Pool;
use crate::pool_slot::{PoolSlot, Taken};
use sh_key::KeyLayout;
use sh_pass::pass::PassOn;
use sh_pass::{Heap, KeepsHeap};
use sh_value::Refusal;
use std::alloc::Global;
use std::marker::Model;
use std::sync::Arc;

/// A share of a pool. A pass with a share borrows nothing, and the last share frees the pool.
///
/// A contract sees the heap.
#[derive(Drop)]
pub struct Share<L: KeyLayout> {
    pool: Arc<Pool<L>, Global>,
}

impl<L: KeyLayout> Model for Share<L> {
    ghost use Rattle.sh_table.specs.Seats.{Heap};

    ghost Value = { Heap };

    ghost view = { λ s. s.pool.value };
}

impl<L: KeyLayout> Share<L> {
    /// The first share of this pool. Refused as `Memory` if memory is refused: then the pool is freed.
    pub fn new(alloc: Global, pool: Pool<L>) -> Result<Share<L>, Refusal>
        ensures { MatchResult result (λ share. share ≡ pool) (λ why. why ≡ Memory) }
    {
        let Ok(pool) = Arc::new(alloc, pool) else {
            return Err(Refusal::Memory);
        };
        Ok(Share { pool })
    }

    /// The pool.
    pub fn pool(&self) -> &Pool<L>
        ensures { result.now ≡ self.now }
    {
        &self.pool
    }

    /// One share more, which takes no memory. Refused as `Memory` if no more can be counted, which is after 2^63.
    pub fn share(&self) -> Result<Share<L>, Refusal>
        ensures { MatchResult result (λ share. share ≡ self.now) (λ why. why ≡ Memory) }
    {
        let Ok(pool) = Arc::try_clone(&self.pool) else {
            return Err(Refusal::Memory);
        };
        Ok(Share { pool })
    }
}

impl<L: KeyLayout> KeepsHeap<L> for Share<L> {
    ghost heap = { λ s. s };

    fn kept(&self) -> &Heap<L> {
        self.pool.heap()
    }
}

/// Takes a pass from its pool slot, with a share of its pool. `None` if it finds each pool slot empty, or if no more
/// shares can be counted.
pub fn take_pass<L: KeyLayout>(share: &Share<L>) -> Option<(PassOn<L, Share<L>>, PoolSlot<L>)>
    ensures heap { IfSome result (λ taken. taken.0.heap ≡ share.now) }
    ensures pass { IfSome result (λ taken. taken.0.view.pass ≡ taken.1) }
    ensures rest { IfSome result (λ taken. IsAtRest taken.0) }
    ensures pool_slot { IfSome result (λ taken. taken.1 < share.now.shape.passes) }
{
    let kept = share.share().ok()?;
    let Taken { state, pool_slot } = share.pool().take()?;
    Some((PassOn::on(kept, state), pool_slot))
}

/// Gives a pass back to its pool slot, and drops its share. Refused if the pool slot is for another pass, if it has a
/// pass, or if there is no such pool slot. Then both are returned as they were. None of this is so for a pass and a
/// pool slot that were taken together.
pub fn give_pass<L: KeyLayout>(
    pass: PassOn<L, Share<L>>,
    pool_slot: PoolSlot<L>,
) -> Result<(), (PassOn<L, Share<L>>, PoolSlot<L>)>
    ensures ok { OnOk result ((pass.view.pass ≡ pool_slot) × (pool_slot < pass.heap.shape.passes)) }
    ensures err { IfErr result (λ back. (back.0 ≡ pass) × (back.1 ≡ pool_slot)) }
{
    let (share, state) = pass.into_parts();
    match share.pool().give(state, pool_slot) {
        Ok(()) => Ok(()),
        Err((state, pool_slot)) => Err((PassOn::on(share, state), pool_slot)),
    }
}
