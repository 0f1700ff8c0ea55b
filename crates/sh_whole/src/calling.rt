// The passes of a pool, as they are taken together and given back.
ghost use Rattle.std.specs.Prelude.{◌≡◌, ◌+◌, ◌<◌, ◌≤◌, All, IfSome, MatchResult, length};
ghost use Rattle.std.specs.Vec.{vec_capacity, vec_len};
ghost use Rattle.sh_table.specs.Whole.{IsWhole};
ghost use Rattle.sh_pass.specs.Passes.{AreAll, AreOf};
ghost use Rattle.sh_gather.specs.Gathering.{IsGatheredFrom};
ghost use Rattle.sh_whole.specs.Homes.{AreCalled, IsPoolSlot};

use sh_gather::Whole;
use sh_gather::gathering::gather;
use sh_key::KeyLayout;
use sh_pass::{Pass, PassState};
use sh_pool::{Pool, PoolSlot, Taken};
use std::alloc::Global;

// Passes that were taken, and in the same order the pool slot of each. It is not `Drop`, since a pool slot is not.
pub(crate) struct Called<'p, L: KeyLayout> {
    passes: Vec<Pass<'p, L>>,
    pool_slots: Vec<PoolSlot<L>>,
}

// Takes each pass that is in its pool slot. `None` if memory for the lists is refused: then none is taken.
pub(crate) fn call_all<'p, L: KeyLayout>(alloc: Global, pool: &'p Pool<L>) -> Option<Called<'p, L>>
    ensures { IfSome result (λ called. AreCalled pool.now called.passes.items called.pool_slots.items) }
{
    let Ok(mut passes) = Vec::with_capacity(alloc, pool.pool_slots()) else {
        return None;
    };
    let Ok(mut pool_slots) = Vec::with_capacity(alloc, pool.pool_slots()) else {
        return None;
    };
    for number in 0..pool.pool_slots() {
        call_one(pool, number, &mut passes, &mut pool_slots);
    }
    Some(Called { passes, pool_slots })
}

// Takes the pass of the pool slot of this number, if it is there.
#[tactic(auto, using(crate::proofs::Called::are_of_more))]
fn call_one<'p, L: KeyLayout>(
    pool: &'p Pool<L>,
    number: usize,
    passes: &mut Vec<Pass<'p, L>>,
    pool_slots: &mut Vec<PoolSlot<L>>,
)
    requires called { AreCalled pool.now passes.old.items pool_slots.old.items }
    requires room { vec_len passes.old < vec_capacity passes.old }
    requires room_too { vec_len pool_slots.old < vec_capacity pool_slots.old }
    ensures of { AreOf pool.now passes.new.items }
    ensures own { All (IsPoolSlot pool.now) pool_slots.new.items }
    ensures count { length pool_slots.new.items ≡ length passes.new.items }
    ensures few { vec_len passes.new ≤ vec_len passes.old + 1 }
    ensures kept { vec_capacity passes.new ≡ vec_capacity passes.old }
    ensures kept_too { vec_capacity pool_slots.new ≡ vec_capacity pool_slots.old }
{
    if let Some(Taken { state, pool_slot }) = pool.take_at(number) {
        passes.push_reserved(Pass::on(pool.heap(), state));
        pool_slots.push_reserved(pool_slot);
    }
}

// Gives each pass back to the pool slot that it was taken from. A pass whose pool slot is not free is lost.
pub(crate) fn give_back_all<L: KeyLayout>(pool: &Pool<L>, called: Called<'_, L>)
    requires { AreCalled pool.now called.passes.items called.pool_slots.items }
{
    let Called {
        passes,
        mut pool_slots,
    } = called;
    // The last one of a list is popped first, and the passes come in order.
    pool_slots.reverse();
    for pass in passes {
        let Some(pool_slot) = pool_slots.pop() else {
            unreachable!()
        };
        let (_heap, state) = pass.into_parts();
        give_or_lose(pool, state, pool_slot);
    }
    pool_slots.destroy_empty();
}

// Gives the pass back, or loses it if its pool slot is not free. This pool's own passes are never lost by it.
pub(crate) fn give_or_lose<L: KeyLayout>(
    pool: &Pool<L>,
    state: PassState<L>,
    pool_slot: PoolSlot<L>,
)
    requires { state.heap ≡ pool.now }
{
    if let Err((_state, pool_slot)) = pool.give(state, pool_slot) {
        pool_slot.lose();
    }
}

// Loses these pool slots, whose passes were joined in another.
fn lose_all<L: KeyLayout>(mut pool_slots: Vec<PoolSlot<L>>) {
    while let Some(pool_slot) = pool_slots.pop() {
        pool_slot.lose();
    }
    pool_slots.destroy_empty();
}

// The whole, with a pool slot for the pass that carries all tales, exactly if the tales of these passes together name
// all passes of the heap. Otherwise the passes are returned.
pub(crate) fn meet<'p, L: KeyLayout>(
    pool: &'p Pool<L>,
    called: Called<'p, L>,
) -> Result<(Whole<'p, L>, PoolSlot<L>), Called<'p, L>>
    requires { AreCalled pool.now called.passes.items called.pool_slots.items }
    ensures { MatchResult result
        (λ r. (r.0.heap ≡ pool.now) × IsWhole r.0.view × AreAll pool.now called.entry.passes.items
        × IsGatheredFrom called.entry.passes.items r.0.view × IsPoolSlot pool.now r.1)
        (λ back. (back ≡ called.entry) × ¬ AreAll pool.now called.entry.passes.items) }
{
    let Called {
        passes,
        mut pool_slots,
    } = called;
    match gather(pool.heap(), passes) {
        Ok(whole) => {
            let Some(pool_slot) = pool_slots.pop() else {
                unreachable!()
            };
            lose_all(pool_slots);
            Ok((whole, pool_slot))
        }
        Err(passes) => Err(Called { passes, pool_slots }),
    }
}
