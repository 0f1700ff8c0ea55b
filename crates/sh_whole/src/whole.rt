//! How the passes of a pool are joined, and how the one that carries their tales is given back.
ghost use Rattle.std.specs.Prelude.{◌≡◌, IfSome};
ghost use Rattle.sh_whole.specs.Homes.{GathersAll, GathersPool, IsPoolSlot, IsWholeOf};

use crate::calling::{call_all, give_back_all, give_or_lose, meet};
use crate::refusal::NotTold;
use sh_gather::{Whole, whole};
use sh_key::KeyLayout;
use sh_pass::Pass;
use sh_pool::{Pool, PoolSlot, Taken};
use std::alloc::Global;

/// Takes all passes that are in their pool slots, and joins them in one. If their tales together name all passes of the
/// heap, it returns the heap as a whole, and the pool slot of the pass that carries the tales.
///
/// So it succeeds if no pass is taken or lost, or if each that is missing was joined before. Otherwise it is refused as
/// `Away`, and each pass that it took is back in its pool slot. It is refused as `Memory` before it takes any pass.
///
/// The joined passes are one pass from then on, which is the only one of the pool. It has its own holds. The holds of
/// the others stay in their slots for ever.
pub fn whole_of<'p, L: KeyLayout>(
    alloc: Global,
    pool: &'p Pool<L>,
) -> Result<(Whole<'p, L>, PoolSlot<L>), NotTold>
    ensures { GathersAll pool.now result }
{
    let Some(called) = call_all(alloc, pool) else {
        return Err(NotTold::Memory);
    };
    match meet(pool, called) {
        Ok(met) => Ok(met),
        Err(called) => {
            give_back_all(pool, called);
            Err(NotTold::Away)
        }
    }
}

/// Joins all passes of the pool as `whole_of` does, and gives the joined pass back to its pool slot. Refused as
/// `whole_of`.
pub fn gather_pool<L: KeyLayout>(alloc: Global, pool: &Pool<L>) -> Result<(), NotTold>
    ensures { GathersPool pool.now result }
{
    let (whole, pool_slot) = whole_of(alloc, pool)?;
    go_home(pool, whole, pool_slot);
    Ok(())
}

/// The heap as a whole, by a pass that carries the tales of all. There is one in a pool slot after `gather_pool`, or if
/// the heap has only one pass. It takes no memory. `None` if each pool slot is empty, or if the pass that it takes does
/// not carry all tales: then that pass is back in its pool slot.
pub fn pool_whole<L: KeyLayout>(pool: &Pool<L>) -> Option<(Whole<'_, L>, PoolSlot<L>)>
    ensures { IfSome result (λ r. IsWholeOf pool.now r.0 × IsPoolSlot pool.now r.1) }
{
    let Taken { state, pool_slot } = pool.take()?;
    match whole(Pass::on(pool.heap(), state)) {
        Ok(whole) => Some((whole, pool_slot)),
        Err(pass) => {
            let (_heap, state) = pass.into_parts();
            give_or_lose(pool, state, pool_slot);
            None
        }
    }
}

/// Gives the pass that carries the tales back to this pool slot. The pass is lost if the pool slot has a pass, or if
/// there is no such pool slot. Neither is so for a pool slot that this pool gave out.
pub fn go_home<L: KeyLayout>(pool: &Pool<L>, whole: Whole<'_, L>, pool_slot: PoolSlot<L>)
    requires { whole.heap ≡ pool.now }
{
    let (_heap, state) = whole.into_pass().into_parts();
    give_or_lose(pool, state, pool_slot);
}
