//! The live keys of a pool's heap, one after the other.
ghost use Rattle.sh_whole.specs.Homes.{TellsNextKey};

use crate::refusal::NotTold;
use crate::whole::{go_home, pool_whole};
use sh_gather::next_key;
use sh_key::KeyLayout;
use sh_pass::NextKey;
use sh_pool::Pool;

/// The first live key from a place on, by the pass that carries the tales of all, which `gather_pool` left in its
/// pool slot. `None` if no key from there on is live. It takes no memory. Refused as `Away` if no such pass is found.
pub fn pool_next_key<L: KeyLayout>(pool: &Pool<L>, from: u64) -> Result<Option<NextKey>, NotTold>
    ensures { TellsNextKey L.layout pool.now from result }
{
    let Some((mut whole, pool_slot)) = pool_whole(pool) else {
        return Err(NotTold::Away);
    };
    let next = next_key(&mut whole, from);
    go_home(pool, whole, pool_slot);
    Ok(next)
}
