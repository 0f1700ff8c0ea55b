//! The accounts of a pool's heap as a whole.
ghost use Rattle.sh_whole.specs.Homes.{TellsAccounts, TellsTotals};

use crate::refusal::NotTold;
use crate::whole::{go_home, pool_whole};
use sh_gather::{Accounts, Totals, total};
use sh_key::KeyLayout;
use sh_pool::Pool;

/// The accounts of a shard's page, by the pass that carries the tales of all, which `gather_pool` left in its pool
/// slot. It takes no memory. Refused as `Away` if no such pass is found, otherwise as `NoPage` exactly if the heap has
/// no such page.
pub fn pool_accounts<L: KeyLayout>(
    pool: &Pool<L>,
    shard: u32,
    page: u32,
) -> Result<Accounts, NotTold>
    ensures { TellsAccounts L.layout pool.now shard page result }
{
    let Some((mut whole, pool_slot)) = pool_whole(pool) else {
        return Err(NotTold::Away);
    };
    let told = whole.accounts(shard, page);
    go_home(pool, whole, pool_slot);
    match told {
        Some(accounts) => Ok(accounts),
        None => Err(NotTold::NoPage),
    }
}

/// The sums over all pages, by the pass that carries the tales of all, which `gather_pool` left in its pool slot. It
/// takes no memory. Refused as `Away` if no such pass is found.
pub fn pool_totals<L: KeyLayout>(pool: &Pool<L>) -> Result<Totals, NotTold>
    ensures { TellsTotals L.layout pool.now result }
{
    let Some((mut whole, pool_slot)) = pool_whole(pool) else {
        return Err(NotTold::Away);
    };
    let told = total(&mut whole);
    go_home(pool, whole, pool_slot);
    Ok(told)
}
