//! The accounts of a heap of any layout as a whole.
ghost use Rattle.sh_whole.specs.Homes.{GathersPool, TellsAccounts, TellsTotals};
ghost use Rattle.c_handles.specs.Heaps.{heap_layout, heap_of};

use crate::heap::AnyHeap;
use sh_core::Accounts;
use sh_gather::Totals;
use sh_whole::{NotTold, gather_pool, pool_accounts, pool_totals};
use std::alloc::Global;

impl AnyHeap {
    /// Joins all passes in one, which is then the only pass of the heap and is back in a pool slot. Refused as `Away`
    /// if a pass is taken or lost: then each pass that this call took is back in a pool slot. Refused as `Memory` if
    /// memory is refused.
    pub fn gather(&self, alloc: Global) -> Result<(), NotTold>
        ensures { GathersPool (heap_of self.now) result }
    {
        match self {
            AnyHeap::Wide(share) => gather_pool(alloc, share.pool()),
            AnyHeap::Tagged(share) => gather_pool(alloc, share.pool()),
            AnyHeap::Deep(share) => gather_pool(alloc, share.pool()),
            AnyHeap::Tiny(share) => gather_pool(alloc, share.pool()),
        }
    }

    /// The accounts of a shard's page, by the pass that `gather` left in its pool slot. Refused as `Away` if that pass
    /// was taken or there is none, and as `NoPage` if the heap has no such page.
    pub fn accounts(&self, shard: u32, page: u32) -> Result<Accounts, NotTold>
        ensures { TellsAccounts (heap_layout self.now) (heap_of self.now) shard page result }
    {
        match self {
            AnyHeap::Wide(share) => pool_accounts(share.pool(), shard, page),
            AnyHeap::Tagged(share) => pool_accounts(share.pool(), shard, page),
            AnyHeap::Deep(share) => pool_accounts(share.pool(), shard, page),
            AnyHeap::Tiny(share) => pool_accounts(share.pool(), shard, page),
        }
    }

    /// The sums over all pages, by the pass that `gather` left in its pool slot. Refused as `Away` if that pass was
    /// taken or there is none.
    pub fn totals(&self) -> Result<Totals, NotTold>
        ensures { TellsTotals (heap_layout self.now) (heap_of self.now) result }
    {
        match self {
            AnyHeap::Wide(share) => pool_totals(share.pool()),
            AnyHeap::Tagged(share) => pool_totals(share.pool()),
            AnyHeap::Deep(share) => pool_totals(share.pool()),
            AnyHeap::Tiny(share) => pool_totals(share.pool()),
        }
    }
}
