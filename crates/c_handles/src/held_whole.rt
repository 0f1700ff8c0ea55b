//! What is known of the heap of a handle as a whole. A growing heap is not: each of these calls is refused as `Away`.
ghost use Rattle.sh_whole.specs.Homes.{GathersPool, TellsAccounts, TellsNextKey, TellsTotals};
ghost use Rattle.c_handles.specs.Heaps.{heap_layout, heap_of};
ghost use Rattle.c_handles.specs.HeldHeaps.{OnWhole};

use crate::held_heap::HeldHeap;
use sh_core::Accounts;
use sh_gather::Totals;
use sh_pass::NextKey;
use sh_whole::NotTold;
use std::alloc::Global;

impl HeldHeap {
    /// Joins all passes in one, which is then the only pass of the heap and is back in a pool slot. Refused as `Away`
    /// or `Memory`.
    pub fn gather(&self, alloc: Global) -> Result<(), NotTold>
        ensures { OnWhole (λ h. GathersPool (heap_of h)) self.now result }
    {
        match self {
            HeldHeap::Fixed(heap) => heap.gather(alloc),
            HeldHeap::Growing(_) => Err(NotTold::Away),
        }
    }

    /// The accounts of a shard's page, by the pass that `gather` left in its pool slot. Refused as `Away` or `NoPage`.
    pub fn accounts(&self, shard: u32, page: u32) -> Result<Accounts, NotTold>
        ensures { OnWhole (λ h. TellsAccounts (heap_layout h) (heap_of h) shard page) self.now result }
    {
        match self {
            HeldHeap::Fixed(heap) => heap.accounts(shard, page),
            HeldHeap::Growing(_) => Err(NotTold::Away),
        }
    }

    /// The sums over all pages, by the pass that `gather` left in its pool slot. Refused as `Away`.
    pub fn totals(&self) -> Result<Totals, NotTold>
        ensures { OnWhole (λ h. TellsTotals (heap_layout h) (heap_of h)) self.now result }
    {
        match self {
            HeldHeap::Fixed(heap) => heap.totals(),
            HeldHeap::Growing(_) => Err(NotTold::Away),
        }
    }

    /// The first live key from a place on, by the pass that `gather` left in its pool slot. `None` if no key from there
    /// on is live. Refused as `Away`.
    pub fn next_key(&self, from: u64) -> Result<Option<NextKey>, NotTold>
        ensures { OnWhole (λ h. TellsNextKey (heap_layout h) (heap_of h) from) self.now result }
    {
        match self {
            HeldHeap::Fixed(heap) => heap.next_key(from),
            HeldHeap::Growing(_) => Err(NotTold::Away),
        }
    }
}
