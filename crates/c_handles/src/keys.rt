//! The live keys of a heap of any layout, one after the other.
ghost use Rattle.sh_whole.specs.Homes.{TellsNextKey};
ghost use Rattle.c_handles.specs.Heaps.{heap_layout, heap_of};

use crate::heap::AnyHeap;
use sh_pass::NextKey;
use sh_whole::{NotTold, pool_next_key};

impl AnyHeap {
    /// The first live key from a place on, by the pass that `gather` left in its pool slot. `None` if no key from there
    /// on is live. Refused as `Away` if that pass was taken or there is none.
    pub fn next_key(&self, from: u64) -> Result<Option<NextKey>, NotTold>
        ensures { TellsNextKey (heap_layout self.now) (heap_of self.now) from result }
    {
        match self {
            AnyHeap::Wide(share) => pool_next_key(share.pool(), from),
            AnyHeap::Tagged(share) => pool_next_key(share.pool(), from),
            AnyHeap::Deep(share) => pool_next_key(share.pool(), from),
            AnyHeap::Tiny(share) => pool_next_key(share.pool(), from),
        }
    }
}
