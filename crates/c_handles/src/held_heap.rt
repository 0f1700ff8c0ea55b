//! What a heap's handle holds: a heap of a fixed shape in any layout, or one that grows.
ghost use Rattle.std.specs.Prelude.{◌≡◌, IfSome, MatchResult};
ghost use Rattle.sh_value.specs.declared.refusal.Refusal.TheVariants.{Memory};
ghost use Rattle.c_handles.specs.Heaps.{OpensFor, OpensShaped, layout_named};
ghost use Rattle.c_handles.specs.HeldHeaps.{HasChunks, HeldBegins, OpensFixed, OpensGrown, passes_of};

use crate::heap::{AnyHeap, LayoutName};
use crate::held_pass::HeldPass;
use sh_grown::GrowingShare;
use sh_value::Refusal;
use std::alloc::Global;

/// A heap of a fixed shape in any layout, or a growing heap, as a share of it.
#[derive(Drop)]
pub enum HeldHeap {
    /// Of a fixed shape.
    Fixed(AnyHeap),
    /// One that grows.
    Growing(GrowingShare),
}

impl HeldHeap {
    /// Opens a heap of this layout and of a shape with these numbers, with each pass in its pool slot. Refused as
    /// `BadShape` exactly if there is no such shape or it does not fit the layout, and as `Memory`.
    pub fn open_shaped(
        alloc: Global,
        layout: LayoutName,
        shards: u32,
        segments: u32,
        passes: u32,
    ) -> Result<HeldHeap, Refusal>
        ensures { OpensFixed (OpensShaped (layout_named layout)
            (record { shards = shards; segments = segments; passes = passes })) result }
    {
        let heap = AnyHeap::open_shaped(alloc, layout, shards, segments, passes)?;
        Ok(HeldHeap::Fixed(heap))
    }

    /// The same for the least shape with room for `values` values of `words` words in the shard of each owner. Refused
    /// as `BadShape` if no shape of the layout has the room.
    pub fn open_for(
        alloc: Global,
        layout: LayoutName,
        owners: u32,
        values: u64,
        words: u32,
        passes: u32,
    ) -> Result<HeldHeap, Refusal>
        ensures { OpensFixed (OpensFor (layout_named layout) owners values words passes) result }
    {
        let heap = AnyHeap::open_for(alloc, layout, owners, values, words, passes)?;
        Ok(HeldHeap::Fixed(heap))
    }

    /// Opens a growing heap of at most `chunks` chunks, from 1 to 256. Its first chunk has room for `values` values of
    /// `words` words in the shard of each owner. Refused as `BadShape` if a number is outside its limits or no chunk
    /// has the room, and as `Memory`.
    pub fn open_growing(
        alloc: Global,
        owners: u32,
        values: u64,
        words: u32,
        passes: u32,
        chunks: u32,
    ) -> Result<HeldHeap, Refusal>
        ensures { OpensGrown owners values words passes chunks result }
    {
        let (words, chunks) = (words as usize, chunks as usize);
        let growing = GrowingShare::open_for(alloc, owners, values, words, passes, chunks)?;
        Ok(HeldHeap::Growing(growing))
    }

    /// One share more of the same heap. Refused as `Memory` if no more can be counted, which is after 2^63.
    pub fn share(&self) -> Result<HeldHeap, Refusal>
        ensures { MatchResult result (λ other. other ≡ self.now) (λ why. why ≡ Memory) }
    {
        match self {
            HeldHeap::Fixed(heap) => Ok(HeldHeap::Fixed(heap.share()?)),
            HeldHeap::Growing(growing) => Ok(HeldHeap::Growing(growing.share()?)),
        }
    }

    /// The number of passes of the heap, taken or not.
    pub fn passes(&self) -> u64
        ensures { result ≡ passes_of self.now }
    {
        match self {
            HeldHeap::Fixed(heap) => heap.passes(),
            HeldHeap::Growing(growing) => growing.heap().passes() as u64,
        }
    }

    /// How many chunks of the heap are open. A heap of a fixed shape is one.
    pub fn chunks(&self) -> u64
        ensures { HasChunks self.now result }
    {
        match self {
            HeldHeap::Fixed(_) => 1,
            HeldHeap::Growing(growing) => growing.heap().chunks() as u64,
        }
    }

    /// Takes a free pass, or claims a caller. `None` if it finds each pool slot empty. Refused as `Memory` if a caller
    /// is refused memory, or if no more shares of a growing heap can be counted.
    pub fn take(&self, alloc: Global) -> Result<Option<HeldPass>, Refusal>
        ensures { MatchResult result (λ taken. IfSome taken (HeldBegins self.now)) (λ why. why ≡ Memory) }
    {
        match self {
            HeldHeap::Fixed(heap) => Ok(heap.take()),
            HeldHeap::Growing(growing) => match growing.claim(alloc) {
                Ok(caller) => Ok(Some(HeldPass::Growing(caller))),
                Err(Refusal::Memory) => Err(Refusal::Memory),
                Err(_) => Ok(None),
            },
        }
    }
}
