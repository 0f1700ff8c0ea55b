//! Heaps of any layout.
ghost use Rattle.std.specs.Prelude.{◌≡◌, ◌<◌, IfSome, MatchOption, MatchResult};
ghost use Rattle.sh_shape.specs.Rooms.{IsLeastRoomy, NoneRoomy};
ghost use Rattle.sh_value.specs.declared.refusal.Refusal.TheVariants.{BadShape, Memory};
ghost use Rattle.sh_pool.specs.PoolSlots.{OpensPool};
ghost use Rattle.c_handles.specs.Heaps.{AnyOpens, OpensShaped, OpensFor, AnyBegins};
ghost use Rattle.c_handles.specs.Heaps.{heap_of, layout_named, layout_number};
ghost use Rattle.c_handles.specs.Members.{Begins};

use crate::held_pass::HeldPass;
use sh_key::{Deep, KeyLayout, Tagged, Tiny, Wide};
use sh_member::Member;
use sh_pool::{Pool, PoolSlot, Share, take_pass};
use sh_shape::Shape;
use sh_value::Refusal;
use std::alloc::Global;

/// A layout of keys, by its name.
#[derive(Clone, Copy, Debug, PartialEq, Eq)]
pub enum LayoutName {
    /// 256 shards of 1,024 pages.
    Wide,
    /// 64 shards of 256 pages, with room for 8 bits of the caller's in a key.
    Tagged,
    /// 64 shards of 1,048,576 pages.
    Deep,
    /// 4 shards of 16 pages, whose slots retire after 3 values, for tests.
    Tiny,
}

impl LayoutName {
    /// The layout of this number, from 0 to 3: `Wide`, `Tagged`, `Deep`, `Tiny`.
    pub fn numbered(number: u32) -> Option<LayoutName>
        ensures { MatchOption result (3 < number) (λ name. layout_number name ≡ number) }
    {
        match number {
            0 => Some(LayoutName::Wide),
            1 => Some(LayoutName::Tagged),
            2 => Some(LayoutName::Deep),
            3 => Some(LayoutName::Tiny),
            _ => None,
        }
    }
}

/// A heap of any layout with its passes, as a share of it.
#[derive(Drop)]
pub enum AnyHeap {
    /// Of layout `Wide`.
    Wide(Share<Wide>),
    /// Of layout `Tagged`.
    Tagged(Share<Tagged>),
    /// Of layout `Deep`.
    Deep(Share<Deep>),
    /// Of layout `Tiny`.
    Tiny(Share<Tiny>),
}

// A heap of this shape, with each pass in its pool slot.
fn opened<L: KeyLayout>(alloc: Global, shape: Shape) -> Result<Share<L>, Refusal>
    ensures { OpensPool L.layout shape result }
{
    let pool = Pool::open(alloc, shape)?;
    Share::new(alloc, pool)
}

// Takes a free pass, which owns no shard.
fn taken<L: KeyLayout>(share: &Share<L>) -> Option<(Member<L, Share<L>>, PoolSlot<L>)>
    ensures { IfSome result (λ r. Begins share.now r.0 r.1) }
{
    let (pass, pool_slot) = take_pass(share)?;
    Some((Member::of(pass), pool_slot))
}

// The least shape of the layout with this room.
fn roomy(
    layout: LayoutName,
    owners: u32,
    values: u64,
    words: u32,
    passes: u32,
) -> Result<Shape, Refusal>
    ensures { MatchResult result (IsLeastRoomy (layout_named layout) owners values words passes)
        (λ refusal. (refusal ≡ BadShape) × NoneRoomy (layout_named layout) owners values words passes) }
{
    let words = words as usize;
    match layout {
        LayoutName::Wide => Shape::with_room::<Wide>(owners, values, words, passes),
        LayoutName::Tagged => Shape::with_room::<Tagged>(owners, values, words, passes),
        LayoutName::Deep => Shape::with_room::<Deep>(owners, values, words, passes),
        LayoutName::Tiny => Shape::with_room::<Tiny>(owners, values, words, passes),
    }
}

impl AnyHeap {
    /// Opens a heap of this layout and shape, with each pass in its pool slot. Refused as `BadShape` exactly if the
    /// shape does not fit the layout, and as `Memory` if memory is refused.
    pub fn open(alloc: Global, layout: LayoutName, shape: Shape) -> Result<AnyHeap, Refusal>
        ensures { AnyOpens layout shape result }
    {
        match layout {
            LayoutName::Wide => Ok(AnyHeap::Wide(opened(alloc, shape)?)),
            LayoutName::Tagged => Ok(AnyHeap::Tagged(opened(alloc, shape)?)),
            LayoutName::Deep => Ok(AnyHeap::Deep(opened(alloc, shape)?)),
            LayoutName::Tiny => Ok(AnyHeap::Tiny(opened(alloc, shape)?)),
        }
    }

    /// The same for a shape with these numbers. Refused as `BadShape` also if there is no such shape.
    pub fn open_shaped(
        alloc: Global,
        layout: LayoutName,
        shards: u32,
        segments: u32,
        passes: u32,
    ) -> Result<AnyHeap, Refusal>
        ensures { OpensShaped (layout_named layout) (record { shards = shards; segments = segments; passes = passes })
            result }
    {
        let shape = Shape::large(shards, segments, passes)?;
        AnyHeap::open(alloc, layout, shape)
    }

    /// The same for the least shape with room for `values` values of `words` words in the shard of each owner. Refused
    /// as `BadShape` if no shape of the layout has the room.
    pub fn open_for(
        alloc: Global,
        layout: LayoutName,
        owners: u32,
        values: u64,
        words: u32,
        passes: u32,
    ) -> Result<AnyHeap, Refusal>
        ensures { OpensFor (layout_named layout) owners values words passes result }
    {
        let shape = roomy(layout, owners, values, words, passes)?;
        AnyHeap::open(alloc, layout, shape)
    }

    /// One share more of the same heap. Refused as `Memory` if no more can be counted, which is after 2^63.
    pub fn share(&self) -> Result<AnyHeap, Refusal>
        ensures { MatchResult result (λ other. other ≡ self.now) (λ why. why ≡ Memory) }
    {
        match self {
            AnyHeap::Wide(share) => Ok(AnyHeap::Wide(share.share()?)),
            AnyHeap::Tagged(share) => Ok(AnyHeap::Tagged(share.share()?)),
            AnyHeap::Deep(share) => Ok(AnyHeap::Deep(share.share()?)),
            AnyHeap::Tiny(share) => Ok(AnyHeap::Tiny(share.share()?)),
        }
    }

    /// The number of passes of the heap, taken or not.
    pub fn passes(&self) -> u64
        ensures { result ≡ (heap_of self.now).shape.passes }
    {
        match self {
            AnyHeap::Wide(share) => share.pool().pool_slots() as u64,
            AnyHeap::Tagged(share) => share.pool().pool_slots() as u64,
            AnyHeap::Deep(share) => share.pool().pool_slots() as u64,
            AnyHeap::Tiny(share) => share.pool().pool_slots() as u64,
        }
    }

    /// Takes a free pass. `None` if it finds each pool slot empty.
    pub fn take(&self) -> Option<HeldPass>
        ensures { IfSome result (AnyBegins self.now) }
    {
        match self {
            AnyHeap::Wide(share) => {
                let (member, pool_slot) = taken(share)?;
                Some(HeldPass::Wide(member, pool_slot))
            }
            AnyHeap::Tagged(share) => {
                let (member, pool_slot) = taken(share)?;
                Some(HeldPass::Tagged(member, pool_slot))
            }
            AnyHeap::Deep(share) => {
                let (member, pool_slot) = taken(share)?;
                Some(HeldPass::Deep(member, pool_slot))
            }
            AnyHeap::Tiny(share) => {
                let (member, pool_slot) = taken(share)?;
                Some(HeldPass::Tiny(member, pool_slot))
            }
        }
    }
}
