//! What keys and names of pages and slots name.
ghost use Rattle.std.specs.Prelude.{◌≡◌, ◌+◌, ◌*◌, ◌<◌, nat_lt, ◌&&◌, Some};
ghost use Rattle.sh_step.specs.Plans.{plan_of};
ghost use Rattle.sh_shape.specs.Places.{all_pages, pages_of, slot_places};
ghost use Rattle.sh_step.specs.Moves.{has_place, place_named, page_named, slot_named};

use crate::{PageName, SlotName};
use sh_bell::{local_of, shard_of_page};
use sh_key::{KeyLayout, Parts};
use sh_shape::{SLOT_PLACES, Shape};
use sh_slots::{KeyRef, SlotRef};

// Whether the shape has the place of a key of these parts.
fn has_place(shape: &Shape, parts: &Parts) -> bool
    ensures { result ≡ has_place shape.now parts.now }
{
    parts.shard < shape.shards() && parts.page < shape.pages() && parts.slot < SLOT_PLACES
}

// Whether the shape has a page with this name.
fn has_page(shape: &Shape, shard: u64, page: u64) -> bool
    ensures { result ≡ (nat_lt shard shape.now.shards && nat_lt page (pages_of shape.now)) }
{
    shard < u64::from(shape.shards()) && page < u64::from(shape.pages())
}

// The number of that page over the whole heap.
fn number_of_page(shape: &Shape, shard: u64, page: u64) -> u64
    requires shard { shard < shape.now.shards }
    requires page { page < pages_of shape.now }
    ensures { result ≡ shard * pages_of shape.now + page }
{
    let _known = (shape.shards(), shape.pages());
    u64::from(shape.page_number(shard as u32, page as u32))
}

/// What the key names, if it is a key of the layout and names a place of the shape.
pub fn place_of_key<L: KeyLayout>(shape: &Shape, key: u64) -> Option<KeyRef>
    ensures { result ≡ place_named (plan_of L.layout shape.now) key }
{
    let parts = L::unpack(key)?;
    if has_place(shape, &parts) {
        Some(KeyRef {
            page: u64::from(shape.page_number(parts.shard, parts.page)),
            slot: u64::from(parts.slot),
            generation: parts.generation,
        })
    } else {
        None
    }
}

/// The number over the whole heap of the page with that name, if the shape has it.
#[tactic(auto, unfolding(crate::specs::Plans::page_number))]
pub fn page_of_name<L: KeyLayout>(shape: &Shape, name: PageName) -> Option<u64>
    ensures { result ≡ page_named (plan_of L.layout shape.now) name }
{
    if has_page(shape, name.shard, name.page) {
        Some(number_of_page(shape, name.shard, name.page))
    } else {
        None
    }
}

/// The slot with that name, if the shape has it.
#[tactic(auto, unfolding(crate::specs::Plans::page_number))]
pub fn slot_of_name<L: KeyLayout>(shape: &Shape, name: SlotName) -> Option<SlotRef>
    ensures { result ≡ slot_named (plan_of L.layout shape.now) name }
{
    if has_page(shape, name.shard, name.page) && name.slot < u64::from(SLOT_PLACES) {
        Some(SlotRef {
            page: number_of_page(shape, name.shard, name.page),
            slot: name.slot,
        })
    } else {
        None
    }
}

/// The key of the name of a slot of the heap: unpacking the key gives the name.
#[tactic(auto, using(crate::proofs::KeyLaws::parts_in_range), unfolding(crate::specs::Plans::keys_of))]
pub fn key_of_name<L: KeyLayout>(shape: &Shape, name: KeyRef) -> u64
    requires page { name.page < all_pages shape.now }
    requires slot { name.slot < slot_places }
    requires names { (plan_of L.layout shape.now).keys.unpack ((plan_of L.layout shape.now).keys.pack name)
        ≡ Some name }
    ensures { result ≡ (plan_of L.layout shape.now).keys.pack name }
{
    let pages = u64::from(shape.pages());
    L::pack(Parts {
        generation: name.generation,
        shard: shard_of_page(pages, name.page) as u32,
        page: local_of(pages, name.page) as u32,
        slot: name.slot as u32,
    })
}
