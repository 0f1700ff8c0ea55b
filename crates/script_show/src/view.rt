//! The view of a trace on a world: the words by their places, the parts of the passes, and the log. Pages are numbered
//! over the whole heap.
ghost use Rattle.std.specs.Prelude.{◌≡◌, true, position};
ghost use Rattle.sh_shape.specs.declared.places.Place.TheVariants.{Class, Head, State, Link, Payload};
ghost use Rattle.sh_shape.specs.Places.{IsPlace, pages_of};
ghost use Rattle.sh_bell.specs.Bell.{shard_of_page, local_of};
ghost use Rattle.script_show.specs.Views.{IsViewOf, has_place, word_seen, payload_at, page_over_heap, owns};
ghost use Rattle.script_show.specs.Views.{key_written};

use sh_bell::{local_of, shard_of_page};
use sh_core::World;
use sh_history::Entry;
use sh_key::{KeyLayout, Tagged};
use sh_shape::{PAYLOAD_WORDS, Place, SLOT_PLACES, Shape};
use sh_slots::SlotRef;
use sh_step::Part;

// The number of slots that a page has places for, and the number of its payload words.
const SLOTS: u64 = SLOT_PLACES as u64;

const PAYLOAD: u64 = PAYLOAD_WORDS as u64;

// Each key of layout `tagged` is below this.
const KEYS_END: u64 = 4_503_599_627_370_496;

// Whether the shape has the place.
fn has_place(shape: &Shape, place: Place) -> bool
    ensures is { result ≡ has_place shape.now place }
    ensures place { result ≡ true → IsPlace shape.now place }
{
    let shards = u64::from(shape.shards());
    let pages = shards * u64::from(shape.pages());
    match place {
        Place::Class(page) | Place::Head(page) | Place::PageLink(page) => page < pages,
        Place::State(page, slot) | Place::Link(page, slot) | Place::Length(page, slot) => {
            page < pages && slot < SLOTS
        }
        Place::Payload(page, i) => page < pages && i < PAYLOAD,
        Place::Owner(shard) | Place::Bell(shard) => shard < shards,
    }
}

// Whether the pass with this part owns the shard.
fn owns(part: &Part, shard: u64) -> bool
    ensures { result ≡ owns shard part.now }
{
    match part.owned() {
        Some(owned) => owned == shard,
        None => false,
    }
}

/// A world, as a trace looks at it.
#[derive(Clone, Copy)]
pub struct View<'a> {
    /// The numbers of shards, segments and passes.
    pub shape: Shape,
    /// What each pass has of its own.
    pub parts: &'a [Part],
    /// All replies so far.
    pub log: &'a [Entry],
    /// The tag of the keys, with layout `tagged`.
    pub tag: Option<u8>,
    words: &'a [u64],
}

impl<'a> View<'a> {
    /// A world, whose keys are written with this tag.
    pub fn of<L: KeyLayout>(world: &'a World<L>, tag: Option<u8>) -> View<'a>
        ensures { IsViewOf world.now tag result }
    {
        View {
            shape: world.shape(),
            parts: world.parts(),
            log: world.log(),
            tag,
            words: world.words(),
        }
    }

    /// The word at a place; 0 if the heap has no such place.
    pub fn word(&self, place: Place) -> u64
        ensures { result ≡ word_seen self.now place }
    {
        if has_place(&self.shape, place) {
            self.words
                .get(self.shape.index(place))
                .copied()
                .unwrap_or(0)
        } else {
            0
        }
    }

    /// The class word of a page.
    pub fn class_word(&self, page: u64) -> u64
        ensures { result ≡ word_seen self.now (Class page) }
    {
        self.word(Place::Class(page))
    }

    /// The head word of a page.
    pub fn head(&self, page: u64) -> u64
        ensures { result ≡ word_seen self.now (Head page) }
    {
        self.word(Place::Head(page))
    }

    /// The state word of a slot.
    pub fn state(&self, slot_ref: SlotRef) -> u64
        ensures { result ≡ word_seen self.now (State slot_ref.page slot_ref.slot) }
    {
        self.word(Place::State(slot_ref.page, slot_ref.slot))
    }

    /// The link word of a slot.
    pub fn link(&self, slot_ref: SlotRef) -> u64
        ensures { result ≡ word_seen self.now (Link slot_ref.page slot_ref.slot) }
    {
        self.word(Place::Link(slot_ref.page, slot_ref.slot))
    }

    /// A word of the value in a slot, by its number, in slots of this width.
    pub fn value_word(&self, slot_ref: SlotRef, width: u32, number: u64) -> u64
        ensures { result ≡ word_seen self.now (Payload slot_ref.page (payload_at slot_ref.slot width number)) }
    {
        let first = slot_ref.slot.saturating_mul(u64::from(width));
        self.word(Place::Payload(slot_ref.page, first.saturating_add(number)))
    }

    /// The shard of a page.
    pub fn shard_of(&self, page: u64) -> u64
        ensures { result ≡ shard_of_page (pages_of self.now.shape) page }
    {
        shard_of_page(u64::from(self.shape.pages()), page)
    }

    /// The number of a page in its shard.
    pub fn local_of(&self, page: u64) -> u64
        ensures { result ≡ local_of (pages_of self.now.shape) page }
    {
        local_of(u64::from(self.shape.pages()), page)
    }

    /// The number over the whole heap of a shard's page.
    pub fn over_heap(&self, shard: u64, page: u64) -> u64
        ensures { result ≡ page_over_heap self.now.shape shard page }
    {
        let pages = u64::from(self.shape.pages());
        shard.saturating_mul(pages).saturating_add(page)
    }

    /// The pass that owns a shard, if one does.
    pub fn owner_of(&self, shard: u64) -> Option<usize>
        ensures { result ≡ position (owns shard) self.now.parts.now }
    {
        self.parts.iter().position(|part| owns(part, shard))
    }

    /// A key as a script writes it.
    pub fn key(&self, key: u64) -> u64
        ensures { result ≡ key_written self.now.tag key }
    {
        let Some(tag) = self.tag else {
            return key;
        };
        if key < KEYS_END {
            Tagged::tag(key, tag)
        } else {
            key
        }
    }
}
