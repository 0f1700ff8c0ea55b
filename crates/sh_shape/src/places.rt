//! The places of a heap's words: each place of the shape has the number of one word, and no two have the same.
ghost use Rattle.std.specs.Prelude.{◌≡◌, ◌+◌, ◌*◌, ◌^◌, ◌<◌, ◌≤◌};
ghost use Rattle.sh_shape.specs.Shape.{IsShape};
ghost use Rattle.sh_shape.specs.Places.{pages_of, all_pages, page_number, page_words, slot_places, payload_words};
ghost use Rattle.sh_shape.specs.Places.{IsPlace, number, words_of};

use crate::Shape;

/// How many pages a segment has.
pub const SEGMENT_PAGES: u32 = 8;

/// The number of slots for which a page has places.
pub const SLOT_PLACES: u32 = 48;

/// How many payload words a page has.
pub const PAYLOAD_WORDS: u32 = 48;

/// The offset of a page's states in its words: they come after its class, its head and its page link.
pub const FIRST_STATE: u32 = 3;

/// The offset of a page's links in its words: they come after its states, one for each place of a slot.
pub const FIRST_LINK: u32 = FIRST_STATE + SLOT_PLACES;

// The lengths come after the links, and the payload words after the lengths.
const FIRST_LENGTH: u32 = FIRST_LINK + SLOT_PLACES;

const FIRST_PAYLOAD: u32 = FIRST_LENGTH + SLOT_PLACES;

/// How many words a page has. They are its class, its head and its page link; a state, a link and a length for each
/// place of a slot; and the payload words.
pub const PAGE_WORDS: u32 = FIRST_PAYLOAD + PAYLOAD_WORDS;

/// The place of a word. A page is given by its number over the whole heap, as `Shape::page_number` returns it.
#[derive(Clone, Copy, Debug, PartialEq, Eq)]
pub enum Place {
    /// The class word of a page.
    Class(u64),
    /// The head word of a page: the top of its exchange stack, and whether it is armed.
    Head(u64),
    /// The link of a page in a bell.
    PageLink(u64),
    /// The state of a page's slot, from 0 to 47.
    State(u64, u64),
    /// The link of a page's slot in the page's exchange stack.
    Link(u64, u64),
    /// How many words the value in a page's slot has.
    Length(u64, u64),
    /// A payload word of a page, from 0 to 47.
    Payload(u64, u64),
    /// The owner word of a shard.
    Owner(u64),
    /// The bell of a shard.
    Bell(u64),
}

impl Shape {
    /// How many pages a shard has: 8 for each segment, at most 2^24.
    pub fn pages(&self) -> u32
        ensures pages { result ≡ pages_of self.now }
        ensures few { result ≤ 2 ^ 24 }
        ensures shape { IsShape self.now }
    {
        SEGMENT_PAGES * self.segments()
    }

    // How many pages all shards have together.
    #[tactic(auto, using(crate::proofs::PlaceLaws::few_pages))]
    fn all_pages(&self) -> u32
        ensures pages { result ≡ all_pages self.now }
        ensures few { result ≤ 2 ^ 24 }
        ensures shards { self.now.shards ≤ 2 ^ 21 }
    {
        self.shards() * self.pages()
    }

    /// The number of a shard's page over the whole heap.
    #[tactic(auto, using(crate::proofs::PlaceLaws::few_pages, crate::proofs::PlaceLaws::page_is_below))]
    pub fn page_number(&self, shard: u32, page: u32) -> u32
        requires shard { shard < self.now.shards }
        requires page { page < pages_of self.now }
        ensures is { result ≡ page_number self.now shard page }
        ensures below { result < all_pages self.now }
    {
        shard * self.pages() + page
    }

    /// How many words the heap has, at most 3,275,751,424.
    pub fn words(&self) -> u32
        ensures words { result ≡ words_of self.now }
        ensures few { result ≤ page_words * 2 ^ 24 + 2 ^ 22 }
    {
        PAGE_WORDS * self.all_pages() + 2 * self.shards()
    }

    /// The number of the word at a place of the heap.
    pub fn index(&self, place: Place) -> usize
        requires { IsPlace self.now place }
        ensures is { result ≡ number self.now place }
        ensures below { result < words_of self.now }
    {
        let pages = self.all_pages();
        match place {
            Place::Class(page) => in_page(page, 0),
            Place::Head(page) => in_page(page, 1),
            Place::PageLink(page) => in_page(page, 2),
            Place::State(page, slot) => in_page(page, u64::from(FIRST_STATE) + slot),
            Place::Link(page, slot) => in_page(page, u64::from(FIRST_LINK) + slot),
            Place::Length(page, slot) => in_page(page, u64::from(FIRST_LENGTH) + slot),
            Place::Payload(page, i) => in_page(page, u64::from(FIRST_PAYLOAD) + i),
            Place::Owner(shard) => after_pages(pages, shard),
            Place::Bell(shard) => after_pages(pages, shard) + 1,
        }
    }

    /// The number of a page's class word.
    pub fn class_at(&self, shard: u32, page: u32) -> usize
        requires shard { shard < self.now.shards }
        requires page { page < pages_of self.now }
        ensures is { result ≡ number self.now (Place.Class (page_number self.now shard page)) }
        ensures below { result < words_of self.now }
    {
        self.index(Place::Class(u64::from(self.page_number(shard, page))))
    }

    /// The number of a page's head word.
    pub fn head_at(&self, shard: u32, page: u32) -> usize
        requires shard { shard < self.now.shards }
        requires page { page < pages_of self.now }
        ensures is { result ≡ number self.now (Place.Head (page_number self.now shard page)) }
        ensures below { result < words_of self.now }
    {
        self.index(Place::Head(u64::from(self.page_number(shard, page))))
    }

    /// The number of a page's link.
    pub fn page_link_at(&self, shard: u32, page: u32) -> usize
        requires shard { shard < self.now.shards }
        requires page { page < pages_of self.now }
        ensures is { result ≡ number self.now (Place.PageLink (page_number self.now shard page)) }
        ensures below { result < words_of self.now }
    {
        self.index(Place::PageLink(u64::from(self.page_number(shard, page))))
    }

    /// The number of the state word of a page's slot, from 0 to 47.
    pub fn state_at(&self, shard: u32, page: u32, slot: u32) -> usize
        requires shard { shard < self.now.shards }
        requires page { page < pages_of self.now }
        requires slot { slot < slot_places }
        ensures is { result ≡ number self.now (Place.State (page_number self.now shard page) slot) }
        ensures below { result < words_of self.now }
    {
        self.index(Place::State(u64::from(self.page_number(shard, page)), u64::from(slot)))
    }

    /// The number of the link of a page's slot, from 0 to 47.
    pub fn link_at(&self, shard: u32, page: u32, slot: u32) -> usize
        requires shard { shard < self.now.shards }
        requires page { page < pages_of self.now }
        requires slot { slot < slot_places }
        ensures is { result ≡ number self.now (Place.Link (page_number self.now shard page) slot) }
        ensures below { result < words_of self.now }
    {
        self.index(Place::Link(u64::from(self.page_number(shard, page)), u64::from(slot)))
    }

    /// The number of the length word of a page's slot, from 0 to 47.
    pub fn length_at(&self, shard: u32, page: u32, slot: u32) -> usize
        requires shard { shard < self.now.shards }
        requires page { page < pages_of self.now }
        requires slot { slot < slot_places }
        ensures is { result ≡ number self.now (Place.Length (page_number self.now shard page) slot) }
        ensures below { result < words_of self.now }
    {
        self.index(Place::Length(u64::from(self.page_number(shard, page)), u64::from(slot)))
    }

    /// The number of a page's payload word, from 0 to 47.
    pub fn payload_at(&self, shard: u32, page: u32, i: u32) -> usize
        requires shard { shard < self.now.shards }
        requires page { page < pages_of self.now }
        requires i { i < payload_words }
        ensures is { result ≡ number self.now (Place.Payload (page_number self.now shard page) i) }
        ensures below { result < words_of self.now }
    {
        self.index(Place::Payload(u64::from(self.page_number(shard, page)), u64::from(i)))
    }

    /// The number of a shard's owner word.
    pub fn owner_at(&self, shard: u32) -> usize
        requires { shard < self.now.shards }
        ensures is { result ≡ number self.now (Place.Owner shard) }
        ensures below { result < words_of self.now }
    {
        self.index(Place::Owner(u64::from(shard)))
    }

    /// The number of a shard's bell.
    pub fn bell_at(&self, shard: u32) -> usize
        requires { shard < self.now.shards }
        ensures is { result ≡ number self.now (Place.Bell shard) }
        ensures below { result < words_of self.now }
    {
        self.index(Place::Bell(u64::from(shard)))
    }
}

// The number of a page's word.
fn in_page(page: u64, offset: u64) -> usize
    requires page { page < 2 ^ 24 }
    requires offset { offset < page_words }
    ensures is { result ≡ page_words * page + offset }
{
    PAGE_WORDS as usize * page as usize + offset as usize
}

// The number of the first of a shard's two words, which come after the words of all pages.
fn after_pages(pages: u32, shard: u64) -> usize
    requires pages { pages ≤ 2 ^ 24 }
    requires shard { shard < 2 ^ 21 }
    ensures is { result ≡ page_words * pages + 2 * shard }
    ensures few { result < page_words * 2 ^ 24 + 2 ^ 22 }
{
    PAGE_WORDS as usize * pages as usize + 2 * shard as usize
}
