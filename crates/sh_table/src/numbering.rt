//! Where the table has the word of each place: words that a call looks at together lie side by side.
ghost use Rattle.std.specs.Prelude.{◌≡◌, ◌+◌, ◌*◌, ◌^◌, ◌<◌, ◌≤◌};
ghost use Rattle.sh_shape.specs.Places.{IsPlace, words_of};
ghost use Rattle.sh_table.specs.TableNumbers.{in_page, table_number};

use sh_shape::{Place, Shape};

/// How many words of a page are those of its slots: a state, a length, a payload word and a link for each place of a
/// slot. They begin at a multiple of 8 words, and so does each kind of them.
pub const BODY_WORDS: u32 = 192;

/// The number of the table's word at a place.
#[inline(always)]
#[tactic(auto, using(sh_shape::proofs::PlaceLaws::few_pages, crate::proofs::TableNumberLaws::numbers_are_words))]
pub fn table_number(shape: &Shape, place: Place) -> usize
    requires { IsPlace shape.now place }
    ensures is { result ≡ table_number shape.now place }
    ensures below { result < words_of shape.now }
{
    let pages = shape.shards() * shape.pages();
    match place {
        Place::Class(page) => behind_slots(pages, page),
        Place::Head(page) => behind_classes(pages, 2 * page),
        Place::PageLink(page) => behind_classes(pages, 2 * page + 1),
        Place::State(page, slot) => in_page(page, slot),
        Place::Length(page, slot) => in_page(page, 48 + slot),
        Place::Payload(page, i) => in_page(page, 96 + i),
        Place::Link(page, slot) => in_page(page, 144 + slot),
        Place::Owner(_) | Place::Bell(_) => shape.index(place),
    }
}

// The number of one of a page's words for its slots.
#[inline(always)]
fn in_page(page: u64, offset: u64) -> usize
    requires page { page < 2 ^ 24 }
    requires offset { offset < 192 }
    ensures { result ≡ in_page page offset }
{
    BODY_WORDS as usize * page as usize + offset as usize
}

// The number of a word behind those of all slots.
#[inline(always)]
fn behind_slots(pages: u32, offset: u64) -> usize
    requires pages { pages ≤ 2 ^ 24 }
    requires offset { offset < 2 ^ 24 }
    ensures { result ≡ 192 * pages + offset }
{
    BODY_WORDS as usize * pages as usize + offset as usize
}

// The number of a word behind the classes of all pages, which come after the words of slots.
#[inline(always)]
fn behind_classes(pages: u32, offset: u64) -> usize
    requires pages { pages ≤ 2 ^ 24 }
    requires offset { offset < 2 ^ 25 }
    ensures { result ≡ 193 * pages + offset }
{
    (BODY_WORDS as usize + 1) * pages as usize + offset as usize
}
