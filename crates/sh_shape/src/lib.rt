//! The shape of a heap: how many shards, segments and passes it has, within which limits, and which layouts it fits.
//! The crate also has the classes of slots, and the place of each word.
//!
//! All words of a heap are in one list. A page has 195 of them at a fixed offset, by its number over the whole heap:
//!
//! ```text
//! page 0 | page 1 | .. | owner word, bell of shard 0 | owner word, bell of shard 1 | ..
//! page:    class, head, page link, 48 states, 48 links, 48 lengths, 48 payload words
//! ```
//!
//! Each class of slots divides the same 48 payload words: 48 slots of 1 word, or 3 of 16.
#![tactic(auto)]

pub mod classes;
pub mod laws;
pub mod places;
pub mod rooms;
pub mod shape;

pub use classes::{CLASS_COUNT, class_of, slots, width};
pub use laws::{place_laws, slots_fit_page};
pub use places::{
    FIRST_LINK, FIRST_STATE, PAGE_WORDS, PAYLOAD_WORDS, Place, SEGMENT_PAGES, SLOT_PLACES,
};
pub use shape::{Shape, fits};
