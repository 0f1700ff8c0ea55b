//! Keys: a place of the heap and a generation, packed into one number that is never used again. A layout says how many
//! bits each part has; the laws of packing are proved once, for every layout.
//!
//! The parts of a key are the digits of a number, the generation first. So the keys of a layout are consecutive numbers
//! from its first key on, and to unpack one takes a remainder and a division for each part:
//!
//! ```text
//! key = ((generation * shards + shard) * pages + page) * 64 + slot      shards, pages: powers of two, by the layout
//! tagged      [ tag: 8 bits | 0000 | key: 52 bits ]                      `Tagged` leaves room for a caller's tag
//! ```
#![tactic(auto)]

pub mod laws;
pub mod layout;
pub mod layouts;
pub mod parts;

pub use laws::{packing_laws, tagged_keys_fit};
pub use layout::KeyLayout;
pub use layouts::{Deep, Tagged, Tiny, Wide};
pub use parts::Parts;
