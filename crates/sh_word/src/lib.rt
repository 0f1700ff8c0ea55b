#![tactic(auto)]
//! State words.
//!
//! Each slot of the heap has one word of 64 bits that says what its state is. Passes change the word by single
//! operations. A [`State`] is what a word says, and states and words are one to one.
//!
//! ```text
//! bit  63         32    31        30      29               0
//!     [ generation ][ marked ][ present ][ passes on the slot ]
//! ```

pub mod laws;
mod slot_state;
#[cfg(test)]
mod tests;

pub use slot_state::{COUNT_LIMIT, Kind, MARK_BIT, PRESENT_BIT, State};
