//! The free slots that the owner of a page keeps for itself, as two lists, and the slot at which it continues reading
//! the page's stack.
//!
//! ```text
//! free     1, 4       an insert takes its slot here
//! local    2, 0       slots that the owner freed itself; they become `free` when that is empty
//! cursor   5          of what others put on the page, the slot that is read next
//! ```
#![tactic(auto)]

pub mod lists;

pub use lists::PageLists;
