//! Bells: how the owner of a shard learns that an empty slot was put on one of its pages.
//!
//! The owner arms a page: it sets the flag of the page's head word. The pass that next puts a slot there clears the
//! flag and, as it found it set, rings: it puts the page on the shard's bell. The bell is an exchange stack of pages by
//! their numbers in the shard.
#![tactic(auto)]

pub mod head;
pub mod page_numbers;

pub use head::{ARMED, head_word, is_armed, top_of};
pub use page_numbers::{local_of, named_over_heap, shard_of_page};
