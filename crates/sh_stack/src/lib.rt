//! Exchange stacks over numbered items, which are the slots of a page or the pages of a shard.
//!
//! A stack has a word for its top, and each item has a word for its link. An item is put by one swap of the top with
//! the word that names the item. Only then does the item store its link, which says what the swap found. The whole
//! stack is taken by one swap of the top with 0, and then followed link by link.
//!
//! ```text
//! put 7:   top -> 5 -> 2        the swap finds 5, and leaves 7
//!          top -> 7 .. 5 -> 2   the link of 7 is not written yet: a reader of the stack stops there
//!          top -> 7 -> 5 -> 2   7 stores its link
//! ```
#![tactic(auto)]

pub mod link;
pub mod top;

pub use link::{Link, link_item};
pub use top::{TOP_NONE, link_over, top_item, top_word};
