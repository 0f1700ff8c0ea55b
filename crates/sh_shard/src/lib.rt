//! Owners: a pass that owns a shard inserts into its pages.
//!
//! An owner keeps the free slots of its pages in private lists, and collects what others put on the pages' stacks. Its
//! shard's bell reports the pages that it armed.
//!
//! ```text
//! insert    1. the page at the front of the queue of the value's class has a slot: fill it
//!           2. each other page of the queue: collect what others put there. A page that stays empty is armed, and
//!              goes to the queue of full pages
//!           3. the bell: each armed page on which a slot was put since goes back to its class
//!           4. the lowest blank page, or the lowest page of another class of which all slots are the owner's
//!           5. the first page of the next segment, which takes memory
//! ```
//!
//! `Pages` does the steps on the pages of a shard and keeps their lists; `Shard` keeps the queues over it.
//! `src/pages` has a file for each kind of call with what it does to the pages. `src/shard` has a file of the same name
//! with the call itself, which also keeps the queues.
#![tactic(auto)]

mod borrowing;
pub mod pages;
pub mod shard;

pub use borrowing::{Pages, Shard};
pub use pages::PagesOn;
pub use shard::ShardOn;
