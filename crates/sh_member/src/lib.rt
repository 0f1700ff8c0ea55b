//! What passes and shards have in common: the trait `Reader`, and the type `Member`. `Reader` has the calls on keys
//! that a pass and the owner of a shard do alike: look, get, read, remove, release and receipts. Take, with, batches and
//! `remove_if` end what they begin, so that no hold is left behind; walks are by `next_live` and `next_held`. By
//! `next_own_key` an owner walks over its shard. A `ToldKey` goes to another thread with the receipt of its insert. A
//! `Member` is a pass or the shard that it owns: it adopts and leaves in place, as a handle needs which others hold by
//! its address. `src/member` has a file for each kind of its calls.
//!
//! A member is an enum with a variant for each of the two. A call that needs a shard is `NoShard` if it owns none.
//! Adopt and leave move the pass out of the place, and put back what it became, or the pass as it was if the call is
//! refused.
//!
//! ```text
//! with = look, your closure      take = get, read, remove, release
//! ```
#![tactic(auto)]

pub mod batches;
pub mod fetching;
pub mod member;
pub mod own_keys;
mod pass;
pub mod reader;
pub mod removing;
mod shard;
pub mod taking;
pub mod taking_into;
pub mod told_keys;
pub mod walking;

pub use member::{Member, Side};
pub use own_keys::next_own_key;
pub use reader::Reader;
pub use told_keys::{ToldKey, fetch_told, insert_told};
pub use walking::{NextHeld, NextLive};
