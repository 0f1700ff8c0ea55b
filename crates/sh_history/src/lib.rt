//! Histories of a heap: the replies that callers got, in order. A history is legal if a map with counted holds, whose
//! keys are never used again, gives it. `check` decides that, and names the first entry that is not allowed.
//!
//! The checker goes through the entries in order. Of each it looks up what those before it say of its key: the value
//! that it was inserted with, whether it was removed, and the holds. It keeps no index, so it is the definition in
//! code. `history_audit` reaches the same verdict from notes on the keys.
#![tactic(auto)]

pub mod checker;
pub mod entry;
pub mod law;
pub mod log;
pub mod look;

pub use checker::{Why, check};
pub use entry::Entry;
pub use law::{one_value_a_key, releases_are_got, removals_are_recorded, removed_once};
pub use log::LogEntry;
