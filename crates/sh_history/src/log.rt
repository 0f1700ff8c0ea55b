//! What a caller knows of an entry.
use crate::Entry;

/// An entry of a caller's own log. It is known, or it is a get by a pass of a key, whose value was not read yet. Only
/// contracts speak of logs: no value of this type is made.
#[derive(Drop, Debug, PartialEq, Eq)]
pub enum LogEntry {
    /// The entry.
    Known(Entry),
    /// A `Got` by the pass, of the key, whose value is not read yet.
    Unread(u32, u64),
}
