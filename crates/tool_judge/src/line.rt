//! The answers to a pass, with their times.
use history_timed::Span;
use sh_value::Value;

/// An answer on a key.
#[derive(Drop, Debug, PartialEq, Eq)]
pub enum Told {
    /// The value was inserted.
    Inserted(Value),
    /// A hold was got. It has the value, if that was read.
    Got(Option<Value>),
    /// The value was seen: a call returned it, and left no hold.
    Seen(Value),
    /// The key names no present value.
    Gone,
    /// The key has the greatest number of holds.
    Crowded,
    /// The key was removed.
    Removed,
    /// The key was marked by hand: it was removed, by this pass or by one that marked it before.
    Marked,
    /// A hold was released.
    Released,
}

/// One line of a pass's log.
#[derive(Drop, Debug, PartialEq, Eq)]
pub struct Line {
    /// The number of the pass that called.
    pub pass: u32,
    /// The key.
    pub key: u64,
    /// The times of the call: a moment before it began, and one after it returned.
    pub times: Span,
    /// The answer.
    pub told: Told,
}
