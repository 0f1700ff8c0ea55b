//! The outcome of an event.
use sh_history::Entry;

/// The outcome of an event.
#[derive(Drop, Debug, PartialEq, Eq)]
pub enum Outcome {
    /// The step was done, and decided nothing.
    Moved,
    /// The step was done, and this joined the log.
    Replied(Entry),
    /// There is no such pass, or the action's condition does not hold: nothing changed.
    Skipped,
}
