//! What a step decides.
use sh_value::Value;

/// The reply of a step to the pass that did it. As the reply joins the log, it gets the pass's number and, for a `Got`,
/// the value, which is the words in the slot.
#[derive(Drop, Debug, PartialEq, Eq)]
pub enum Reply {
    /// The value was inserted under this key.
    Insert(u64, Value),
    /// It has a hold on the key.
    Got(u64),
    /// The key names no present value.
    Gone(u64),
    /// The key has as many holds as it may have.
    Crowded(u64),
    /// The key was removed.
    Removed(u64),
    /// A hold on the key was released.
    Released(u64),
    /// The key has this value.
    Seen(u64, Value),
}
