//! The faults that a run may find.
use sh_value::Refusal;
use thiserror::Error;

/// What a call asked of the heap.
#[derive(Clone, Copy, Debug, PartialEq, Eq)]
pub enum Call {
    /// A heap, with its passes.
    Open,
    /// A hold.
    Get,
    /// The value of a hold.
    Read,
    /// The end of a key.
    Remove,
    /// The end of a hold.
    Release,
    /// A shard.
    Adopt,
    /// A key for a value.
    Insert,
    /// The end of owning a shard.
    Leave,
    /// What a receipt covers.
    Heed,
    /// The next live key.
    Walk,
}

/// Something that no heap may do.
#[derive(Clone, Copy, Debug, PartialEq, Eq, Error)]
pub enum Wrong {
    /// A call was refused for a reason that is impossible there.
    #[error("pass {0} was refused {1:?} as {2:?}, which cannot be")]
    Refused(u32, Call, Refusal),
    /// The first step by hand was not done, though its condition held.
    #[error("pass {0} could not begin {1:?} by hand")]
    Unbegun(u32, Call),
    /// The words that were read do not all belong to one value.
    #[error("pass {0} read a torn value under key {1}")]
    Torn(u32, u64),
    /// A value changed while it was held.
    #[error("the value under key {1} changed while pass {0} held it")]
    Changed(u32, u64),
    /// A walk did not meet a key that was live from its begin to its end.
    #[error("a walk of pass {0} missed key {1}")]
    Missed(u32, u64),
    /// A walk did not go on to a later place.
    #[error("a walk of pass {0} goes back at key {1}")]
    WentBack(u32, u64),
    /// A call that a pass began by hand does not end.
    #[error("what pass {0} began by hand does not end")]
    Endless(u32),
    /// An owner cannot leave, though no other caller has begun anything.
    #[error("pass {0} waits to leave its shard, though nobody has begun a free")]
    Waits(u32),
    /// The answers on a key have no order that is legal and keeps to the moments of their calls.
    #[error("no order of the answers on key {0} is legal")]
    NoOrder(u64),
    /// An insert returned a number that is no key of the layout.
    #[error("{0} was inserted and is no key")]
    NoKey(u64),
    /// Two calls ended one key.
    #[error("key {0} ended twice")]
    EndedTwice(u64),
    /// A call reported the end of a key that was not removed, or that others used or held still.
    #[error("key {0} ended before it was removed and released")]
    EndedEarly(u64),
    /// A call reported the end of a key with words that are not those of its value.
    #[error("key {0} ended with the words of another value")]
    EndedAsAnother(u64),
    /// A key was removed and is not held, and no call reported its end.
    #[error("no call reported the end of key {0}")]
    NotEnded(u64),
    /// Not all passes are joined.
    #[error("not all passes met")]
    Apart,
    /// A page of a chunk and shard has a slot left or is blank, though an insert in its shard was refused as full.
    #[error("page {1}.{2} of chunk {0} has room in a shard that was full")]
    Room(u32, u32, u32),
    /// The accounts of a page of a chunk and shard are not those that follow from the answers.
    #[error("the accounts of page {1}.{2} of chunk {0} are wrong")]
    Accounts(u32, u32, u32),
}

/// Why a round ended early.
#[derive(Clone, Copy, Debug, PartialEq, Eq, Error)]
pub enum Fault {
    /// The heap did something wrong.
    #[error("{0}")]
    Wrong(Wrong),
    /// Memory was refused.
    #[error("memory was refused")]
    Memory,
    /// A write failed.
    #[error("a write failed")]
    Io,
}
