//! What the heap returns if it does not do a call.
ghost use Rattle.std.specs.Prelude.{◌≡◌};
ghost use Rattle.sh_value.specs.Refusal.{refusal_number, refusal_name};

use std::alloc::{AllocError, AllocFailed};
use thiserror::Error;

/// Why a call is refused. A refused call leaves the map, the holds and the issued keys as they were.
///
/// It is an error like any other: it is shown with its name and its usual reason, and `?` makes one of refused memory.
/// `?` also makes one of a refusal that returns what was to be used, and then drops that. `Shard::adopt` returns its
/// pass in this way, so match on it if the pass is still needed.
#[derive(Clone, Copy, Debug, PartialEq, Eq, Error)]
pub enum Refusal {
    /// The number is no key of the layout, or its place is outside the heap's shape.
    #[error("BadKey: the number is no key of this heap")]
    BadKey,
    /// The key names no present value: it was never issued, or it was removed.
    #[error("Gone: the key was removed, or never issued")]
    Gone,
    /// The key has as many holds as a key may have. The running heap compares the count in the slot's word, which also
    /// counts each pass that is on the slot for a moment. So if a key may have four holds, three holds and one pass
    /// that is about to remove it are enough.
    #[error("Crowded: the key has as many holds as it may have")]
    Crowded,
    /// The pass has 16 holds.
    #[error("HoldsFull: the pass has 16 holds")]
    HoldsFull,
    /// The pass has no hold on that key.
    #[error("NotHeld: the pass has no hold on the key")]
    NotHeld,
    /// More than 16 words.
    #[error("TooLong: a value has at most 16 words")]
    TooLong,
    /// There is no room for a further value.
    #[error("Full: the shard has no room for the value")]
    Full,
    /// Memory was asked for and refused.
    #[error("Memory: memory was refused")]
    Memory,
    /// The shard has an owner.
    #[error("Taken: the shard has an owner")]
    Taken,
    /// There is no such shard, or the pass owns none.
    #[error("NoShard: there is no such shard, or the pass owns none")]
    NoShard,
    /// Another pass is in the middle of a free that has to end first.
    #[error("Waiting: another pass is in the middle of a free")]
    Waiting,
    /// The numbers are outside the limits of a shape, or do not fit the layout.
    #[error("BadShape: the numbers are outside the limits of a shape")]
    BadShape,
    /// The stored value is not of the record's kind, or does not decode.
    #[error("WrongKind: the value is not of the record's kind")]
    WrongKind,
}

impl Refusal {
    /// Its number, from 1 to 13.
    pub fn number(&self) -> u32
        ensures { result ≡ refusal_number self.now }
    {
        match self {
            Refusal::BadKey => 1,
            Refusal::Gone => 2,
            Refusal::Crowded => 3,
            Refusal::HoldsFull => 4,
            Refusal::NotHeld => 5,
            Refusal::TooLong => 6,
            Refusal::Full => 7,
            Refusal::Memory => 8,
            Refusal::Taken => 9,
            Refusal::NoShard => 10,
            Refusal::Waiting => 11,
            Refusal::BadShape => 12,
            Refusal::WrongKind => 13,
        }
    }

    /// Its name, as replies and fault lines print it.
    pub fn name(&self) -> &'static str
        ensures { result.now ≡ refusal_name self.now }
    {
        match self {
            Refusal::BadKey => "BadKey",
            Refusal::Gone => "Gone",
            Refusal::Crowded => "Crowded",
            Refusal::HoldsFull => "HoldsFull",
            Refusal::NotHeld => "NotHeld",
            Refusal::TooLong => "TooLong",
            Refusal::Full => "Full",
            Refusal::Memory => "Memory",
            Refusal::Taken => "Taken",
            Refusal::NoShard => "NoShard",
            Refusal::Waiting => "Waiting",
            Refusal::BadShape => "BadShape",
            Refusal::WrongKind => "WrongKind",
        }
    }
}

impl From<AllocError> for Refusal {
    fn from(_refused: AllocError) -> Refusal
        ensures { result ≡ Refusal.Memory }
    {
        Refusal::Memory
    }
}

impl<T: Drop> From<AllocFailed<T>> for Refusal {
    fn from(_refused: AllocFailed<T>) -> Refusal
        ensures { result ≡ Refusal.Memory }
    {
        Refusal::Memory
    }
}

impl<T: Drop> From<(T, Refusal)> for Refusal {
    fn from(refused: (T, Refusal)) -> Refusal
        ensures { result ≡ refused.1 }
    {
        refused.1
    }
}
