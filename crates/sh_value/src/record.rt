//! Records: types that are stored as the words of a value.
ghost use Rattle.std.specs.Prelude.{◌≡◌, ◌≤◌, ℕ, List, Option, Some, length};

use crate::Value;

/// A type whose values are stored as words, so that what was encoded is decoded again.
pub trait Record {
    /// The number that precedes the words of each stored record of this type.
    const KIND: u64;

    ghost KIND: { ℕ };

    // The words of a record.
    ghost words: { Self → List ℕ };

    // The record that these words are, if they are one.
    ghost record_of: { List ℕ → Option Self };

    /// The words of the record: at most 15, and `decode` gives the record again.
    fn encode(&self) -> Value
        ensures words { result ≡ words self.now }
        ensures few { length (words self.now) ≤ 15 }
        ensures decodes { record_of (words self.now) ≡ Some self.now };

    /// The record that the words are, or `None` if they are none.
    fn decode(value: &Value) -> Option<Self>
    where
        Self: Sized,
        ensures { result ≡ record_of value.now };
}
