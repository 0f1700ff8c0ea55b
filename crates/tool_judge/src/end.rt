//! The ends of keys, as calls report them.
ghost use Rattle.std.specs.Prelude.{◌≡◌};
ghost use Rattle.tool_judge.specs.Ends.{is_early, is_told, is_inserted_with, is_of_value};

use history_timed::{Call, Span};
use sh_value::Value;

/// A key that a call ended.
#[derive(Drop)]
pub struct End {
    /// The key.
    pub key: u64,
    /// The times of the call.
    pub times: Span,
    /// The words of the key's value. `None` for a step by hand, which may have ended this key or another of its slot.
    pub words: Option<Value>,
}

// Whether the key was inserted with these words.
fn is_inserted_with(key: u64, words: &Value, calls: &[Call]) -> bool
    ensures { result ≡ is_inserted_with key words.now calls.now }
{
    calls.iter().any(|call| call.said.inserts_value(key, words))
}

impl End {
    /// Whether a call reported that it ended this key.
    pub fn is_told(&self, key: u64) -> bool
        ensures { result ≡ is_told key self.now }
    {
        self.key == key && self.words.is_some()
    }

    /// Whether a call that used, removed or released the key began after its end was reported.
    pub fn is_early(&self, calls: &[Call]) -> bool
        ensures { result ≡ is_early self.now calls.now }
    {
        let key = self.key;
        calls.iter().any(|call| {
            (call.said.finds(key) || call.said.releases(key)) && self.times.ends_before(&call.times)
        })
    }

    /// Whether the key was inserted with the words that were reported.
    pub fn is_of_value(&self, calls: &[Call]) -> bool
        ensures { result ≡ is_of_value self.now calls.now }
    {
        match &self.words {
            Some(words) => is_inserted_with(self.key, words, calls),
            None => false,
        }
    }
}
