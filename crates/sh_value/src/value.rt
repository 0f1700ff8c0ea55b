//! Values: at most 16 words.
ghost use Rattle.std.specs.Prelude.{◌≡◌, ◌+◌, ◌<◌, ◌≤◌, IfOk, IfErr, length, List, [], ◌∷◌, ◌++◌, ℕ};

use crate::Refusal;
use arrayvec::ArrayVec;
use std::marker::Model;

/// The most words that a value may have.
pub const WORDS_MAX: usize = 16;

/// What is stored under a key: at most 16 words of 64 bits, in order. A contract sees it as the list of its words.
#[derive(Drop, Debug, PartialEq, Eq)]
pub struct Value {
    words: ArrayVec<u64, WORDS_MAX>,
}

impl Model for Value {
    ghost Value = { List ℕ };

    ghost view = { λ v. v.words.items };

    ghost invariant = { λ v. length v.words.items ≤ 16 };

    ghost inverse = { λ xs. record { words = record { items = xs } } };
}

impl Value {
    /// The value with these words. More than 16 words are refused as `TooLong`.
    pub fn new(words: &[u64]) -> Result<Value, Refusal>
        ensures ok { IfOk result (λ value. (value ≡ words.now) × (length words.now ≤ 16)) }
        ensures too_long { IfErr result (λ refusal. (refusal ≡ Refusal.TooLong) × (16 < length words.now)) }
    {
        match ArrayVec::try_from(words) {
            Ok(words) => Ok(Value { words }),
            Err(_) => Err(Refusal::TooLong),
        }
    }

    /// The value of these words, of which there are at most 16: `Value::of([7, 8, 9])`. The number of words is known at
    /// compile time, so the call is not refused.
    pub fn of<const N: usize>(words: [u64; N]) -> Value
        requires { N ≤ 16 }
        ensures { result ≡ words.entry }
    {
        match Value::new(&words) {
            Ok(value) => value,
            Err(_) => unreachable!(),
        }
    }

    /// The value with no words.
    pub fn empty() -> Value
        ensures { result ≡ [] }
    {
        Value {
            words: ArrayVec::new(),
        }
    }

    /// Removes all words.
    pub fn clear(&mut self)
        ensures { self.new ≡ [] }
    {
        self.words.clear();
    }

    /// Makes it the value of this one word. If it has one word already, only that word is written.
    ///
    /// ```text
    /// let mut value = Value::of([7, 8]);
    /// value.set(9);
    /// assert_eq!(value.words(), &[9]);
    /// ```
    pub fn set(&mut self, word: u64)
        ensures { self.new ≡ word ∷ [] }
    {
        if let [only] = self.words.as_mut_slice() {
            *only = word;
        } else {
            *self = Value::empty();
            self.push(word);
        }
    }

    /// Makes it the value of these words, at most 16. If it has as many words already, only these are written.
    ///
    /// ```text
    /// let mut value = Value::of([7]);
    /// value.set_words(&[8, 9]);
    /// assert_eq!(value.words(), &[8, 9]);
    /// ```
    pub fn set_words(&mut self, words: &[u64])
        requires { length words.now ≤ 16 }
        ensures { self.new ≡ words.now }
    {
        if self.words.len() == words.len() {
            self.words.as_mut_slice().copy_from_slice(words);
            return;
        }
        self.clear();
        let Ok(()) = self.words.try_extend_from_slice(words) else {
            unreachable!()
        };
    }

    /// Adds a word after the others, of which there are at most 15.
    pub fn push(&mut self, word: u64)
        requires { length self.old < 16 }
        ensures words { self.new ≡ self.old ++ word ∷ [] }
        ensures len { length self.new ≡ length self.old + 1 }
    {
        self.words.push(word);
    }

    /// The words, in order: at most 16.
    pub fn words(&self) -> &[u64]
        ensures words { result.now ≡ self.now }
        ensures few { length self.now ≤ 16 }
    {
        self.words.as_slice()
    }

    /// A word and then the words of a value, of which there are at most 15.
    pub fn prefixed(first: u64, rest: &Value) -> Value
        requires { length rest.now ≤ 15 }
        ensures { result ≡ first ∷ rest.now }
    {
        let mut words = ArrayVec::new();
        words.push(first);
        match words.try_extend_from_slice(rest.words()) {
            Ok(()) => Value { words },
            Err(_) => unreachable!(),
        }
    }

    /// The same value again. It takes no memory.
    pub fn copy(&self) -> Value
        ensures { result ≡ self.now }
    {
        match ArrayVec::try_from(self.words()) {
            Ok(words) => Value { words },
            Err(_) => unreachable!(),
        }
    }
}

impl From<u64> for Value {
    /// The value of one word.
    #[inline(always)]
    fn from(word: u64) -> Value
        ensures { result ≡ word ∷ [] }
    {
        Value::of([word])
    }
}
