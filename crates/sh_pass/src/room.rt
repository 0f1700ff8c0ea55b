//! Rooms: what a look puts a value into.
ghost use Rattle.std.specs.Prelude.{◌≤◌, ◌∷◌, [], List, ℕ, length};
ghost use Rattle.sh_pass.specs.Rooms.{becomes};

use sh_value::Value;

/// What a value that is looked at goes into, as a `Value` or the words of a caller in C. Its words are copied there from
/// the heap, with no value of 136 bytes in between.
///
/// A look puts a value only once it is sure of it, so a refused look leaves the room as it was.
pub trait Room {
    // What the room is once it took a value of these words.
    ghost takes: { Self → List ℕ → Self → Type 0 };

    /// Takes a value of one word, as most values are.
    fn put_word(&mut self, word: u64)
        ensures { takes self.old (word ∷ []) self.new };

    /// Takes a value of these words.
    fn put(&mut self, words: &[u64])
        requires { length words.now ≤ 16 }
        ensures { takes self.old words.now self.new };
}

impl Room for Value {
    ghost takes = { becomes };

    #[inline(always)]
    fn put_word(&mut self, word: u64) {
        self.set(word);
    }

    fn put(&mut self, words: &[u64]) {
        self.set_words(words);
    }
}
