//! Rooms for the words of a value that ends.
ghost use Rattle.std.specs.Prelude.{◌≡◌, ◌≤◌, Bool, true, false, List, ℕ, length};
ghost use Rattle.sh_pass.specs.Rooms.{becomes};

use sh_value::Value;

/// What the words of a key's value go into when the key ends, as a `Value` or the words of a caller in C. A room that
/// asks for no words, as `NoWords`, costs no load.
pub trait EndRoom {
    // Whether it asks for the words.
    ghost asks: { Bool };

    // What the room is once it took a value of these words.
    ghost takes: { Self → List ℕ → Self → Type 0 };

    /// Whether it asks for the words.
    fn asks() -> bool
        ensures { result ≡ asks };

    /// Takes a value of these words.
    fn put(&mut self, words: &[u64])
        requires { length words.now ≤ 16 }
        ensures { takes self.old words.now self.new };
}

impl EndRoom for Value {
    ghost asks = { true };

    ghost takes = { becomes };

    #[inline(always)]
    fn asks() -> bool {
        true
    }

    fn put(&mut self, words: &[u64]) {
        self.set_words(words);
    }
}

/// No room: a caller that passes it learns which key ended, and not the words of its value.
#[derive(Clone, Copy, Debug, PartialEq, Eq)]
pub struct NoWords;

impl EndRoom for NoWords {
    ghost asks = { false };

    ghost takes = { λ before _ after. after ≡ before };

    #[inline(always)]
    fn asks() -> bool {
        false
    }

    #[inline(always)]
    fn put(&mut self, _words: &[u64]) {}
}
