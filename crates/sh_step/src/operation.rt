//! Operations on one word.
ghost use Rattle.std.specs.Prelude.{◌≡◌};
ghost use Rattle.sh_step.specs.Operations.{operate, wrapped, HasRoom};

/// What a step does with the one word that it touches.
#[derive(Clone, Copy, Debug, PartialEq, Eq)]
pub enum Operation {
    /// Adds, and returns the word found.
    FetchAdd(u64),
    /// Subtracts, and returns the word found.
    FetchSub(u64),
    /// Sets bits, and returns the word found.
    FetchOr(u64),
    /// Stores a word, and returns the one found.
    Swap(u64),
    /// Stores a word, and returns nothing.
    Store(u64),
    /// Stores the second word if the first is found, and returns the word found.
    CompareExchange(u64, u64),
    /// Returns the word found, which stays.
    Load,
}

impl Operation {
    /// The word that it leaves, by the word that it found, which has room for it. It is what a machine leaves, whose
    /// words wrap around.
    pub fn after(&self, found: u64) -> u64
        requires { HasRoom self.now found }
        ensures is { result ≡ operate self.now found }
        ensures wraps { result ≡ wrapped self.now found }
    {
        match self {
            Operation::FetchAdd(more) => found + *more,
            Operation::FetchSub(less) => found - *less,
            Operation::FetchOr(bits) => found | *bits,
            Operation::Swap(word) | Operation::Store(word) => *word,
            Operation::CompareExchange(old, new) => { if found == *old { *new } else { found } }
            Operation::Load => found,
        }
    }
}
