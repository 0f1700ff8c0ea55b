//! The numbers at the end of a line.
ghost use Rattle.std.specs.Prelude.{map, []};
ghost use Rattle.sh_script.specs.Trouble.{Gives};
ghost use Rattle.sh_script.specs.Arguments.{numbers_from};

use crate::arguments::number_or_cause;
use crate::trouble::Trouble;
use std::alloc::{AllocError, Global};
use std::marker::Model;

/// The words of a value, which may be too many for one. A contract sees the list of the words.
#[derive(Debug, Drop)]
pub struct Numbers {
    items: Vec<u64>,
}

impl Model for Numbers {
    ghost use Rattle.std.specs.Prelude.{List, ℕ};

    ghost Value = { List ℕ };

    ghost view = { λ n. n.items.items };
}

impl Numbers {
    ghost use Rattle.std.specs.Prelude.{◌≡◌, ◌++◌, ◌∷◌, [], OnOk, OnErr};

    /// No words.
    pub(crate) fn new(alloc: Global) -> Numbers
        ensures { result ≡ [] }
    {
        Numbers {
            items: Vec::new(alloc),
        }
    }

    /// Adds a word after the others.
    pub(crate) fn push(&mut self, word: u64) -> Result<(), AllocError>
        ensures ok { OnOk result (self.new ≡ self.old ++ word ∷ []) }
        ensures err { OnErr result (self.new ≡ self.old) }
    {
        self.items.push(word)?;
        Ok(())
    }

    /// The words, in order.
    pub fn as_slice(&self) -> &[u64]
        ensures { result.now ≡ self.now }
    {
        self.items.as_slice()
    }
}

/// The numbers that the words of a line are, in order.
pub fn read_numbers(alloc: Global, words: &[&[u8]]) -> Result<Numbers, Trouble>
    ensures { Gives (λ v. v) result (numbers_from [] (map (λ w. w.now) words.now)) }
{
    let mut numbers = Numbers::new(alloc);
    for word in words {
        numbers.push(number_or_cause(word)?)?;
    }
    Ok(numbers)
}
