//! Why a line was not read, before its number is known.
ghost use Rattle.std.specs.Prelude.{◌≡◌};
ghost use Rattle.sh_script.specs.declared.trouble.Trouble.TheVariants.{Memory};

use crate::fault::{Cause, Fault};
use std::alloc::{AllocError, AllocFailed};

/// Why a line was not read.
#[derive(Clone, Copy, Debug, PartialEq, Eq)]
pub enum Trouble {
    /// Memory was asked for and refused.
    Memory,
    /// The header is well formed and its shape is refused.
    BadShape,
    /// The line has this fault.
    Because(Cause),
}

impl From<AllocError> for Trouble {
    ghost from_gives = { λ _ e. e ≡ Memory };

    fn from(_error: AllocError) -> Trouble {
        Trouble::Memory
    }
}

impl<T: Drop> From<AllocFailed<T>> for Trouble {
    ghost from_gives = { λ _ e. e ≡ Memory };

    fn from(_error: AllocFailed<T>) -> Trouble {
        Trouble::Memory
    }
}

impl Trouble {
    ghost use Rattle.sh_script.specs.Trouble.{at_line};

    /// The fault of a line, counted from 1, that has this trouble.
    pub fn at(self, line: u64) -> Fault
        ensures { result ≡ at_line line self }
    {
        match self {
            Trouble::Memory => Fault::Memory,
            Trouble::BadShape => Fault::BadShape,
            Trouble::Because(cause) => Fault::Script(line, cause),
        }
    }
}
