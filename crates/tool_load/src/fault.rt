//! The reasons why a measurement may fail.
ghost use Rattle.std.specs.Prelude.{◌≡◌};
ghost use Rattle.tool_load.specs.Faults.{fault_text};
ghost use Rattle.tool_load.specs.declared.fault.Fault.TheVariants as fault;

use sh_value::Refusal;
use std::alloc::{AllocError, AllocFailed};
use std::io;

/// Why nothing was measured.
#[derive(Clone, Copy, Debug, PartialEq, Eq)]
pub enum Fault {
    /// The heap refused a call.
    Refused(Refusal),
    /// Memory ran out.
    Memory,
    /// The clock could not be read, or the output could not be written.
    Io,
    /// A thread waited for another for too long.
    Late,
    /// The values do not fit one heap of the layout.
    TooMany,
}

impl From<Refusal> for Fault {
    ghost from_gives = { λ refusal f. f ≡ fault.Refused refusal };

    fn from(refusal: Refusal) -> Fault {
        Fault::Refused(refusal)
    }
}

impl From<AllocError> for Fault {
    ghost from_gives = { λ _ f. f ≡ fault.Memory };

    fn from(_error: AllocError) -> Fault {
        Fault::Memory
    }
}

impl<T: Drop> From<AllocFailed<T>> for Fault {
    ghost from_gives = { λ _ f. f ≡ fault.Memory };

    fn from(_error: AllocFailed<T>) -> Fault {
        Fault::Memory
    }
}

impl From<io::Error> for Fault {
    ghost from_gives = { λ _ f. f ≡ fault.Io };

    fn from(_error: io::Error) -> Fault {
        Fault::Io
    }
}

impl Fault {
    /// The text that the program writes.
    pub fn text(&self) -> &'static str
        ensures { result.now ≡ fault_text self.now }
    {
        match self {
            Fault::Refused(refusal) => refusal.name(),
            Fault::Memory => "memory ran out",
            Fault::Io => "the clock or the output failed",
            Fault::Late => "a thread waited for too long",
            Fault::TooMany => "the values do not fit one heap",
        }
    }
}
