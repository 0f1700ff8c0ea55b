//! What can be wrong with a recorded history, or with its reading.
use std::alloc::AllocError;
use thiserror::Error;

/// What is wrong with a line.
#[derive(Clone, Copy, Debug, PartialEq, Eq)]
pub enum Cause {
    /// The line has more than 512 bytes.
    Size,
    /// The last line has bytes and no newline.
    Cut,
    /// A byte outside 32 to 126.
    Byte,
    /// The first line that says something is no header, or there is none.
    Header,
    /// A number of wrong form.
    Number,
    /// The pass is not below the number of passes.
    Pass,
    /// A wrong number of words, or a value of more than 16.
    Count,
    /// An unknown entry.
    Entry,
    /// The begin of the call is above its end.
    Times,
    /// The line has times and an earlier one has none, or the other way round.
    Mixed,
    /// The call began before the pass's last one had ended.
    Overlap,
}

/// Why a history was not judged. Its text is what follows `tool_history: ` on the program's fault line.
#[derive(Clone, Copy, Debug, PartialEq, Eq, Error)]
pub enum Fault {
    /// Memory was asked for and refused.
    #[error("fault 8 Memory")]
    Memory,
    /// The first line with a fault, counted from 1, and what is wrong with it.
    #[error("fault 14 History line {0} {1:?}")]
    History(u64, Cause),
    /// A read or a write failed.
    #[error("fault 15 Io")]
    Io,
}

/// Why a line was not taken in, before its number is known.
#[derive(Clone, Copy, Debug, PartialEq, Eq)]
pub enum Trouble {
    /// Memory was asked for and refused.
    Memory,
    /// The line has this fault.
    Because(Cause),
}

impl From<AllocError> for Trouble {
    ghost use Rattle.std.specs.Prelude.{◌≡◌};
    ghost use Rattle.history_lines.specs.declared.fault.Trouble.TheVariants.{Memory};

    ghost from_gives = { λ _ e. e ≡ Memory };

    fn from(_error: AllocError) -> Trouble {
        Trouble::Memory
    }
}
