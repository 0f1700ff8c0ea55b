//! What can be wrong with a script, or with its run.
use thiserror::Error;

/// What is wrong with a line.
#[derive(Clone, Copy, Debug, PartialEq, Eq)]
pub enum Cause {
    /// The line has more than 512 bytes, or the script more than 1,048,576.
    Size,
    /// The last line has bytes and no newline.
    Cut,
    /// A byte outside 32 to 126.
    Byte,
    /// The first line that says something is no header, or there is none.
    Header,
    /// A number or a place of wrong form.
    Number,
    /// The pass is not below the number of passes.
    Pass,
    /// No command, or a wrong number of words for it.
    Count,
    /// An unknown command.
    Command,
    /// A name of wrong form.
    Name,
    /// A name that is bound already.
    Bound,
    /// A name that is not bound on an earlier line.
    Unbound,
}

/// Why a script was not run to its end. Its text is what follows `shardheap: ` on the program's fault line.
#[derive(Clone, Copy, Debug, PartialEq, Eq, Error)]
pub enum Fault {
    /// Memory was asked for and refused.
    #[error("fault 8 Memory")]
    Memory,
    /// An owner could not leave at the end of the run.
    #[error("fault 11 Waiting")]
    Waiting,
    /// The header is well formed and its shape is refused.
    #[error("fault 12 BadShape")]
    BadShape,
    /// The first line with a fault, counted from 1, and what is wrong with it; line 0 is the whole script.
    #[error("fault 14 Script line {0} {1:?}")]
    Script(u64, Cause),
    /// A read or a write failed.
    #[error("fault 15 Io")]
    Io,
}
