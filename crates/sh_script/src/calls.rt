//! What the lines of a script of calls say.
use crate::header::Header;
use crate::numbers::Numbers;

/// What a call refers to: a name or a key.
#[derive(Clone, Copy, Debug, PartialEq, Eq)]
pub enum Reference {
    /// A name, by the order in which the script's names are bound, from 0.
    Name(usize),
    /// `#` and a number.
    Key(u64),
}

/// One call.
#[derive(Debug, Drop)]
pub enum Call {
    /// `adopt S`
    Adopt(u64),
    /// `leave`
    Leave,
    /// `insert NAME w ..`, which binds the next name.
    Insert(Numbers),
    /// `get R`
    Get(Reference),
    /// `read R`
    Read(Reference),
    /// `remove R`
    Remove(Reference),
    /// `release R`
    Release(Reference),
    /// `post NAME`, which binds the next name without a key.
    Post,
    /// `wait NAME`, by the order in which the script's names are bound, from 0.
    Wait(usize),
}

/// A line: the pass whose call it is, below the number of passes, and the call.
#[derive(Debug, Drop)]
pub struct CallLine {
    pub pass: u32,
    pub call: Call,
}

/// A script of calls: its header, and its lines in order.
#[derive(Debug, Drop)]
pub struct Calls {
    pub header: Header,
    pub lines: Vec<CallLine>,
}
