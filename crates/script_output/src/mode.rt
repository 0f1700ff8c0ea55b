//! The modes of a run.

/// What runs a script.
#[derive(Clone, Copy, Debug, PartialEq, Eq)]
pub enum Mode {
    /// The plain store, which keeps the history of its answers. The script is one of calls.
    Plain,
    /// The running heap, each call whole, in the order of the lines. The script is one of calls.
    Heap,
    /// The running heap, the calls of each pass in a thread of its own. The script is one of calls.
    Threads,
    /// The core, step by step. The script is one of events.
    Steps,
}
