//! What is measured, and how much of it.
ghost use Rattle.std.specs.Prelude.{◌≤◌};

use crate::layout::Layout;
use crate::samples::Lengths;
use crate::workload::Workload;

/// The greatest number of values that may be asked for. In `Deep` one shard has room for all, if each has one word.
pub const MOST_VALUES: u64 = 10_000_000;

/// What is measured, and how much of it.
#[derive(Drop)]
pub struct Options {
    pub workload: Workload,
    pub layout: Layout,
    /// The number of threads. In `hand` it is the number of pairs of threads.
    pub threads: usize,
    /// The number of operations of each thread.
    pub operations: usize,
    pub lengths: Lengths,
    /// The number of live values: in all in `get` and `read`, and otherwise for each thread.
    pub live: usize,
    /// The number of slots that each owner puts back when it leaves.
    pub freed: usize,
    /// The least number of passes of the heap.
    pub passes: usize,
    ghost threads_within: { threads ≤ 16 },
    ghost operations_within: { operations ≤ 1000000000 },
    ghost live_within: { live ≤ 10000000 },
    ghost freed_within: { freed ≤ 10000000 },
    ghost passes_within: { passes ≤ 64 },
}
