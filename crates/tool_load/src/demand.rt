//! The demand of a workload on a heap.
ghost use Rattle.std.specs.Prelude.{◌≤◌};

use crate::samples::Lengths;

/// The numbers of owners and of other passes of a workload, and of the values that each owner keeps. `more` is the
/// number of further values that it has now and then in one shard.
#[derive(Clone, Copy)]
pub struct Demand {
    pub owners: usize,
    pub others: usize,
    pub passes: usize,
    pub lengths: Lengths,
    pub values: usize,
    pub more: usize,
    ghost few_owners: { owners ≤ 16 },
    ghost few_others: { others ≤ 16 },
    ghost few_passes: { passes ≤ 64 },
    ghost few_values: { values ≤ 20000000 },
    ghost few_more: { more ≤ 200000 },
}
