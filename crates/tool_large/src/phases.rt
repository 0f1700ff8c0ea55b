//! The phases of the four threads. Each phase ends in all threads before the next one begins.
ghost use Rattle.std.specs.Prelude.{◌≡◌, ◌≤◌, ◌<◌, ◌+◌, length, IfOk};
ghost use Rattle.tool_large.specs.Shares.{keys_of, share};
ghost use Rattle.tool_large.specs.Workers.{StayAt};

use crate::crew::{Crew, Four, all_done, all_four};
use crate::filling::{Filled, Filling, Part};
use crate::reading::Reading;
use crate::removing::Removing;
use crate::share::share_of;
use gearlongan::{KeyLayout, Refusal};
use std::alloc::Global;
use std::thread::Threads;

/// What the threads insert.
#[derive(Clone, Copy, Debug, PartialEq, Eq)]
pub struct Plan {
    /// The number of values of all threads together.
    pub values: usize,
    /// The number of shards of each thread.
    pub shards: u64,
    /// Whether each thread keeps its first shard.
    pub settles: bool,
    /// The upper half of the first word of the first thread.
    pub round: u64,
}

// The part of the thread with this number. No two values of a plan are equal.
fn part_of(plan: Plan, number: usize) -> Part
    ensures { number < 4 → result.values ≡ share plan.values number }
{
    Part {
        shard: plan.shards.wrapping_mul(number as u64),
        shards: plan.shards,
        word: first_word(plan, number),
        values: share_of(plan.values, number),
    }
}

fn first_word(plan: Plan, number: usize) -> u64 {
    plan.round.wrapping_add(number as u64).wrapping_mul(1 << 32)
}

/// Each thread inserts its part of the values, in shards of its own.
#[tactic(auto, using(crate::proofs::ShareLemmas::shares_all))]
pub fn fill<'a, L: KeyLayout + Send + Sync, R: Threads + Sync>(
    rt: &R,
    alloc: Global,
    crew: Crew<'a, L>,
    plan: Plan,
) -> Result<(Crew<'a, L>, Four<Filled>), Refusal>
    ensures stay { IfOk result (λ done. StayAt crew.entry done.0) }
    ensures all { IfOk result (λ done. keys_of done.1 ≡ plan.values) }
{
    let tasks = Four {
        one: Filling {
            worker: crew.one,
            part: part_of(plan, 0),
            alloc,
        },
        two: Filling {
            worker: crew.two,
            part: part_of(plan, 1),
            alloc,
        },
        three: Filling {
            worker: crew.three,
            part: part_of(plan, 2),
            alloc,
        },
        four: Filling {
            worker: crew.four,
            part: part_of(plan, 3),
            alloc,
        },
    };
    all_done(all_four(rt, tasks))
}

/// Each thread reads what the next one inserted, and the last what the first did. Returns the number of right values.
pub fn read<'a, L: KeyLayout + Send + Sync, R: Threads + Sync>(
    rt: &R,
    crew: Crew<'a, L>,
    filled: &Four<Filled>,
    plan: Plan,
) -> Result<(Crew<'a, L>, usize), Refusal>
    ensures stay { IfOk result (λ done. StayAt crew.entry done.0) }
    ensures most { IfOk result (λ done. done.1 ≤ keys_of filled.now) }
{
    let tasks = Four {
        one: Reading {
            worker: crew.one,
            keys: &filled.two.keys,
            word: first_word(plan, 1),
        },
        two: Reading {
            worker: crew.two,
            keys: &filled.three.keys,
            word: first_word(plan, 2),
        },
        three: Reading {
            worker: crew.three,
            keys: &filled.four.keys,
            word: first_word(plan, 3),
        },
        four: Reading {
            worker: crew.four,
            keys: &filled.one.keys,
            word: first_word(plan, 0),
        },
    };
    let (crew, right) = all_done(all_four(rt, tasks))?;
    Ok((crew, sum_of(right)))
}

/// Each thread removes a fourth of all keys, of its own and of the others. Returns the number of keys removed.
#[tactic(auto, using(crate::proofs::ShareLemmas::shares_all))]
pub fn remove<'a, L: KeyLayout + Send + Sync, R: Threads + Sync>(
    rt: &R,
    crew: Crew<'a, L>,
    keys: &[u64],
) -> Result<(Crew<'a, L>, usize), Refusal>
    ensures stay { IfOk result (λ done. StayAt crew.entry done.0) }
    ensures most { IfOk result (λ done. done.1 ≤ length keys.now) }
{
    let tasks = Four {
        one: Removing {
            worker: crew.one,
            keys,
            number: 0,
        },
        two: Removing {
            worker: crew.two,
            keys,
            number: 1,
        },
        three: Removing {
            worker: crew.three,
            keys,
            number: 2,
        },
        four: Removing {
            worker: crew.four,
            keys,
            number: 3,
        },
    };
    let (crew, removed) = all_done(all_four(rt, tasks))?;
    Ok((crew, sum_of(removed)))
}

// The sum of the four counts.
fn sum_of(counts: Four<usize>) -> usize
    ensures { result ≤ counts.one + counts.two + counts.three + counts.four }
{
    let Four {
        one,
        two,
        three,
        four,
    } = counts;
    one.saturating_add(two)
        .saturating_add(three)
        .saturating_add(four)
}
