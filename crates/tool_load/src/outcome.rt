//! The outcome of a thread.
ghost use Rattle.std.specs.Prelude.{◌≡◌, ◌+◌, max};
ghost use Rattle.std.specs.Duration.{as_nanos};
ghost use Rattle.tool_load.specs.Outcomes.{CountsBoth, saturated};

use std::time::Duration;

/// The time that a thread spent, and its counts. The counts are the same in each run with the same options.
#[derive(Clone, Copy)]
pub struct Outcome {
    /// Nanoseconds in the calls that are measured.
    pub nanoseconds: u64,
    /// The number of measured operations.
    pub operations: u64,
    /// The sum of the keys or words that they returned, as a number that wraps.
    pub sum: u64,
    /// The number of values that were as they were inserted at the end.
    pub standing: u64,
}

/// The outcome of doing nothing.
pub const NOTHING: Outcome = Outcome {
    nanoseconds: 0,
    operations: 0,
    sum: 0,
    standing: 0,
};

impl Outcome {
    /// The outcome of this number of operations, which took this time and returned this sum.
    pub fn of(spent: Duration, operations: usize, sum: u64) -> Outcome
        ensures { result ≡ record
            { nanoseconds = saturated (as_nanos spent); operations = operations; sum = sum; standing = 0 } }
    {
        Outcome {
            nanoseconds: nanoseconds(spent),
            operations: operations as u64,
            sum,
            standing: 0,
        }
    }

    /// The outcome of one thread that did this, and then `next`.
    pub fn then(self, next: Outcome) -> Outcome
        ensures counts { CountsBoth self next result }
        ensures time { result.nanoseconds ≡ saturated (self.nanoseconds + next.nanoseconds) }
    {
        Outcome {
            nanoseconds: self.nanoseconds.saturating_add(next.nanoseconds),
            ..self.beside(next)
        }
    }

    /// The outcome of two threads that ran at the same time. Its time is the longer of the two.
    pub fn beside(self, other: Outcome) -> Outcome
        ensures counts { CountsBoth self other result }
        ensures time { result.nanoseconds ≡ max self.nanoseconds other.nanoseconds }
    {
        Outcome {
            nanoseconds: self.nanoseconds.max(other.nanoseconds),
            operations: self.operations.saturating_add(other.operations),
            sum: self.sum.wrapping_add(other.sum),
            standing: self.standing.saturating_add(other.standing),
        }
    }
}

fn nanoseconds(spent: Duration) -> u64
    ensures { result ≡ saturated (as_nanos spent) }
{
    spent
        .as_secs()
        .saturating_mul(1_000_000_000)
        .saturating_add(u64::from(spent.subsec_nanos()))
}
