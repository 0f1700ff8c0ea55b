//! A clock that never gives a moment twice.
ghost use Rattle.std.specs.Prelude.{◌≡◌};

use history_timed::Span;
use std::sync::atomic::{AtomicU64, Ordering};

/// A clock that threads share. None of its calls waits.
#[derive(Drop)]
pub struct Moments {
    next: AtomicU64,
}

impl Moments {
    /// A clock that has given no moment yet.
    pub const fn new() -> Moments {
        Moments {
            next: AtomicU64::new(1),
        }
    }

    /// The next moment, which no other call returns. A call that ends before another begins returns the earlier moment.
    pub fn next(&self) -> u64 {
        self.next.fetch_add(1, Ordering::SeqCst)
    }

    /// The times of a call that began at this moment of the clock and has ended.
    pub fn since(&self, begin: u64) -> Span
        ensures { result.begin ≡ begin }
    {
        // No later moment is below this one, so each call has an end.
        Span::new(begin, self.next()).unwrap_or(Span::unended(begin))
    }
}
