//! Whole walks over the live keys.
ghost use Rattle.std.specs.Prelude.{◌≡◌};
ghost use Rattle.tool_judge.specs.Walks.{follows_insert, has_met, misses, precedes_removals};

use history_timed::{Call, Span};

/// A walk from the first place to the last.
#[derive(Drop)]
pub struct Walk {
    /// The number of the pass.
    pub pass: u32,
    /// When it began and ended.
    pub times: Span,
    /// The keys that it met.
    pub met: Vec<u64>,
}

impl Walk {
    // Whether the key was inserted before the walk began.
    fn follows_insert(&self, key: u64, calls: &[Call]) -> bool
        ensures { result ≡ follows_insert self.now key calls.now }
    {
        calls.iter().any(|call| call.said.inserts(key) && call.times.ends_before(&self.times))
    }

    // Whether no call that removed the key began before the walk ended.
    fn precedes_removals(&self, key: u64, calls: &[Call]) -> bool
        ensures { result ≡ precedes_removals self.now key calls.now }
    {
        calls.iter().all(|call| !call.said.removes(key) || self.times.ends_before(&call.times))
    }

    // Whether the walk met the key.
    fn has_met(&self, key: u64) -> bool
        ensures { result ≡ has_met self.now key }
    {
        self.met.iter().any(|met| *met == key)
    }

    /// Whether it missed the key that all these calls are on. The key was inserted before the walk began, no call that
    /// removed it began before the walk ended, and the walk did not meet it.
    pub fn misses(&self, key: u64, calls: &[Call]) -> bool
        ensures { result ≡ misses self.now key calls.now }
    {
        let is_there = self.follows_insert(key, calls) && self.precedes_removals(key, calls);
        is_there && !self.has_met(key)
    }
}
