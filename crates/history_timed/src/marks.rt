//! Moments of keys in their order, so that those of one key are counted without a look at each.
ghost use Rattle.std.specs.Prelude.{◌≡◌, count_by, IfOk};
ghost use Rattle.std.specs.List.Sorted.{IsPermutation};
ghost use Rattle.history_timed.specs.declared.marks.Mark.{Mark as Seen};
ghost use Rattle.history_timed.specs.Marks.{comes_before, comes_up_to, moment_below, moment_up_to};
ghost use Rattle.history_timed.specs.Marks.{mark_of, begin_mark, end_mark, marks_of};
ghost use Rattle.history_timed.specs.Calls.{gets, releases};

use crate::call::Call;
use std::alloc::{AllocError, Global};
use std::marker::Model;

/// A moment of a pass on a key.
#[derive(Clone, Copy, Debug, PartialEq, Eq, PartialOrd, Ord)]
pub struct Mark {
    /// The key.
    pub key: u64,
    /// The pass, or 0 in marks for all passes as one.
    pub pass: u32,
    /// The moment.
    pub moment: u64,
}

impl Mark {
    // The mark of a call on its key, for its pass alone or for all passes.
    fn of(call: &Call, by_pass: bool, moment: u64) -> Mark
        ensures { result ≡ mark_of by_pass moment call.now }
    {
        Mark {
            key: call.said.key(),
            pass: if by_pass { call.said.pass() } else { 0 },
            moment,
        }
    }
}

// The begins of the gets.
fn begins(alloc: Global, calls: &[Call], by_pass: bool) -> Result<Vec<Mark>, AllocError>
    ensures { IfOk result (λ marks. marks.items ≡ marks_of gets (begin_mark by_pass) calls.now) }
{
    calls
        .iter()
        .filter(|call| call.said.gets(call.said.key()))
        .map(|call| Mark::of(call, by_pass, call.times.begin()))
        .collect(alloc)
}

// The ends of the releases.
fn ends(alloc: Global, calls: &[Call], by_pass: bool) -> Result<Vec<Mark>, AllocError>
    ensures { IfOk result (λ marks. marks.items ≡ marks_of releases (end_mark by_pass) calls.now) }
{
    calls
        .iter()
        .filter(|call| call.said.releases(call.said.key()))
        .map(|call| Mark::of(call, by_pass, call.times.end().unwrap_or(u64::MAX)))
        .collect(alloc)
}

/// Marks in their order. A contract sees them as a list.
#[derive(Drop)]
pub struct Marks {
    sorted: Vec<Mark>,
}

impl Model for Marks {
    ghost use Rattle.std.specs.Prelude.{List};
    ghost use Rattle.std.specs.List.Sorted.{IsSorted};
    ghost use Rattle.history_timed.specs.declared.marks.Mark.{Mark as Seen};
    ghost use Rattle.history_timed.specs.Marks.{mark_cmp};

    ghost Value = { List Seen };

    ghost view = { λ m. m.sorted.items };

    ghost invariant = { λ m. IsSorted mark_cmp m.sorted.items };
}

impl Marks {
    /// The begins of the calls that got a hold on their key. Refused if memory is.
    pub fn gets(alloc: Global, calls: &[Call], by_pass: bool) -> Result<Marks, AllocError>
        ensures { IfOk result (IsPermutation (marks_of gets (begin_mark by_pass) calls.now)) }
    {
        Ok(Marks::new(begins(alloc, calls, by_pass)?))
    }

    /// The ends of the calls that released a hold on their key. Refused if memory is.
    pub fn releases(alloc: Global, calls: &[Call], by_pass: bool) -> Result<Marks, AllocError>
        ensures { IfOk result (IsPermutation (marks_of releases (end_mark by_pass) calls.now)) }
    {
        Ok(Marks::new(ends(alloc, calls, by_pass)?))
    }

    // These marks, in their order.
    fn new(mut marks: Vec<Mark>) -> Marks
        ensures { IsPermutation marks.items result }
    {
        marks.sort_unstable();
        Marks { sorted: marks }
    }

    // How many come before this one.
    fn before(&self, mark: Mark) -> usize
        ensures { result ≡ count_by (λ (m : Seen). comes_before m mark) self.now }
    {
        self.sorted.partition_point(|other| *other < mark)
    }

    // How many do not come after this one.
    fn through(&self, mark: Mark) -> usize
        ensures { result ≡ count_by (λ (m : Seen). comes_up_to m mark) self.now }
    {
        self.sorted.partition_point(|other| *other <= mark)
    }

    /// How many moments of the pass on the key are below this one.
    pub fn below(&self, key: u64, pass: u32, moment: u64) -> usize
        ensures { result ≡ count_by (moment_below key pass moment) self.now }
    {
        let first = Mark {
            key,
            pass,
            moment: 0,
        };
        self.before(Mark { key, pass, moment }) - self.before(first)
    }

    /// How many moments of the pass on the key are this one, or below it.
    pub fn up_to(&self, key: u64, pass: u32, moment: u64) -> usize
        ensures { result ≡ count_by (moment_up_to key pass moment) self.now }
    {
        let first = Mark {
            key,
            pass,
            moment: 0,
        };
        self.through(Mark { key, pass, moment }) - self.before(first)
    }
}
