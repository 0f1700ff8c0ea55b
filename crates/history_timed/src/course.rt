//! When a key was inserted and removed, by the times of all calls on it.
//!
//! The insert is as late as it may be: at the first end of a call that found the key. A get is as early as it may be,
//! and a release as late. The removal is as early as it may be: after each use of the value. So if keys are never
//! crowded, and some order is legal and keeps to the times, this one is and does. No contract says that. It is proved
//! that this is the order that is tried, and that it is judged rightly.
ghost use Rattle.std.specs.Prelude.{◌≡◌, ◌&&◌, ℕ, nat_lt, IfOk, OnOk, OnErr};
ghost use Rattle.history_timed.specs.Times.{is_ended};
ghost use Rattle.history_timed.specs.Calls.{uses, finds};
ghost use Rattle.history_timed.specs.Courses.{change_of, comes_first, preferred, no_calls, insert_with, removal_with};
ghost use Rattle.history_timed.specs.Courses.{end_with, use_with, taken_in, is_change, insert_moment, removal_moment};
ghost use Rattle.history_timed.specs.Courses.{course_with, course_by, course_in};

use crate::call::Call;
use std::alloc::{AllocError, Global};
use std::collections::HashMap;

/// A call that inserted a key, or removed it.
#[derive(Clone, Copy, Debug)]
struct Change {
    line: u64,
    begin: u64,
    is_ended: bool,
}

impl Change {
    fn of(call: &Call) -> Change
        ensures { result ≡ change_of call.now }
    {
        Change {
            line: call.line,
            begin: call.times.begin(),
            is_ended: call.times.is_ended(),
        }
    }

    // Whether it ended; or neither did, and the other began no earlier.
    fn comes_first(&self, other: &Change) -> bool
        ensures { result ≡ comes_first self.now other.now }
    {
        self.is_ended || (!other.is_ended && self.begin <= other.begin)
    }

    // Of two calls the one that ended, or that began first if none did.
    fn preferred(self, before: Option<Change>) -> Change
        ensures { result ≡ preferred self before }
    {
        let Some(before) = before else {
            return self;
        };
        if before.comes_first(&self) {
            before
        } else {
            self
        }
    }
}

// The insert of the key, with one call more.
fn insert_with(insert: Option<Change>, key: u64, call: &Call) -> Option<Change>
    ensures { result ≡ insert_with key call.now insert }
{
    if call.said.inserts(key) {
        Some(Change::of(call).preferred(insert))
    } else {
        insert
    }
}

// The removal of the key, with one call more.
fn removal_with(removal: Option<Change>, key: u64, call: &Call) -> Option<Change>
    ensures { result ≡ removal_with key call.now removal }
{
    if call.said.removes(key) {
        Some(Change::of(call).preferred(removal))
    } else {
        removal
    }
}

// The first end of the calls that found the key, with one call more.
fn end_with(first: u64, key: u64, call: &Call) -> u64
    ensures { result ≡ end_with (finds key call.now.said) call.now.times.end first }
{
    let Some(end) = call.times.end() else {
        return first;
    };
    if call.said.finds(key) {
        first.min(end)
    } else {
        first
    }
}

// The last begin of the calls that used the key's value and ended, with one call more.
fn use_with(last: u64, key: u64, call: &Call) -> u64
    ensures { result ≡ use_with (is_ended call.now.times && uses key call.now.said) call.now.times.begin last }
{
    if call.times.is_ended() && call.said.uses(key) {
        last.max(call.times.begin())
    } else {
        last
    }
}

/// What the calls on a key say of its insert and its removal.
#[derive(Clone, Copy, Debug)]
pub struct Course {
    insert: Option<Change>,
    removal: Option<Change>,
    first_end: u64,
    last_use: u64,
}

impl Course {
    /// The course of a key without a call.
    pub fn new() -> Course
        ensures { result ≡ no_calls }
    {
        Course {
            insert: None,
            removal: None,
            first_end: u64::MAX,
            last_use: 0,
        }
    }

    /// Takes in a call on this key. Of calls that never ended only an insert and a removal count.
    pub fn take_in(&mut self, key: u64, call: &Call)
        ensures { self.new ≡ taken_in key call.now self.old }
    {
        self.insert = insert_with(self.insert, key, call);
        self.removal = removal_with(self.removal, key, call);
        self.first_end = end_with(self.first_end, key, call);
        self.last_use = use_with(self.last_use, key, call);
    }

    /// Whether a call that never ended is the insert or the removal of the key.
    pub fn is_change(&self, line: u64) -> bool
        ensures { result ≡ is_change line self.now.insert self.now.removal }
    {
        let Some(insert) = self.insert else {
            return false;
        };
        match self.removal {
            Some(removal) => line == insert.line || line == removal.line,
            None => line == insert.line,
        }
    }

    /// Whether a call that found the key ended before this moment.
    pub fn is_found_before(&self, moment: u64) -> bool
        ensures { result ≡ nat_lt self.now.first_end moment }
    {
        self.first_end < moment
    }

    /// Whether a call that used the key's value, and ended, began after this moment.
    pub fn is_used_after(&self, moment: u64) -> bool
        ensures { result ≡ nat_lt moment self.now.last_use }
    {
        moment < self.last_use
    }

    /// When the key was inserted.
    pub fn inserted(&self) -> Option<u64>
        ensures { result ≡ insert_moment self.now }
    {
        let insert = self.insert?;
        Some(insert.begin.max(self.first_end))
    }

    /// When it was removed.
    pub fn removed(&self) -> Option<u64>
        ensures { result ≡ removal_moment self.now }
    {
        let removal = self.removal?;
        let begun = removal.begin.max(self.last_use);
        Some(begun.max(self.inserted().unwrap_or(0)))
    }
}

/// The courses of all keys.
#[derive(Drop)]
pub struct Courses {
    by_key: HashMap<u64, Course>,
}

impl Courses {
    /// The courses by these calls. Refused if memory is.
    pub fn new(alloc: Global, calls: &[Call]) -> Result<Courses, AllocError>
        ensures { IfOk result (λ courses. (key : ℕ) → course_in courses key ≡ course_by calls.now key) }
    {
        let mut courses = Courses {
            by_key: HashMap::new(alloc),
        };
        for call in calls {
            courses.take_in(call)?;
        }
        Ok(courses)
    }

    // Takes in a call, on the course of its key. If memory is refused, nothing changes.
    fn take_in(&mut self, call: &Call) -> Result<(), AllocError>
        ensures ok { OnOk result ((key : ℕ) → course_in self.new key
            ≡ course_with key call.now (course_in self.old key)) }
        ensures err { OnErr result ((key : ℕ) → course_in self.new key ≡ course_in self.old key) }
    {
        let key = call.said.key();
        let mut course = self.of(key);
        course.take_in(key, call);
        self.by_key.insert(key, course)?;
        Ok(())
    }

    /// The course of a key.
    pub fn of(&self, key: u64) -> Course
        ensures { result ≡ course_in self.now key }
    {
        self.by_key.get(&key).copied().unwrap_or(Course::new())
    }
}
