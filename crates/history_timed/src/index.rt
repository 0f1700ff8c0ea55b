//! Calls, listed by key as well, so that what is asked of a key takes no look at all of them.
ghost use Rattle.std.specs.Prelude.{◌≡◌, ◌&&◌, true, IfOk};
ghost use Rattle.std.specs.List.{list_any};
ghost use Rattle.history_timed.specs.declared.call.Call.{Call as Other};
ghost use Rattle.history_timed.specs.Times.{ends_before, is_ended};
ghost use Rattle.history_timed.specs.Calls.{uses, finds, gets, releases, gets_by, releases_by};
ghost use Rattle.history_timed.specs.Clashes.{first_line, most_before, least_before};
ghost use Rattle.history_timed.specs.Indexes.{changes_of};

use crate::call::Call;
use crate::changes::Changes;
use crate::course::Courses;
use crate::marks::Marks;
use std::alloc::{AllocError, Global};
use std::marker::Model;

/// Calls, and what is asked of those of a key. A contract sees it as the list of the calls.
#[derive(Drop)]
pub struct Index<'a> {
    calls: &'a [Call],
    courses: Courses,
    changes: Changes,
    gets: Marks,
    gets_by: Marks,
    releases: Marks,
    releases_by: Marks,
}

impl<'a> Model for Index<'a> {
    ghost use Rattle.std.specs.Prelude.{List};
    ghost use Rattle.history_timed.specs.declared.call.Call.{Call as Other};
    ghost use Rattle.history_timed.specs.Indexes.{IsIndex};

    ghost Value = { List Other };

    ghost view = { λ i. i.calls.now };

    ghost invariant = { λ i. IsIndex i.calls.now i.courses i.changes i.gets i.gets_by i.releases i.releases_by };
}

impl<'a> Index<'a> {
    /// That of these calls. Refused if memory is.
    pub fn new(alloc: Global, calls: &'a [Call]) -> Result<Index<'a>, AllocError>
        ensures { IfOk result (λ index. index ≡ calls.now) }
    {
        Ok(Index {
            calls,
            courses: Courses::new(alloc, calls)?,
            changes: Changes::new(alloc, calls)?,
            gets: Marks::gets(alloc, calls, false)?,
            gets_by: Marks::gets(alloc, calls, true)?,
            releases: Marks::releases(alloc, calls, false)?,
            releases_by: Marks::releases(alloc, calls, true)?,
        })
    }

    /// All calls.
    pub fn calls(&self) -> &'a [Call]
        ensures { result.now ≡ self.now }
    {
        self.calls
    }

    /// The calls that inserted the key or removed it.
    pub fn changes(&self, key: u64) -> &[Call]
        ensures { result.now ≡ changes_of key self.now }
    {
        self.changes.of(key)
    }

    /// The line of the first call that found the key and ended before this one began.
    pub fn earlier_find(&self, key: u64, call: &Call) -> Option<u64>
        ensures { result ≡ first_line
            (λ (o : Other). finds key o.said && ends_before o.times call.now.times) self.now }
    {
        if !self.courses.of(key).is_found_before(call.times.begin()) {
            return None;
        }
        self.calls
            .iter()
            .find(|other| other.said.finds(key) && other.times.ends_before(&call.times))
            .map(|other| other.line)
    }

    /// Whether a call used the key's value, ended, and began after this one had ended.
    pub fn is_used_later(&self, key: u64, call: &Call) -> bool
        ensures { result ≡ list_any (λ (o : Other). uses key o.said
            && (ends_before call.now.times o.times && is_ended o.times)) self.now }
    {
        match call.times.end() {
            Some(end) => self.courses.of(key).is_used_after(end),
            None => false,
        }
    }

    /// How many gets of the key by the pass may have come before the call, which ended.
    pub fn gets_before(&self, pass: u32, key: u64, call: &Call) -> usize
        requires { is_ended call.now.times ≡ true }
        ensures { result ≡ most_before (gets_by pass key) self.now call.now }
    {
        self.gets_by
            .up_to(key, pass, call.times.end().unwrap_or(u64::MAX))
    }

    /// How many releases of the key by the pass came before the call.
    pub fn releases_before(&self, pass: u32, key: u64, call: &Call) -> usize
        ensures { result ≡ least_before (releases_by pass key) self.now call.now }
    {
        self.releases_by.below(key, pass, call.times.begin())
    }

    /// How many gets of the key may have come before the call, which ended.
    pub fn all_gets_before(&self, key: u64, call: &Call) -> usize
        requires { is_ended call.now.times ≡ true }
        ensures { result ≡ most_before (gets key) self.now call.now }
    {
        self.gets
            .up_to(key, 0, call.times.end().unwrap_or(u64::MAX))
    }

    /// How many releases of the key came before the call.
    pub fn all_releases_before(&self, key: u64, call: &Call) -> usize
        ensures { result ≡ least_before (releases key) self.now call.now }
    {
        self.releases.below(key, 0, call.times.begin())
    }
}
