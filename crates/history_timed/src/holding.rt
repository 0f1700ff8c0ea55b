//! When keys may have had enough holds for a refusal as crowded: a get is as early as it may be, and a release as late.
//!
//! This only helps to find an order, so little is proved of it: each order that is tried is judged.
ghost use Rattle.std.specs.Prelude.{◌≤◌, IfSome};

use crate::call::{Call, Said};
use crate::course::Courses;
use sh_history::Entry;
use std::alloc::{AllocError, Global};

// A get or a release.
#[derive(Clone, Copy, Debug)]
struct Change {
    key: u64,
    moment: u64,
    is_release: bool,
}

// A time, with both its ends, in which no hold on the key is got or released, and it has enough holds.
#[derive(Clone, Copy, Debug)]
struct Period {
    key: u64,
    begin: u64,
    end: u64,
}

/// The periods in which keys have enough holds, key by key, in the order of their moments.
#[derive(Drop)]
pub struct Holding {
    periods: Vec<Period>,
}

fn is_crowded(call: &Call) -> bool {
    matches!(call.said, Said::Known(Entry::Crowded(_, _)))
}

// The change that a call that ended makes.
fn change_of(courses: &Courses, call: &Call) -> Option<Change> {
    let end = call.times.end()?;
    let key = call.said.key();
    let inserted = courses.of(key).inserted().unwrap_or(0);
    if call.said.gets(key) {
        return Some(Change {
            key,
            moment: call.times.nearest(inserted),
            is_release: false,
        });
    }
    if call.said.releases(key) {
        return Some(Change {
            key,
            moment: end,
            is_release: true,
        });
    }
    None
}

// The gets and releases of all keys, key by key, in the order of their moments. If no key was crowded, none are noted.
fn changes_by(alloc: Global, calls: &[Call], courses: &Courses) -> Result<Vec<Change>, AllocError> {
    let mut changes = Vec::new(alloc);
    if calls.iter().any(is_crowded) {
        for call in calls {
            if let Some(change) = change_of(courses, call) {
                changes.push(change)?;
            }
        }
    }
    changes.sort_by_key(|change| (change.key, change.moment, change.is_release))?;
    Ok(changes)
}

// When the change after that of this place comes, if it is on the same key.
fn next_moment(changes: &[Change], place: usize) -> Option<u64> {
    let change = changes.get(place)?;
    let next = changes.get(place.checked_add(1)?)?;
    if next.key == change.key {
        Some(next.moment)
    } else {
        None
    }
}

impl Holding {
    /// The periods by these calls in which keys have at least `enough` holds. If no key was crowded, none are noted.
    /// Refused if memory is.
    pub fn new(
        alloc: Global,
        calls: &[Call],
        courses: &Courses,
        enough: u64,
    ) -> Result<Holding, AllocError> {
        let changes = changes_by(alloc, calls, courses)?;
        let mut periods = Vec::new(alloc);
        let mut key = None;
        let mut holds: u64 = 0;
        for (place, change) in changes.iter().enumerate() {
            if key != Some(change.key) {
                key = Some(change.key);
                holds = 0;
            }
            holds = if change.is_release {
                holds.saturating_sub(1)
            } else {
                holds.saturating_add(1)
            };
            if holds >= enough {
                periods.push(Period {
                    key: change.key,
                    begin: change.moment,
                    end: next_moment(changes.as_slice(), place).unwrap_or(u64::MAX),
                })?;
            }
        }
        Ok(Holding { periods })
    }

    /// The first moment from this one on at which the key has enough holds, if there is one.
    pub fn first_from(&self, key: u64, from: u64) -> Option<u64>
        ensures { IfSome result (λ moment. from ≤ moment) }
    {
        let place = self
            .periods
            .partition_point(|period| (period.key, period.end) < (key, from));
        let period = self.periods.get(place)?;
        if period.key == key {
            Some(period.begin.max(from))
        } else {
            None
        }
    }
}
