//! The moment of a call, by the course of its key.
ghost use Rattle.std.specs.Prelude.{◌≡◌, ◌≤◌, MatchOption, true, false};
ghost use Rattle.history_timed.specs.Times.{IsWithin, is_ended};
ghost use Rattle.history_timed.specs.Courses.{insert_moment, removal_moment};
ghost use Rattle.history_timed.specs.Moments.{gone_wish, inserted_at, IsWish, IsPoint, is_left_out};

use crate::call::{Call, Said};
use crate::course::Course;
use crate::holding::Holding;
use sh_history::Entry;

/// The order of answers on one key at one moment.
#[derive(Clone, Copy, Debug, PartialEq, Eq, PartialOrd, Ord)]
pub enum Rank {
    /// The key is gone, since it is yet to be inserted.
    Early,
    /// An insert.
    Insert,
    /// A get or a look.
    Get,
    /// A get that is refused as crowded.
    Crowded,
    /// A removal.
    Remove,
    /// The key is gone, since it was removed.
    Late,
    /// A release.
    Release,
}

/// A moment, and the order at it.
#[derive(Clone, Copy, Debug, PartialEq, Eq, PartialOrd, Ord)]
pub struct Point {
    /// The moment.
    pub moment: u64,
    /// The order at that moment.
    pub rank: Rank,
}

// The wish of an answer that the key is gone: before the insert if the call had begun by then, and otherwise after the
// removal.
fn gone(course: &Course, begin: u64) -> (u64, Rank)
    ensures { result ≡ gone_wish (insert_moment course.now) (removal_moment course.now) begin }
{
    match course.inserted() {
        Some(inserted) if inserted < begin => { (course.removed().unwrap_or(u64::MAX), Rank::Late) }
        _ => (begin, Rank::Early),
    }
}

// The wish of a refusal as crowded: the first moment in its times at which the key has enough holds, or its first one.
fn crowded(course: &Course, holding: &Holding, call: &Call) -> u64
    ensures { inserted_at course.now ≤ result }
{
    let begun = call.times.begin().max(course.inserted().unwrap_or(0));
    match holding.first_from(call.said.key(), begun) {
        Some(moment) if moment == call.times.nearest(moment) => moment,
        _ => begun,
    }
}

// The moment that a call would have, if its times did not count, and its rank.
fn wish(course: &Course, holding: &Holding, call: &Call) -> (u64, Rank)
    ensures { IsWish course.now call.now.times.begin call.now.said result }
{
    let inserted = course.inserted().unwrap_or(0);
    match &call.said {
        Said::Known(Entry::Insert(_, _, _)) => (inserted, Rank::Insert),
        Said::Known(Entry::Got(_, _, _) | Entry::Seen(_, _, _)) | Said::Unread(_, _) => {
            (inserted, Rank::Get)
        }
        Said::Known(Entry::Crowded(_, _)) => (crowded(course, holding, call), Rank::Crowded),
        Said::Known(Entry::Gone(_, _)) => gone(course, call.times.begin()),
        Said::Known(Entry::Removed(_, _)) => (course.removed().unwrap_or(0), Rank::Remove),
        Said::Known(Entry::Released(_, _)) => (u64::MAX, Rank::Release),
    }
}

/// The point of a call in its times, or `None` if it never ended and is best left out.
pub fn point_of(course: &Course, holding: &Holding, call: &Call) -> Option<Point>
    ensures is { MatchOption result (is_left_out course.now call.now ≡ true) (IsPoint course.now call.now) }
    ensures within { MatchOption result (is_ended call.now.times ≡ false)
        (λ point. IsWithin call.now.times point.moment) }
{
    if !call.times.is_ended() && !course.is_change(call.line) {
        return None;
    }
    let (moment, rank) = wish(course, holding, call);
    Some(Point {
        moment: call.times.nearest(moment),
        rank,
    })
}
