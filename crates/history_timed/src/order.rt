//! The calls in the order of their moments.
ghost use Rattle.std.specs.Prelude.{IfOk, map};
ghost use Rattle.history_timed.specs.Placing.{call_of, IsTried};
ghost use Rattle.history_timed.specs.Orders.{IsOrder};

use crate::call::Call;
use crate::course::Courses;
use crate::holding::Holding;
use crate::moment::{Point, point_of};
use std::alloc::{AllocError, Global};

/// A call and its point in time.
#[derive(Clone, Copy, Debug)]
pub struct Placed<'a> {
    /// The point, within the times of the call.
    pub point: Point,
    /// The call.
    pub call: &'a Call,
}

/// The calls in an order that keeps to their times. Calls that never ended are left out, except inserts and removals
/// that others need. A refusal as crowded comes when its key first has `enough` holds, if it can. Refused if memory is.
pub fn in_order<'a>(
    alloc: Global,
    calls: &'a [Call],
    enough: u64,
) -> Result<Vec<Placed<'a>>, AllocError>
    ensures order { IfOk result (λ placed. IsOrder calls.now (map call_of placed.items)) }
    ensures tried { IfOk result (λ placed. IsTried calls.now (map call_of placed.items)) }
{
    let courses = Courses::new(alloc, calls)?;
    let holding = Holding::new(alloc, calls, &courses, enough)?;
    let mut all = Vec::new(alloc);
    for call in calls {
        let course = courses.of(call.said.key());
        if let Some(point) = point_of(&course, &holding, call) {
            all.push(Placed { point, call })?;
        }
    }
    all.sort_by_key(|placed| placed.point)?;
    Ok(all)
}
