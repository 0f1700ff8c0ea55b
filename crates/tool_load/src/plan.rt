//! The size of the heap that a workload needs.
ghost use Rattle.std.specs.Prelude.{◌≡◌, ℕ, ◌*◌, ◌≤◌, IfOk, IfErr, MatchOption};
ghost use Rattle.sh_shape.specs.Classes.{class_of, slots};
ghost use Rattle.tool_load.specs.Plans.{HasNoPlan, IsPlanFor, IsPossible, filled_pages, filled_up_to, pages_filled};
ghost use Rattle.tool_load.specs.Plans.{shape_for};

use crate::demand::Demand;
use crate::fault::Fault;
use crate::samples::Lengths;
use sh_key::KeyLayout;
use sh_shape::{SEGMENT_PAGES, Shape, classes, fits};

/// The shape of the heap, and the number of shards that each owner's thread has, one after the other. It is 1, unless
/// the values need more pages than a shard has.
#[derive(Clone, Copy)]
pub struct Plan {
    pub shape: Shape,
    pub shards: usize,
}

// The number of pages of a segment.
const SEGMENT: usize = SEGMENT_PAGES as usize;

// The greatest number of shards for the values of a thread: each shard needs a pass, and a heap has 64.
const MOST_SHARDS: usize = 64;

// The number of pages that `values` values of `words` words fill.
fn pages_of(words: usize, values: usize) -> usize
    ensures is { result ≡ filled_pages words values }
    ensures room { (class : ℕ) → class_of words ≡ Some class → values ≤ result * slots class }
    ensures few { result ≤ values }
{
    match classes::class_of(words) {
        Some(class) => values.div_ceil(classes::slots(class) as usize),
        None => 0,
    }
}

// The number of pages that `each` values of each length from 1 to 16 words fill.
fn pages_of_mixed(each: usize) -> usize
    requires { each ≤ 30000000 }
    ensures { result ≡ filled_up_to 16 each }
{
    let mut pages = 0usize;
    for words in 1..17 {
        pages = pages.saturating_add(pages_of(words, each));
    }
    pages
}

// The number of pages that these values fill.
fn pages(lengths: Lengths, values: usize) -> usize
    requires { values ≤ 30000000 }
    ensures { result ≡ pages_filled lengths values }
{
    match lengths {
        Lengths::Each(words) => pages_of(words, values),
        Lengths::Mixed => pages_of_mixed(values / 16 + 1),
    }
}

// The plan in which each owner's thread has this many shards, if there is one.
fn plan_with<L: KeyLayout>(demand: &Demand, shards: usize) -> Option<Plan>
    requires some { 1 ≤ shards }
    requires few { shards ≤ 64 }
    ensures { MatchOption result (IsPossible L.layout (shape_for demand.now shards) → ⊥)
        (λ plan. (plan.shards ≡ shards) × (plan.shape ≡ shape_for demand.now shards)
        × IsPossible L.layout plan.shape) }
{
    let pages = pages(demand.lengths, demand.values / shards + demand.more + 16);
    let owners = demand.owners * shards;
    let passes = demand.passes.max(owners + demand.others);
    let segments = u32::try_from(pages / SEGMENT + 1).ok()?;
    let shape = Shape::large(owners as u32, segments, passes as u32).ok()?;
    if fits::<L>(&shape) {
        Some(Plan { shape, shards })
    } else {
        None
    }
}

/// The plan with the fewest shards. Returns `TooMany` if there is none.
pub fn plan_for<L: KeyLayout>(demand: &Demand) -> Result<Plan, Fault>
    ensures plan { IfOk result (IsPlanFor L.layout demand.now) }
    ensures none { IfErr result (λ fault. (fault ≡ Fault.TooMany) × HasNoPlan L.layout demand.now) }
{
    for shards in 1..MOST_SHARDS + 1 {
        if let Some(plan) = plan_with::<L>(demand, shards) {
            return Ok(plan);
        }
    }
    Err(Fault::TooMany)
}
