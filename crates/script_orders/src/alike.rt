//! Which states are alike.
ghost use Rattle.std.specs.Prelude.{◌≡◌, ◌↔◌, IsTrue};
ghost use Rattle.sh_key.specs.Layout.{Layout};
ghost use Rattle.script_orders.specs.declared.found.Program.{Program};
ghost use Rattle.script_orders.specs.Lanes.{did};
ghost use Rattle.script_orders.specs.Marks.{mixed, with_lane, mark_of};
ghost use Rattle.script_orders.specs.Reached.{IsReached};
ghost use Rattle.script_orders.specs.States.{AreAlike, HaveSame};

use crate::lane::Lane;
use crate::state::State;

// A prime of 64 bits, and a number to begin with (FNV-1a).
const PRIME: u64 = 0x0100_0000_01b3;

const BASIS: u64 = 0xcbf2_9ce4_8422_2325;

// The mark with this number mixed into it.
#[tactic(auto, unfolding(crate::specs::Marks::mixed))]
fn mixed(mark: u64, number: u64) -> u64
    ensures { result ≡ mixed mark number }
{
    (mark ^ number).wrapping_mul(PRIME)
}

// The mark with the steps of a lane mixed into it.
fn mark_of_lane(mut mark: u64, lane: &Lane) -> u64
    ensures { result ≡ with_lane mark (did lane.now) }
{
    for step in &lane.story {
        mark = mixed(mixed(mark, step.line as u64), step.seen);
    }
    mixed(mark, lane.story.len() as u64)
}

/// A number that states which are alike share. Few others share it.
pub fn mark_of(state: &State) -> u64
    ensures { result ≡ mark_of state.now }
{
    let mut mark = BASIS;
    for lane in &state.lanes {
        mark = mark_of_lane(mark, lane);
    }
    mark
}

/// Whether the states go on alike: they have the same words, and each pass did the same, found the same and was replied
/// the same.
pub fn are_alike(state: &State, other: &State) -> bool
    ensures is { IsTrue result ↔ AreAlike state.now other.now }
    // The same words have the same changes.
    ensures words { (layout : Layout) (program : Program) → IsReached layout program state.now
        → IsReached layout program other.now → HaveSame layout program state.now other.now
        → AreAlike state.now other.now }
{
    state.lanes == other.lanes && state.changes == other.changes
}
