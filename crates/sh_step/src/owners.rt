//! The moves of actions on shards and their bells. A move is `None` if the action may not be done.
ghost use Rattle.std.specs.Prelude.{◌≡◌};
ghost use Rattle.sh_step.specs.Plans.{plan_of, Plan};
ghost use Rattle.sh_step.specs.Moves.{move_of};

use crate::{Action, Move, Part};
use sh_key::KeyLayout;
use sh_shape::Shape;

/// The move that adopts a shard.
#[tactic(auto, unfolding(crate::specs::Moves::move_of))]
pub fn adopt<L: KeyLayout>(shape: &Shape, part: &Part, shard: u64) -> Option<Move>
    ensures { result ≡ move_of (plan_of L.layout shape.now) part.now (Action.Adopt shard) }
{
    let allowed = part.is_idle() && shard < u64::from(shape.shards());
    match part.owned() {
        None => allowed.then_some(Move::Adopt(shard)),
        Some(_) => None,
    }
}

/// The move that gives the shard up.
#[tactic(auto, unfolding(crate::specs::Moves::move_of))]
pub fn leave(part: &Part) -> Option<Move>
    ensures { (plan : Plan) → result ≡ move_of plan part.now Action.Leave }
{
    let allowed = part.is_idle() && part.has_nothing_of_shard();
    match part.owned() {
        Some(shard) => allowed.then_some(Move::Leave(shard)),
        None => None,
    }
}

/// The move that takes the bell.
#[tactic(auto, unfolding(crate::specs::Moves::move_of))]
pub fn take_bell(part: &Part) -> Option<Move>
    ensures { (plan : Plan) → result ≡ move_of plan part.now Action.TakeBell }
{
    let allowed = part.is_idle() && part.bell_cursor().is_none();
    match part.owned() {
        Some(shard) => allowed.then_some(Move::TakeBell(shard)),
        None => None,
    }
}

/// The move that follows the bell's cursor.
#[tactic(auto, unfolding(crate::specs::Moves::move_of))]
pub fn follow_bell(part: &Part) -> Option<Move>
    ensures { (plan : Plan) → result ≡ move_of plan part.now Action.FollowBell }
{
    let allowed = part.is_idle();
    match part.bell_cursor() {
        Some(page) => allowed.then_some(Move::FollowBell(page)),
        None => None,
    }
}
