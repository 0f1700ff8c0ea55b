//! The moves that continue what a pass has begun. A move is `None` if the pass has begun nothing of the kind.
ghost use Rattle.std.specs.Prelude.{◌≡◌};
ghost use Rattle.sh_step.specs.Plans.{Plan};
ghost use Rattle.sh_step.specs.Moves.{move_of};

use crate::operands::is_read;
use crate::{Action, Move, Part};
use sh_slots::Hand;

/// The move that gives back the count on the slot that the pass is leaving.
#[tactic(auto, unfolding(crate::specs::Moves::move_of))]
pub fn drop_hand(part: &Part) -> Option<Move>
    ensures { (plan : Plan) → result ≡ move_of plan part.now Action.Drop }
{
    match part.hand() {
        Hand::Leaving(slot_ref) => Some(Move::Drop(*slot_ref)),
        _ => None,
    }
}

/// The move that reads on of the value whose generation the pass is to end.
#[tactic(auto, unfolding(crate::specs::Moves::move_of))]
pub fn read_ending(part: &Part) -> Option<Move>
    ensures { (plan : Plan) → result ≡ move_of plan part.now Action.ReadEnding }
{
    match part.hand() {
        Hand::Finishing(slot_ref, generation, sight) => {
            (!is_read(slot_ref.name(*generation), sight)).then_some(Move::ReadEnding(
                *slot_ref,
                *generation,
                sight.copy(),
            ))
        }
        _ => None,
    }
}

/// The move that ends a generation.
#[tactic(auto, unfolding(crate::specs::Moves::move_of))]
pub fn finish(part: &Part) -> Option<Move>
    ensures { (plan : Plan) → result ≡ move_of plan part.now Action.Finish }
{
    match part.hand() {
        Hand::Finishing(slot_ref, generation, _) => Some(Move::Finish(*slot_ref, *generation)),
        _ => None,
    }
}

/// The move that puts the slot in the hand.
#[tactic(auto, unfolding(crate::specs::Moves::move_of))]
pub fn put(part: &Part) -> Option<Move>
    ensures { (plan : Plan) → result ≡ move_of plan part.now Action.Put }
{
    match part.hand() {
        Hand::ToPut(slot_ref) => Some(Move::Put(*slot_ref)),
        _ => None,
    }
}

/// The move that stores a slot's link.
#[tactic(auto, unfolding(crate::specs::Moves::move_of))]
pub fn tie(part: &Part) -> Option<Move>
    ensures { (plan : Plan) → result ≡ move_of plan part.now Action.Tie }
{
    match part.hand() {
        Hand::Tying(slot_ref, link, ring) => Some(Move::Tie(*slot_ref, *link, *ring)),
        _ => None,
    }
}

/// The move that rings.
#[tactic(auto, unfolding(crate::specs::Moves::move_of))]
pub fn ring(part: &Part) -> Option<Move>
    ensures { (plan : Plan) → result ≡ move_of plan part.now Action.Ring }
{
    match part.hand() {
        Hand::Ringing(page) => Some(Move::Ring(*page)),
        _ => None,
    }
}

/// The move that stores a page's link.
#[tactic(auto, unfolding(crate::specs::Moves::move_of))]
pub fn ring_tie(part: &Part) -> Option<Move>
    ensures { (plan : Plan) → result ≡ move_of plan part.now Action.RingTie }
{
    match part.hand() {
        Hand::RingTying(page, link) => Some(Move::RingTie(*page, *link)),
        _ => None,
    }
}

/// The move that stores the next word of a value.
#[tactic(auto, unfolding(crate::specs::Moves::move_of))]
pub fn fill(part: &Part) -> Option<Move>
    ensures { (plan : Plan) → result ≡ move_of plan part.now Action.Fill }
{
    match part.hand() {
        Hand::Filling(slot_ref, value, done) => (*done < value.words().len() as u64).then_some(
            Move::Fill(
                *slot_ref,
                value.copy(),
                *done,
                part.class_word(slot_ref.page),
            ),
        ),
        _ => None,
    }
}

/// The move that ends a filling.
#[tactic(auto, unfolding(crate::specs::Moves::move_of))]
pub fn publish(part: &Part) -> Option<Move>
    ensures { (plan : Plan) → result ≡ move_of plan part.now Action.Publish }
{
    match part.hand() {
        Hand::Filling(slot_ref, value, done) => (value.words().len() as u64 <= *done).then_some(
            Move::Publish(*slot_ref, value.copy()),
        ),
        _ => None,
    }
}

/// The move that reads on of the key that the pass looks at.
#[tactic(auto, unfolding(crate::specs::Moves::move_of))]
pub fn look_on(part: &Part) -> Option<Move>
    ensures { (plan : Plan) → result ≡ move_of plan part.now Action.LookOn }
{
    match part.hand() {
        Hand::Looking(key, name, sight) => (!is_read(*name, sight)).then_some(Move::LookOn(
            *key,
            *name,
            sight.copy(),
        )),
        _ => None,
    }
}

/// The move that ends a look.
#[tactic(auto, unfolding(crate::specs::Moves::move_of))]
pub fn look_again(part: &Part) -> Option<Move>
    ensures { (plan : Plan) → result ≡ move_of plan part.now Action.LookAgain }
{
    match part.hand() {
        Hand::Looking(key, name, sight) => is_read(*name, sight).then_some(Move::LookAgain(
            *key,
            *name,
            sight.copy(),
        )),
        _ => None,
    }
}
