//! The moves of actions on keys. A move is `None` if the action may not be done.
ghost use Rattle.std.specs.Prelude.{◌≡◌};
ghost use Rattle.sh_step.specs.Plans.{plan_of};
ghost use Rattle.sh_step.specs.Moves.{move_of};

use crate::names::place_of_key;
use crate::{Action, Move, Part};
use sh_key::KeyLayout;
use sh_shape::Shape;
use sh_slots::Hand;

// The move that enters a slot to get a key.
#[tactic(auto, unfolding(crate::specs::Moves::move_of))]
pub fn enter_get<L: KeyLayout>(shape: &Shape, part: &Part, key: u64) -> Option<Move>
    ensures { result ≡ move_of (plan_of L.layout shape.now) part.now (Action.EnterGet key) }
{
    match place_of_key::<L>(shape, key) {
        Some(name) => part.may_get().then_some(Move::EnterGet(key, name)),
        None => None,
    }
}

// The move that enters a slot to remove a key.
#[tactic(auto, unfolding(crate::specs::Moves::move_of))]
pub fn enter_remove<L: KeyLayout>(shape: &Shape, part: &Part, key: u64) -> Option<Move>
    ensures { result ≡ move_of (plan_of L.layout shape.now) part.now (Action.EnterRemove key) }
{
    match place_of_key::<L>(shape, key) {
        Some(name) => part.is_idle().then_some(Move::EnterRemove(key, name)),
        None => None,
    }
}

// The move that gives back the count of a hold.
#[tactic(auto, unfolding(crate::specs::Moves::move_of))]
pub fn drop_hold<L: KeyLayout>(shape: &Shape, part: &Part, key: u64) -> Option<Move>
    ensures { result ≡ move_of (plan_of L.layout shape.now) part.now (Action.DropHold key) }
{
    match place_of_key::<L>(shape, key) {
        Some(name) => part.may_use(key).then_some(Move::DropHold(key, name)),
        None => None,
    }
}

// The move that reads the class of a held key's page.
#[tactic(auto, unfolding(crate::specs::Moves::move_of))]
pub fn read_class<L: KeyLayout>(shape: &Shape, part: &Part, key: u64) -> Option<Move>
    ensures { result ≡ move_of (plan_of L.layout shape.now) part.now (Action.ReadClass key) }
{
    match place_of_key::<L>(shape, key) {
        Some(name) => part.may_use(key).then_some(Move::ReadClass(key, name)),
        None => None,
    }
}

// The move that reads the length of a held key's value.
#[tactic(auto, unfolding(crate::specs::Moves::move_of))]
pub fn read_length<L: KeyLayout>(shape: &Shape, part: &Part, key: u64) -> Option<Move>
    ensures { result ≡ move_of (plan_of L.layout shape.now) part.now (Action.ReadLength key) }
{
    match place_of_key::<L>(shape, key) {
        Some(name) => part.may_use(key).then_some(Move::ReadLength(key, name)),
        None => None,
    }
}

// The move that begins a look at a key.
#[tactic(auto, unfolding(crate::specs::Moves::move_of))]
pub fn look<L: KeyLayout>(shape: &Shape, part: &Part, key: u64) -> Option<Move>
    ensures { result ≡ move_of (plan_of L.layout shape.now) part.now (Action.Look key) }
{
    match place_of_key::<L>(shape, key) {
        Some(name) => part.is_idle().then_some(Move::Look(key, name)),
        None => None,
    }
}

// The move that marks the slot of the key to remove.
#[tactic(auto, unfolding(crate::specs::Moves::move_of))]
pub fn mark<L: KeyLayout>(shape: &Shape, part: &Part) -> Option<Move>
    ensures { result ≡ move_of (plan_of L.layout shape.now) part.now Action.Mark }
{
    match part.hand() {
        Hand::Removing(key) => match place_of_key::<L>(shape, *key) {
            Some(name) => Some(Move::Mark(*key, name)),
            None => None,
        },
        _ => None,
    }
}

// The move that reads a word of a held key's value.
#[tactic(auto, unfolding(crate::specs::Moves::move_of))]
pub fn read_word<L: KeyLayout>(shape: &Shape, part: &Part, key: u64, i: u64) -> Option<Move>
    ensures { result ≡ move_of (plan_of L.layout shape.now) part.now (Action.ReadWord key i) }
{
    let Some(name) = place_of_key::<L>(shape, key) else {
        return None;
    };
    let Some(class) = part.class_word_of(key) else {
        return None;
    };
    let Some(length) = part.length_of(key) else {
        return None;
    };
    part.may_read(key, i, length)
        .then_some(Move::ReadWord(key, name, class, i))
}
