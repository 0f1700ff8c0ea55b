//! What a step finds, as far as it matters to the pass.
ghost use Rattle.std.specs.Prelude.{◌≡◌};
ghost use Rattle.sh_shape.specs.Shape.{Numbers};
ghost use Rattle.sh_slots.specs.Slots.{after_drop};
ghost use Rattle.sh_step.specs.Plans.{plan_of};
ghost use Rattle.script_orders.specs.Seen.{is_got, ended_by, seen_by_look, seen_in};

use sh_key::KeyLayout;
use sh_slots::{
    GetAnswer, Hand, SlotRef, after_drop, answer_to_get, is_live_at, is_past_at, is_reusable_after,
};
use sh_step::Move;
use sh_step::operands::{gen_max, guard_max};

// Whether a get with this answer got the value.
fn is_got(answer: GetAnswer) -> bool
    ensures { result ≡ is_got answer }
{
    match answer {
        GetAnswer::Got => true,
        GetAnswer::Crowded | GetAnswer::Gone => false,
    }
}

// The generation that is left to be ended, plus 1; 0 if there is none.
fn ended_by(hand: &Hand) -> u64
    ensures { result ≡ ended_by hand.now }
{
    match hand {
        Hand::Finishing(_, generation, _) => u64::from(*generation) + 1,
        _ => 0,
    }
}

// What a drop that found this word leaves to be ended.
fn seen_by_drop(found: u64) -> u64
    ensures { result ≡ ended_by (after_drop (record { page = 0; slot = 0 }) found) }
{
    ended_by(&after_drop(SlotRef { page: 0, slot: 0 }, found))
}

// What the first load of a look found: 1 if the value of this generation is there, 2 if it was removed, and 0 if it was
// not there yet.
fn seen_by_look(generation: u32, found: u64) -> u64
    ensures { result ≡ seen_by_look generation found }
{
    if is_live_at(generation, found) {
        1
    } else if is_past_at(generation, found) {
        2
    } else {
        0
    }
}

/// What the move's step found, as far as what the pass has depends on it. Of two words that are seen as the same, the
/// pass keeps the same part.
pub fn seen<L: KeyLayout>(the_move: &Move, found: u64) -> u64
    ensures { (n : Numbers) → result ≡ seen_in (plan_of L.layout n) the_move.now found }
{
    match the_move {
        Move::EnterGet(_, name) => {
            u64::from(is_got(answer_to_get(name.generation, guard_max::<L>(), found)))
        }
        Move::EnterRemove(_, name) | Move::LookAgain(_, name, _) => {
            u64::from(is_live_at(name.generation, found))
        }
        Move::Look(_, name) => seen_by_look(name.generation, found),
        Move::Drop(_) | Move::DropHold(_, _) => seen_by_drop(found),
        Move::Finish(_, generation) => {
            u64::from(is_reusable_after(*generation, gen_max::<L>(), found))
        }
        Move::Mark(_, _)
        | Move::Publish(_, _)
        | Move::FillSlot(_, _)
        | Move::Fill(_, _, _, _)
        | Move::SetClass(_, _)
        | Move::Tie(_, _, _)
        | Move::Leave(_)
        | Move::RingTie(_, _) => 0,
        _ => found,
    }
}
