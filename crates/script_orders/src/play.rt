//! Doing lines on a heap.
ghost use Rattle.std.specs.Prelude.{◌≡◌, ◌<◌, false, None, MatchOption, IfSome, IfOk, OnErr, Ok, is_some, length};
ghost use Rattle.std.specs.Prelude.{slice_index};
ghost use Rattle.sh_step.specs.declared.body.Body.{Body};
ghost use Rattle.sh_step.specs.Moves.{row_of};
ghost use Rattle.sh_step.specs.Plans.{Plan, plan_of};
ghost use Rattle.sh_core.specs.declared.outcome.Outcome.TheVariants.{Moved};
ghost use Rattle.sh_core.specs.Kept.{Represents, StepsWorld, RunsWorld};
ghost use Rattle.sh_core.specs.Outcomes.{row_of_event, outcome_of};
ghost use Rattle.sh_core.specs.Worlds.{World as Core};
ghost use Rattle.script_orders.specs.Seen.{Sees, Touches};

use crate::found::Program;
use crate::seen::seen;
use sh_core::{Outcome, World};
use sh_key::KeyLayout;
use sh_slots::{is_live_at, is_past_at};
use sh_step::{Event, Move};
use std::alloc::{AllocError, Global};

/// Does an event. If memory is refused, nothing is done.
pub fn step<L: KeyLayout>(world: &mut World<L>, event: &Event) -> Result<Outcome, AllocError>
    ensures ok { IfOk result (λ outcome. StepsWorld L.layout world.old event.now outcome world.new) }
    ensures err { OnErr result (world.new ≡ world.old) }
{
    match world.step(event) {
        Ok(outcome) => Ok(outcome),
        Err(_) => Err(AllocError),
    }
}

/// The heap after what is done first.
pub fn opened<L: KeyLayout>(alloc: Global, program: &Program<'_>) -> Result<World<L>, AllocError>
    ensures { IfOk result (λ world. RunsWorld L.layout program.now.shape program.now.before.now (Ok world)) }
{
    match sh_core::run::<L>(alloc, program.shape, program.before) {
        Ok(world) => Ok(world),
        Err(_) => Err(AllocError),
    }
}

/// The one word that an event's step touches.
#[derive(Clone, Copy, Debug, PartialEq, Eq)]
pub struct Touch {
    /// The number of the word.
    pub number: usize,
    /// The word that is found.
    pub found: u64,
    /// The same, as far as it matters to the pass.
    pub seen: u64,
    /// The word that is left.
    pub left: u64,
    /// Whether the step replies.
    pub replies: bool,
}

// The word of this number.
fn word_at(words: &[u64], number: usize) -> u64
    requires { number < length words.now }
    ensures { result ≡ slice_index words.now number }
{
    words[number]
}

// Whether the move decides a reply, by the word that it finds.
fn has_reply(the_move: &Move, found: u64) -> bool
    ensures { (plan : Plan) (p : Body) → result ≡ is_some ((row_of plan p the_move.now).reply found) }
{
    match the_move {
        Move::EnterRemove(_, name) => !is_live_at(name.generation, found),
        Move::Look(_, name) => is_past_at(name.generation, found),
        Move::EnterGet(_, _)
        | Move::Mark(_, _)
        | Move::DropHold(_, _)
        | Move::Publish(_, _)
        | Move::LookAgain(_, _, _) => true,
        _ => false,
    }
}

/// What the event's step touches, before it is done; none if its condition does not hold.
pub fn touch_of<L: KeyLayout>(world: &World<L>, event: &Event) -> Option<Touch>
    ensures is { MatchOption result
        ((w : Core) → Represents world.now w → row_of_event (plan_of L.layout world.now.shape) w event.now ≡ None)
        (λ touch. (w : Core) → Represents world.now w
        → Sees (plan_of L.layout world.now.shape) w event.now touch.seen) }
    ensures touches { IfSome result (λ touch. (w : Core) → Represents world.now w
        → Touches world.now.shape (plan_of L.layout world.now.shape) w event.now touch.number touch.found touch.seen
        touch.left) }
    ensures quiet { IfSome result (λ touch. touch.replies ≡ false → (w : Core) → Represents world.now w
        → Moved ≡ outcome_of (plan_of L.layout world.now.shape) w event.now) }
    ensures within { IfSome result (λ touch. touch.number < length world.now.words) }
{
    let shape = world.shape();
    let part = world.parts().get(event.pass as usize)?;
    let the_move = Move::of::<L>(&shape, part, &event.action)?;
    let step = the_move.step::<L>(&shape);
    let number = shape.index(step.place);
    let found = word_at(world.words(), number);
    let seen = seen::<L>(&the_move, found);
    let left = step.operation.after(found);
    let replies = has_reply(&the_move, found);
    Some(Touch {
        number,
        found,
        seen,
        left,
        replies,
    })
}
