//! Doing one move on what is kept.
ghost use Rattle.std.specs.Prelude.{◌≡◌, ◌<◌, ◌≤◌, is_some, IsSome, IfOk, IfErr, OnOk, OnErr, vec_len, vec_capacity};
ghost use Rattle.sh_step.specs.declared.body.Body.{Body};
ghost use Rattle.sh_step.specs.Plans.{Plan, plan_of};
ghost use Rattle.sh_step.specs.Moves.{row_of};
ghost use Rattle.sh_core.specs.Worlds.{joined};
ghost use Rattle.sh_core.specs.Outcomes.{done};
ghost use Rattle.sh_core.specs.Kept.{IsReady, DoesRow, AsksMemory, word_at};

use crate::Outcome;
use crate::entry::{entry, word_at};
use sh_history::Entry;
use sh_key::KeyLayout;
use sh_shape::Shape;
use sh_slots::{is_live_at, is_past_at};
use sh_step::{Move, Part, steps_look_at_no_part};
use sh_value::Refusal;

// Whether the move decides a reply, by the word that it found.
fn has_reply(the_move: &Move, found: u64) -> bool
    ensures { (plan : Plan) (p : Body) → result ≡ is_some ((row_of plan p the_move.now).reply found) }
{
    match the_move {
        Move::EnterRemove(_, name) => !is_live_at(name.generation, found),
        Move::Look(_, name) => is_past_at(name.generation, found),
        Move::EnterGet(_, _)
        | Move::Mark(_, _)
        | Move::DropHold(_, _)
        | Move::Publish(_, _)
        | Move::LookAgain(_, _, _) => true,
        _ => false,
    }
}

// Makes room in the log for one entry.
fn make_room(log: &mut Vec<Entry>) -> Result<(), Refusal>
    ensures items { log.new.items ≡ log.old.items }
    ensures room { OnOk result (vec_len log.new < vec_capacity log.new) }
    // No more room than for this one is asked for.
    ensures lean { OnErr result (vec_capacity log.old ≤ vec_len log.old) }
    ensures memory { IfErr result (λ refusal. refusal ≡ Refusal.Memory) }
{
    match log.reserve(1) {
        Ok(()) => Ok(()),
        Err(_) => Err(Refusal::Memory),
    }
}

// Adds the entry of a step, if it has one, to the log, which has room for it.
fn join(log: &mut Vec<Entry>, new: Option<Entry>) -> Outcome
    requires { IsSome new → vec_len log.old < vec_capacity log.old }
    ensures log { log.new.items ≡ joined log.old.items new }
    ensures outcome { result ≡ done new }
{
    let Some(new) = new else {
        return Outcome::Moved;
    };
    match log.push(new.copy()) {
        Ok(()) => Outcome::Replied(new),
        Err(_) => unreachable!(),
    }
}

/// Does the move of a pass on the words, its own part and the log. Refused as `Memory` if memory for an entry, or for
/// what the part notes, is refused: then nothing changed. A move that adds neither is not refused.
pub fn do_move<L: KeyLayout>(
    shape: &Shape,
    words: &mut Vec<u64>,
    part: &mut Part,
    log: &mut Vec<Entry>,
    pass: u32,
    the_move: &Move,
) -> Result<Outcome, Refusal>
    requires { IsReady L.layout shape.now words.old.items (row_of (plan_of L.layout shape.now) part.old the_move.now) }
    ensures ok { IfOk result (λ outcome. DoesRow shape.now pass
        (row_of (plan_of L.layout shape.now) part.old the_move.now)
        words.old.items log.old.items outcome words.new.items part.new log.new.items) }
    ensures words { OnErr result (words.new.items ≡ words.old.items) }
    ensures part { OnErr result (part.new ≡ part.old) }
    ensures log { OnErr result (log.new.items ≡ log.old.items) }
    ensures asks { OnErr result (AsksMemory (row_of (plan_of L.layout shape.now) part.old the_move.now) part.old
        (word_at shape.now words.old.items (row_of (plan_of L.layout shape.now) part.old the_move.now).place)) }
    ensures memory { IfErr result (λ refusal. refusal ≡ Refusal.Memory) }
{
    steps_look_at_no_part();
    let step = the_move.step::<L>(shape);
    let found = word_at(shape, words, step.place);
    if has_reply(the_move, found) {
        make_room(log)?;
    }
    let reply = part.apply::<L>(shape, the_move, found)?;
    let new = match reply {
        Some(reply) => Some(entry(shape, words, pass, step.place, reply)),
        None => None,
    };
    words[shape.index(step.place)] = step.operation.after(found);
    Ok(join(log, new))
}
