//! Turns by hand: each step of a removal, get or release is a turn of its own, so that others can act between steps.
use crate::actor::{Actor, Task};
use crate::board::Board;
use crate::ends;
use crate::moments::Moments;
use crate::pass::LonePass;
use history_timed::Span;
use sh_step::Action;
use sh_value::Hold;
use std::sync::Wait;
use tool_judge::counts::Count;
use tool_judge::dice::Dice;
use tool_judge::fault::Call;
use tool_judge::line::Told;
use tool_judge::record::Record;

/// Begins a get, a release or a removal by hand, if the heap's calls can be made by hand.
pub fn begin<R: Wait, C: Drop, P: LonePass<Receipt = C>>(
    mut lone: P,
    record: &mut Record,
    board: &Board<'_, R, C>,
    dice: &mut Dice,
) -> Actor<P> {
    let left = board.look(&mut lone, record, dice.word());
    let call = dice.below(8);
    let key = match call {
        1..4 => record.hold(0).map(|held| held.hold.key),
        _ => left,
    };
    let Some(key) = key else {
        return Actor::Lone(lone);
    };
    let stopped = match lone.begin() {
        Ok(stopped) => stopped,
        Err(lone) => return Actor::Lone(lone),
    };
    record.counts.one(Count::Begun);
    let moments = &board.moments;
    match call {
        0 => get::<P>(stopped, record, moments, key),
        1..4 => release::<P>(stopped, record, moments, key),
        _ => remove::<P>(stopped, record, moments, key),
    }
}

// Does a step, and returns its times, or `None` if its condition did not hold.
fn act<P: LonePass>(
    stopped: &mut P::Stopped,
    record: &mut Record,
    moments: &Moments,
    action: &Action,
) -> Option<Span> {
    let begin = moments.next();
    if !P::act(stopped, action) {
        return None;
    }
    record.counts.one(Count::Acts);
    Some(moments.since(begin))
}

// Enters the slot of a key, to get it. If the pass has nothing left to do after that step, it has a hold. Otherwise the
// get was refused as gone or as crowded, and the step does not return which.
fn get<P: LonePass>(
    mut stopped: P::Stopped,
    record: &mut Record,
    moments: &Moments,
    key: u64,
) -> Actor<P> {
    let Some(times) = act::<P>(&mut stopped, record, moments, &Action::EnterGet(key)) else {
        if !record.is_full() {
            record.unbegun(Call::Get);
        }
        return end::<P>(stopped, record, key);
    };
    match P::end(stopped) {
        Ok(lone) => {
            record.got(Hold { key }, times);
            Actor::Lone(lone)
        }
        Err(stopped) => Actor::Stopped(stopped, Task::Ending(key)),
    }
}

// Releases the first of the pass's holds, which is on this key.
fn release<P: LonePass>(
    mut stopped: P::Stopped,
    record: &mut Record,
    moments: &Moments,
    key: u64,
) -> Actor<P> {
    match act::<P>(&mut stopped, record, moments, &Action::DropHold(key)) {
        Some(times) => {
            record.counts.one(Count::Releases);
            record.tell(key, times, Told::Released);
            record.forget(0);
        }
        None => record.unbegun(Call::Release),
    }
    Actor::Stopped(stopped, Task::Ending(key))
}

// Enters the slot of a key, to remove it.
fn remove<P: LonePass>(
    mut stopped: P::Stopped,
    record: &mut Record,
    moments: &Moments,
    key: u64,
) -> Actor<P> {
    match act::<P>(&mut stopped, record, moments, &Action::EnterRemove(key)) {
        Some(times) => Actor::Stopped(stopped, Task::Removing(key, times)),
        None => {
            record.unbegun(Call::Remove);
            end::<P>(stopped, record, key)
        }
    }
}

// Marks the slot that the pass entered to remove its key. If there is nothing to mark, the key was gone at the entry.
fn mark<P: LonePass>(
    stopped: &mut P::Stopped,
    record: &mut Record,
    moments: &Moments,
    key: u64,
    entered: Span,
) {
    match act::<P>(stopped, record, moments, &Action::Mark) {
        Some(times) => {
            record.counts.one(Count::Marks);
            record.tell(key, times, Told::Marked);
        }
        None => {
            record.counts.one(Count::Gones);
            record.tell(key, entered, Told::Gone);
        }
    }
}

// Returns the pass to its plain state, if nothing is left to do.
fn end<P: LonePass>(stopped: P::Stopped, record: &mut Record, key: u64) -> Actor<P> {
    match P::end(stopped) {
        Ok(lone) => Actor::Lone(lone),
        Err(stopped) => {
            record.endless();
            Actor::Stopped(stopped, Task::Ending(key))
        }
    }
}

// Does the next step that ends a removal, a release or a refused get of a key. False if nothing is left to do.
fn goes_on<P: LonePass>(
    stopped: &mut P::Stopped,
    record: &mut Record,
    moments: &Moments,
    key: u64,
) -> bool {
    if let Some(times) = act::<P>(stopped, record, moments, &Action::Finish) {
        ends::note_by_hand(record, times, key);
        return true;
    }
    let steps = [
        Action::Drop,
        Action::Put,
        Action::Tie,
        Action::Ring,
        Action::RingTie,
    ];
    for action in &steps {
        if P::act(stopped, action) {
            record.counts.one(Count::Acts);
            return true;
        }
    }
    false
}

/// Does the next step of what the pass began.
pub fn go_on<P: LonePass>(
    mut stopped: P::Stopped,
    task: Task,
    record: &mut Record,
    moments: &Moments,
) -> Actor<P> {
    let key = match task {
        Task::Removing(key, entered) => {
            mark::<P>(&mut stopped, record, moments, key, entered);
            return Actor::Stopped(stopped, Task::Ending(key));
        }
        Task::Ending(key) => key,
    };
    if goes_on::<P>(&mut stopped, record, moments, key) {
        return Actor::Stopped(stopped, Task::Ending(key));
    }
    end::<P>(stopped, record, key)
}
