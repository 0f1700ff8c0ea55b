//! Turns of owners: they adopt and leave shards, and insert values.
ghost use Rattle.std.specs.Prelude.{◌≤◌};

use crate::actor::Actor;
use crate::board::{Board, Letter};
use crate::moments::Moments;
use crate::pass::LonePass;
use crate::plan::MOST_SLOTS;
use crate::user::User;
use crate::using;
use sh_value::Refusal;
use std::alloc::Global;
use std::sync::Wait;
use tool_judge::counts::Count;
use tool_judge::dice::Dice;
use tool_judge::fault::Call;
use tool_judge::line::Told;
use tool_judge::pattern;
use tool_judge::record::Record;

/// Tries to adopt a shard.
pub fn adopt<P: LonePass>(alloc: Global, lone: P, record: &mut Record, shard: u64) -> Actor<P> {
    match lone.adopt(alloc, shard) {
        Ok(owner) => {
            record.counts.one(Count::Adoptions);
            Actor::Owner(owner)
        }
        Err((lone, refusal)) => {
            match refusal {
                Refusal::Taken => record.counts.one(Count::Takens),
                _ => record.refused(Call::Adopt, refusal),
            }
            Actor::Lone(lone)
        }
    }
}

/// Tries to leave the shard.
pub fn leave<P: LonePass>(owner: P::Owner, record: &mut Record) -> Actor<P> {
    match P::leave(owner) {
        Ok(lone) => {
            record.counts.one(Count::Leaves);
            Actor::Lone(lone)
        }
        Err((owner, refusal)) => {
            match refusal {
                Refusal::Waiting => record.counts.one(Count::Waitings),
                _ => record.refused(Call::Leave, refusal),
            }
            Actor::Owner(owner)
        }
    }
}

// Inserts a value of `len` words, and returns its key, or `None` if the insert was refused.
fn put<P: LonePass>(
    owner: &mut P::Owner,
    record: &mut Record,
    moments: &Moments,
    len: usize,
) -> Option<u64>
    requires { len ≤ 16 }
{
    let begin = moments.next();
    let value = pattern::value(begin, len);
    let answer = P::insert(owner, &value);
    let times = moments.since(begin);
    match answer {
        Ok(key) => {
            record.counts.one(Count::Inserts);
            record.tell(key, times, Told::Inserted(value));
            Some(key)
        }
        Err(Refusal::Full) => {
            record.counts.one(Count::Fulls);
            None
        }
        Err(refusal) => {
            record.refused(Call::Insert, refusal);
            None
        }
    }
}

/// Inserts a value of any length and leaves its key on the board, with a receipt. Removes the key that was there.
pub fn insert<R: Wait, C: Drop, P: LonePass<Receipt = C>>(
    owner: &mut P::Owner,
    record: &mut Record,
    board: &Board<'_, R, C>,
    dice: &mut Dice,
) {
    let len = dice.below(17) as usize;
    let Some(key) = put::<P>(owner, record, &board.moments, len) else {
        return;
    };
    let letter = Letter {
        key,
        told: owner.receipt(),
    };
    if let Some(old) = board.leave(dice.word(), letter) {
        using::heed(owner, record, old.told);
        using::remove(owner, record, &board.moments, old.key);
    }
}

/// Gives a page of the owner's shard a class, any of the eight.
pub fn prepare<P: LonePass>(owner: &mut P::Owner, record: &mut Record, dice: &mut Dice) {
    match P::prepare(owner, dice.below(8) as u32) {
        Ok(()) => {}
        Err(Refusal::Full) => record.counts.one(Count::Fulls),
        Err(refusal) => record.refused(Call::Insert, refusal),
    }
}

/// Inserts values of `len` words into the owner's shard until it is full, or into the heap if that grows.
pub fn fill_own<P: LonePass>(
    owner: &mut P::Owner,
    record: &mut Record,
    moments: &Moments,
    len: usize,
)
    requires { len ≤ 16 }
{
    for _ in 0..MOST_SLOTS {
        if put::<P>(owner, record, moments, len).is_none() {
            return;
        }
    }
}

/// Adopts a shard that nobody owns, inserts values of `len` words until it is full, and leaves it.
pub fn fill<P: LonePass>(
    alloc: Global,
    lone: P,
    record: &mut Record,
    moments: &Moments,
    shard: u64,
    len: usize,
) -> Actor<P>
    requires { len ≤ 16 }
{
    let Actor::Owner(mut owner) = adopt(alloc, lone, record, shard) else {
        record.refused(Call::Adopt, Refusal::Taken);
        return Actor::Moving;
    };
    fill_own::<P>(&mut owner, record, moments, len);
    leave::<P>(owner, record)
}
