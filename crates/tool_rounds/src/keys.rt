//! Turns on keys.
use crate::moments::Moments;
use crate::pass::LonePass;
use crate::turn::Turn;
use crate::user::User;
use crate::using;
use sh_key::{KeyLayout, Parts};
use tool_judge::dice::Dice;
use tool_judge::record::Record;

// The number of one of the holds, chosen at random, if there is any.
fn some_hold(record: &Record, dice: &mut Dice) -> Option<u64> {
    let holds = record.holds();
    if holds == 0 {
        return None;
    }
    Some(dice.below(holds))
}

// How far the next key in the same slot is behind this one, or the key in the next slot if this one is the slot's last.
fn to_next_key<L: KeyLayout>(key: u64) -> u64 {
    let Some(parts) = L::unpack(key) else {
        return 0;
    };
    let next = Parts {
        generation: parts.generation.saturating_add(1),
        ..parts
    };
    if L::in_range(next) {
        L::pack(next).wrapping_sub(key)
    } else {
        1
    }
}

// The key after this one in the same slot of its chunk, or in the next slot if this one is the slot's last.
fn next_key<P: LonePass>(key: u64) -> u64 {
    let (_, within) = P::split(key);
    key.wrapping_add(to_next_key::<P::Layout>(within))
}

// Gets or looks at a number that may be a key. Such a look may end a key, and does not report it.
fn guess<U: User>(user: &mut U, record: &mut Record, moments: &Moments, dice: &mut Dice, key: u64) {
    if record.tells_ends || dice.once_in(2) {
        using::get(user, record, moments, key, true);
    } else {
        using::look(user, record, moments, key, true);
    }
}

/// Takes a turn on a key that a thread left, if there is one, or on a key that the pass holds. Other turns do nothing.
pub fn take_turn<P: LonePass, U: User>(
    user: &mut U,
    record: &mut Record,
    moments: &Moments,
    dice: &mut Dice,
    turn: Turn,
    key: Option<u64>,
) {
    let held = some_hold(record, dice);
    let turn = if record.tells_ends {
        turn.telling()
    } else {
        turn
    };
    match (turn, key, held) {
        (Turn::Get, Some(key), _) => using::get(user, record, moments, key, false),
        (Turn::Guard, Some(key), _) => using::guard(user, record, moments, key),
        (Turn::Guess, Some(key), _) => guess(user, record, moments, dice, next_key::<P>(key)),
        (Turn::Look, Some(key), _) => using::look(user, record, moments, key, false),
        (Turn::With, Some(key), _) => using::with(user, record, moments, key),
        (Turn::Take, Some(key), _) => using::take(user, record, moments, key),
        (Turn::Remove, Some(key), _) => using::remove(user, record, moments, key),
        (Turn::Read, _, Some(number)) => using::read(user, record, number),
        (Turn::Release, _, Some(number)) => using::release(user, record, moments, number),
        (Turn::RemoveHeld, _, Some(number)) => {
            if let Some(held) = record.hold(number) {
                using::remove(user, record, moments, held.hold.key);
            }
        }
        _ => {}
    }
}
