//! Calls on keys, which note their results in the record.
use crate::ends;
use crate::moments::Moments;
use crate::user::{Met, User};
use history_timed::Span;
use sh_value::{Hold, Refusal, Value};
use std::alloc::Global;
use tool_judge::counts::Count;
use tool_judge::fault::{Call, Fault, Wrong};
use tool_judge::line::Told;
use tool_judge::record::Record;

/// Heeds a receipt.
pub fn heed<U: User>(user: &mut U, record: &mut Record, told: U::Receipt) {
    if let Err(refusal) = user.heed(told) {
        record.refused(Call::Heed, refusal);
    }
}

/// Takes a hold on a key. A guessed number may be no key.
pub fn get<U: User>(user: &mut U, record: &mut Record, moments: &Moments, key: u64, guessed: bool) {
    let (answer, times) = ends::get(user, record, moments, key);
    match answer {
        Ok(hold) => record.got(hold, times),
        Err(Refusal::BadKey) if guessed => record.counts.one(Count::BadKeys),
        Err(refusal) => not_got(record, key, times, refusal),
    }
}

// Notes a get that was refused.
fn not_got(record: &mut Record, key: u64, times: Span, refusal: Refusal) {
    match refusal {
        Refusal::Gone => {
            record.counts.one(Count::Gones);
            record.tell(key, times, Told::Gone);
        }
        Refusal::Crowded => {
            record.counts.one(Count::Crowdeds);
            record.tell(key, times, Told::Crowded);
        }
        Refusal::HoldsFull if record.is_full() => record.counts.one(Count::HoldsFulls),
        refusal => record.refused(Call::Get, refusal),
    }
}

/// Takes a hold on a key by a guard, and reads by it.
pub fn guard<U: User>(user: &mut U, record: &mut Record, moments: &Moments, key: u64) {
    let mut value = Value::empty();
    let begin = moments.next();
    let answer = user.guard(key, &mut value);
    let times = moments.since(begin);
    match answer {
        Ok(hold) => note_guarded(record, hold, times, value),
        Err(refusal) => not_got(record, key, times, refusal),
    }
}

// Notes a hold, and what was read by it.
fn note_guarded(record: &mut Record, hold: Hold, times: Span, value: Value) {
    let number = record.holds();
    record.got(hold, times);
    if let Some(held) = record.hold(number) {
        record.read(held, value);
    }
}

// Notes what a call returned that copies the value of a key. If it had a hold, it released that before it returned.
fn note_copied(record: &mut Record, key: u64, times: Span, answer: Result<Value, Refusal>) {
    match answer {
        Ok(value) => record.seen(key, times, value),
        Err(refusal) => not_got(record, key, times, refusal),
    }
}

/// Looks at a key. A guessed number may be no key.
pub fn look<U: User>(
    user: &mut U,
    record: &mut Record,
    moments: &Moments,
    key: u64,
    guessed: bool,
) {
    let begin = moments.next();
    let answer = user.look(key);
    let times = moments.since(begin);
    match answer {
        Err(Refusal::BadKey) if guessed => record.counts.one(Count::BadKeys),
        answer => note_copied(record, key, times, answer),
    }
}

/// Copies the value of a key within one call.
pub fn with<U: User>(user: &mut U, record: &mut Record, moments: &Moments, key: u64) {
    let begin = moments.next();
    let answer = user.with(key);
    let times = moments.since(begin);
    note_copied(record, key, times, answer);
}

// The next key of a walk, which was seen in the time of that call. `None` also if it is refused, or not behind the place.
fn next_met<U: User>(
    user: &mut U,
    record: &mut Record,
    moments: &Moments,
    place: u64,
) -> Option<(u64, u64)> {
    let begin = moments.next();
    let answer = user.next_live(place);
    let times = moments.since(begin);
    match answer {
        Ok(Some(Met { key, value, behind })) => {
            record.seen(key, times, value);
            if behind <= place {
                record.find(Wrong::WentBack(record.pass, key));
                return None;
            }
            Some((key, behind))
        }
        Ok(None) => None,
        Err(refusal) => {
            record.refused(Call::Walk, refusal);
            None
        }
    }
}

/// Walks over all live keys.
pub fn walk<U: User>(alloc: Global, user: &mut U, record: &mut Record, moments: &Moments) {
    let begin = moments.next();
    let mut met = Vec::new(alloc);
    let mut place = 0;
    for _ in 0..u64::MAX {
        let Some((key, behind)) = next_met(user, record, moments, place) else {
            break;
        };
        place = behind;
        if met.push(key).is_err() {
            record.fail(Fault::Memory);
            return;
        }
    }
    record.walked(moments.since(begin), met);
}

/// Takes the value of a key and removes it, by one call. So the key was seen and removed in the time of that call.
pub fn take<U: User>(user: &mut U, record: &mut Record, moments: &Moments, key: u64) {
    let begin = moments.next();
    let answer = user.take(key);
    let times = moments.since(begin);
    let is_taken = answer.is_ok();
    note_copied(record, key, times, answer);
    if is_taken {
        record.counts.one(Count::Removes);
        record.tell(key, times, Told::Removed);
    }
}

/// Removes a key.
pub fn remove<U: User>(user: &mut U, record: &mut Record, moments: &Moments, key: u64) {
    let (answer, times) = ends::remove(user, record, moments, key);
    match answer {
        Ok(()) => {
            record.counts.one(Count::Removes);
            record.tell(key, times, Told::Removed);
        }
        Err(Refusal::Gone) => {
            record.counts.one(Count::Gones);
            record.tell(key, times, Told::Gone);
        }
        Err(refusal) => record.refused(Call::Remove, refusal),
    }
}

/// Reads the value of one of the holds.
pub fn read<U: User>(user: &mut U, record: &mut Record, number: u64) {
    let Some(held) = record.hold(number) else {
        return;
    };
    match user.read(held.hold) {
        Ok(value) => record.read(held, value),
        Err(refusal) => record.refused(Call::Read, refusal),
    }
}

/// Releases one of the holds.
pub fn release<U: User>(user: &mut U, record: &mut Record, moments: &Moments, number: u64) {
    let Some(held) = record.hold(number) else {
        return;
    };
    let (answer, times) = ends::release(user, record, moments, held.hold);
    match answer {
        Ok(()) => {
            record.counts.one(Count::Releases);
            record.tell(held.hold.key, times, Told::Released);
            record.forget(number);
        }
        Err(refusal) => record.refused(Call::Release, refusal),
    }
}
