//! What a pass does for a call of a line, and what the call returns.
ghost use Rattle.std.specs.Prelude.{◌≡◌};
ghost use Rattle.tool_calls.specs.Answers.{KeyAnswers, TakeAnswers, done as answered, told};
ghost use Rattle.tool_calls.specs.declared.answers.Answer.TheVariants as answer;

use crate::line::{Call, KeyCall};
use c_handles::HeldPass;
use sh_member::NextHeld;
use sh_pass::NextKey;
use sh_shape::classes::class_of;
use sh_value::{Hold, Refusal, Value, WORDS_MAX};
use std::alloc::Global;

/// What a call returned.
#[derive(Debug, Drop)]
pub enum Answer {
    /// Nothing but that it was done.
    Done,
    /// The key of an insert.
    Key(u64),
    /// A value.
    Value(Value),
    /// The page that a call prepared.
    Page(u32),
    /// A live key and the place at which to continue, and its value.
    Live(NextKey, Value),
    /// A live key, a hold on it and the place at which to continue.
    Held(NextHeld),
    /// No live key.
    NoKey,
    /// The live keys that a walk met.
    Keys(Vec<u64>),
    /// A refusal.
    Refused(Refusal),
}

fn done(returned: Result<(), Refusal>) -> Answer
    ensures { result ≡ answered returned }
{
    match returned {
        Ok(()) => Answer::Done,
        Err(why) => Answer::Refused(why),
    }
}

fn valued(returned: Result<Value, Refusal>) -> Answer
    ensures { result ≡ told answer.Value returned }
{
    match returned {
        Ok(value) => Answer::Value(value),
        Err(why) => Answer::Refused(why),
    }
}

fn insert(alloc: Global, pass: &mut HeldPass, words: &[u64]) -> Result<u64, Refusal> {
    let Ok(value) = Value::new(words) else {
        return Err(Refusal::TooLong);
    };
    pass.insert(alloc, &value)
}

// The value of a key, which this call removes.
fn take(pass: &mut HeldPass, key: u64) -> Answer
    ensures { TakeAnswers key pass.old result pass.new }
{
    let mut value = Value::from(0);
    match pass.take_into(key, WORDS_MAX, &mut value) {
        Ok(()) => Answer::Value(value),
        Err(why) => Answer::Refused(why),
    }
}

// A page for values of this many words.
fn prepare(pass: &mut HeldPass, words: u64) -> Result<u32, Refusal> {
    match class_of(words as usize) {
        Some(class) => pass.prepare(class),
        None => Err(Refusal::TooLong),
    }
}

/// What a call on a key returns.
pub fn on_key(pass: &mut HeldPass, call: KeyCall, key: u64) -> Answer
    ensures { KeyAnswers call key pass.old result pass.new }
{
    match call {
        KeyCall::Get => done(pass.get(key).map(|_hold| ())),
        KeyCall::Read => valued(pass.read(Hold { key })),
        KeyCall::Look => valued(pass.look(key)),
        KeyCall::Take => take(pass, key),
        KeyCall::Remove => done(pass.remove(key)),
        KeyCall::Release => done(pass.release(Hold { key })),
    }
}

// The first live key at a place from this one on.
fn next(pass: &mut HeldPass, from: u64) -> Answer {
    let mut value = Value::from(0);
    match pass.next_live_into(from, u64::MAX, &mut value) {
        Ok(Some(next)) => Answer::Live(next, value),
        Ok(None) => Answer::NoKey,
        Err(why) => Answer::Refused(why),
    }
}

// The same with a hold on the key.
fn hold(pass: &mut HeldPass, from: u64) -> Answer {
    match pass.next_held(from, u64::MAX) {
        Ok(Some(next)) => Answer::Held(next),
        Ok(None) => Answer::NoKey,
        Err(why) => Answer::Refused(why),
    }
}

// The live keys, in the order of their places.
fn walk(alloc: Global, pass: &mut HeldPass) -> Result<Vec<u64>, Refusal> {
    let mut keys = Vec::new(alloc);
    let mut value = Value::from(0);
    let mut place = 0;
    for _key in 0..u64::MAX {
        let Some(next) = pass.next_live_into(place, u64::MAX, &mut value)? else {
            break;
        };
        if keys.push(next.key).is_err() {
            return Err(Refusal::Memory);
        }
        place = next.behind;
    }
    Ok(keys)
}

/// What a call that is not on a key returns.
pub fn of_pass(alloc: Global, pass: &mut HeldPass, call: &Call<'_>) -> Answer {
    match call {
        Call::Adopt(shard) => done(pass.adopt(alloc, *shard)),
        Call::Leave => done(pass.leave_idle()),
        Call::Collect => done(pass.collect()),
        Call::Prepare(words) => match prepare(pass, *words) {
            Ok(page) => Answer::Page(page),
            Err(why) => Answer::Refused(why),
        },
        Call::Insert(_, words) => match insert(alloc, pass, words.as_slice()) {
            Ok(key) => Answer::Key(key),
            Err(why) => Answer::Refused(why),
        },
        Call::Next(from) => next(pass, *from),
        Call::Hold(from) => hold(pass, *from),
        Call::Walk => match walk(alloc, pass) {
            Ok(keys) => Answer::Keys(keys),
            Err(why) => Answer::Refused(why),
        },
        Call::OnKey(_, _) => Answer::NoKey,
    }
}
