//! One line on a side: the same for every way of running.
ghost use Rattle.std.specs.Prelude.{◌≡◌, ℕ, IfOk, true, false, is_some};
ghost use Rattle.script_output.specs.Keys.{HasTagRoom};
ghost use Rattle.script_calls.specs.Parts.{SeenPass, SamePass};
ghost use Rattle.script_calls.specs.Calls.{CallAnswers, AnswerSays, GetAnswers, ReadAnswers, RemoveAnswers};
ghost use Rattle.script_calls.specs.Calls.{ReleaseAnswers, AdoptAnswers, LeaveAnswers, WordsAnswers, key_meant};
ghost use Rattle.script_calls.specs.Calls.{name_referred, name_used, binds, number_told};
ghost use Rattle.sh_script.specs.BoundNames.{name_needed};
ghost use Rattle.script_output.specs.Results.{done_answer, value_answer, key_answer};
ghost use Rattle.script_calls.specs.InOrder.{adds_entry};
ghost use Rattle.script_calls.specs.Runs.{number_bound, number_meant};

use crate::side::Side;
use script_output::Answer;
use script_output::keys::{key_shown, shown};
use sh_script::{Call, Reference};
use sh_value::{Hold, Refusal, Value};
use std::alloc::Global;

/// The answer that reports a result without a value.
pub fn done<T: Drop>(res: Result<T, Refusal>) -> Answer
    ensures { result ≡ done_answer res }
{
    match res {
        Ok(_) => Answer::Done,
        Err(refusal) => Answer::Refused(refusal),
    }
}

// The key that a call is on, or the answer to the call if there is no key.
fn key_meant(tag: Option<u8>, bound: Option<u64>, reference: Reference) -> Result<u64, Answer>
    ensures { result ≡ key_meant tag bound reference }
{
    let number = match reference {
        Reference::Key(number) => number,
        Reference::Name(_) => match bound {
            Some(number) => number,
            None => return Err(Answer::Unbound),
        },
    };
    match key_shown(tag, number) {
        Some(key) => Ok(key),
        None => Err(Answer::Refused(Refusal::BadKey)),
    }
}

#[tactic(auto, using(crate::proofs::CallLemmas::too_long, crate::proofs::CallLemmas::fits))]
fn insert<S: Side>(side: &mut S, tag: Option<u8>, words: &[u64]) -> Answer
    requires room { HasTagRoom (S.seen side.old).terms.layout tag }
    ensures does { AnswerSays (key_answer tag) (WordsAnswers (S.seen side.old).terms (S.seen side.old).pass
        (S.seen side.old).part words.now) result (S.seen side.new).part }
    ensures same { SamePass (S.seen side.old) (S.seen side.new) }
{
    let value = match Value::new(words) {
        Ok(value) => value,
        Err(refusal) => return Answer::Refused(refusal),
    };
    match side.insert(&value) {
        Ok(key) => Answer::Key(shown(tag, key)),
        Err(refusal) => Answer::Refused(refusal),
    }
}

/// Makes the call. If it is on a name, `bound` is the number that the name is bound to.
#[tactic(auto, using(crate::proofs::CallLemmas::says))]
pub fn answered<S: Side>(
    alloc: Global,
    side: &mut S,
    tag: Option<u8>,
    call: &Call,
    bound: Option<u64>,
) -> Answer
    requires room { HasTagRoom (S.seen side.old).terms.layout tag }
    ensures does { CallAnswers (S.seen side.old).terms tag (S.seen side.old).pass (S.seen side.old).part call.now bound
        result (S.seen side.new).part }
    ensures same { SamePass (S.seen side.old) (S.seen side.new) }
{
    match call {
        Call::Adopt(shard) => done(side.adopt(alloc, *shard)),
        Call::Leave => done(side.leave()),
        Call::Insert(words) => insert(side, tag, words.as_slice()),
        Call::Get(reference) => match key_meant(tag, bound, *reference) {
            Ok(key) => done(side.get(key)),
            Err(answer) => answer,
        },
        Call::Read(reference) => match key_meant(tag, bound, *reference) {
            Ok(key) => match side.read(Hold { key }) {
                Ok(value) => Answer::Read(value),
                Err(refusal) => Answer::Refused(refusal),
            },
            Err(answer) => answer,
        },
        Call::Remove(reference) => match key_meant(tag, bound, *reference) {
            Ok(key) => done(side.remove(key)),
            Err(answer) => answer,
        },
        Call::Release(reference) => match key_meant(tag, bound, *reference) {
            Ok(key) => done(side.release(Hold { key })),
            Err(answer) => answer,
        },
        Call::Post | Call::Wait(_) => Answer::Done,
    }
}

fn name_referred(reference: Reference) -> Option<usize>
    ensures { result ≡ name_referred reference }
{
    match reference {
        Reference::Key(_) => None,
        Reference::Name(name) => Some(name),
    }
}

// The name that a call is on.
fn name_used(call: &Call) -> Option<usize>
    ensures { result ≡ name_used call.now }
{
    match call {
        Call::Get(r) | Call::Read(r) | Call::Remove(r) | Call::Release(r) => name_referred(*r),
        _ => None,
    }
}

/// The name that a call is on, or that it waits for.
pub fn name_needed(call: &Call) -> Option<usize>
    ensures { result ≡ name_needed call.now }
{
    match call {
        Call::Wait(name) => Some(*name),
        _ => name_used(call),
    }
}

/// Whether the call, with this answer, adds an entry to the history.
pub fn adds_entry(call: &Call, answer: &Answer) -> bool
    ensures { result ≡ adds_entry call.now answer.now }
{
    match call {
        Call::Insert(_) => matches!(answer, Answer::Key(_)),
        Call::Get(_) => matches!(
            answer,
            Answer::Done | Answer::Refused(Refusal::Gone | Refusal::Crowded)
        ),
        Call::Remove(_) => matches!(answer, Answer::Done | Answer::Refused(Refusal::Gone)),
        Call::Release(_) => matches!(answer, Answer::Done),
        _ => false,
    }
}

/// Whether the call binds the next name.
pub fn binds(call: &Call) -> bool
    ensures { result ≡ binds call.now }
{
    matches!(call, Call::Insert(_) | Call::Post)
}

/// The number that an insert with this answer binds to its name.
pub fn number_told(answer: &Answer) -> Option<u64>
    ensures { result ≡ number_told answer.now }
{
    match answer {
        Answer::Key(number) => Some(*number),
        _ => None,
    }
}

/// The number that the name of the call is bound to, among the names that are bound.
pub fn number_meant(numbers: &[Option<u64>], call: &Call) -> Option<u64>
    ensures { result ≡ number_meant numbers.now call.now }
{
    let name = name_used(call)?;
    *numbers.get(name)?
}
