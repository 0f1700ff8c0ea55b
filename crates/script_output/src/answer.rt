//! The answer to a call of a script, and how a reply line writes it.
ghost use Rattle.std.specs.Prelude.{◌≡◌, ◌+◌, ◌<◌, ◌≤◌, ◌++◌, length, OnOk, OnErr};
ghost use Rattle.std.specs.Vec.{vec_capacity, vec_len};
ghost use Rattle.script_output.specs.Replies.{call_text, answer_text, reply_line};

use crate::numbers::{push_number, push_value};
use sh_script::{Call, CallLine};
use sh_value::{Refusal, Value};
use std::alloc::AllocError;

/// The answer to a call.
#[derive(Drop, Debug, PartialEq, Eq)]
pub enum Answer {
    /// The call was done, and has no result.
    Done,
    /// The key of an insert.
    Key(u64),
    /// The value of a read.
    Read(Value),
    /// The call was refused.
    Refused(Refusal),
    /// The call is on a name whose insert was refused.
    Unbound,
}

fn push_call(out: &mut Vec<u8>, call: &Call) -> Result<(), AllocError>
    ensures text { OnOk result (out.new.items ≡ out.old.items ++ call_text call.now) }
    ensures room { vec_capacity out.old ≤ vec_capacity out.new }
    ensures full { OnErr result (vec_capacity out.old < vec_len out.old + length (call_text call.now)) }
{
    match call {
        Call::Adopt(_) => out.extend_from_slice(b"adopt"),
        Call::Leave => out.extend_from_slice(b"leave"),
        Call::Insert(_) => out.extend_from_slice(b"insert"),
        Call::Get(_) => out.extend_from_slice(b"get"),
        Call::Read(_) => out.extend_from_slice(b"read"),
        Call::Remove(_) => out.extend_from_slice(b"remove"),
        Call::Release(_) => out.extend_from_slice(b"release"),
        Call::Post => out.extend_from_slice(b"post"),
        Call::Wait(_) => out.extend_from_slice(b"wait"),
    }
}

fn push_answer(out: &mut Vec<u8>, answer: &Answer) -> Result<(), AllocError>
    ensures text { OnOk result (out.new.items ≡ out.old.items ++ answer_text answer.now) }
    ensures room { vec_capacity out.old ≤ vec_capacity out.new }
    ensures full { OnErr result (vec_capacity out.old < vec_len out.old + length (answer_text answer.now)) }
{
    match answer {
        Answer::Done => out.extend_from_slice(b"ok"),
        Answer::Key(key) => push_number(out, *key),
        Answer::Read(value) => push_value(out, value),
        Answer::Refused(refusal) => push_refusal(out, *refusal),
        Answer::Unbound => out.extend_from_slice(b"unbound"),
    }
}

fn push_refusal(out: &mut Vec<u8>, refusal: Refusal) -> Result<(), AllocError>
    ensures text { OnOk result (out.new.items ≡ out.old.items ++ answer_text (Answer.Refused refusal)) }
    ensures room { vec_capacity out.old ≤ vec_capacity out.new }
    ensures full { OnErr result
        (vec_capacity out.old < vec_len out.old + length (answer_text (Answer.Refused refusal))) }
{
    out.extend_from_slice(b"refused ")?;
    push_number(out, refusal.number() as u64)?;
    out.extend_from_slice(b" ")?;
    out.extend_from_slice(refusal.name().as_bytes())
}

/// Adds the reply line of a call. It is refused only if there is no room for the line.
pub fn push_reply(out: &mut Vec<u8>, line: &CallLine, answer: &Answer) -> Result<(), AllocError>
    ensures text { OnOk result (out.new.items ≡ out.old.items ++ reply_line line.now answer.now) }
    ensures room { vec_capacity out.old ≤ vec_capacity out.new }
    ensures full { OnErr result (vec_capacity out.old < vec_len out.old + length (reply_line line.now answer.now)) }
{
    push_number(out, line.pass as u64)?;
    out.extend_from_slice(b" ")?;
    push_call(out, &line.call)?;
    out.extend_from_slice(b" ")?;
    push_answer(out, answer)?;
    out.extend_from_slice(b"\n")
}
