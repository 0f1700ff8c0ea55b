//! How a line is reported: its reply is added to the output, and what it binds to the names.
ghost use Rattle.std.specs.Prelude.{◌≡◌, ◌++◌, ◌∷◌, [], cond, length, OnOk, OnErr};
ghost use Rattle.std.specs.Vec.{vec_capacity};
ghost use Rattle.script_output.specs.Replies.{reply_line};
ghost use Rattle.script_calls.specs.Runs.{EndsAt};
ghost use Rattle.script_calls.specs.Calls.{binds};

use crate::line::binds;
use script_output::{Answer, push_reply};
use sh_script::{CallLine, Fault};

/// A line found no room. Only `tell` makes one, so no answer ends a run.
#[derive(Clone, Copy, Debug, Drop)]
pub struct NoRoom(());

impl From<NoRoom> for Fault {
    ghost use Rattle.std.specs.Prelude.{◌≡◌};
    ghost use Rattle.sh_script.specs.declared.fault.Fault.TheVariants as fault;

    ghost from_gives = { λ _ f. f ≡ fault.Memory };

    fn from(_: NoRoom) -> Fault {
        Fault::Memory
    }
}

/// Adds the reply line of a call, and what it binds its name to, if it binds one. Refused only if the line or the name
/// finds no room: every answer of a call is written, even a refusal of memory.
pub fn tell<T: Drop>(
    output: &mut Vec<u8>,
    names: &mut Vec<T>,
    line: &CallLine,
    answer: &Answer,
    bound: T,
) -> Result<(), NoRoom>
    ensures text { OnOk result (output.new.items ≡ output.old.items ++ reply_line line.now answer.now) }
    ensures names { OnOk result (names.new.items ≡ cond (binds line.now.call) (names.old.items ++ bound ∷ [])
        names.old.items) }
    ensures room { OnErr result (EndsAt (vec_capacity output.old) (vec_capacity names.old) output.old.items
        (length names.old.items) line.now answer.now) }
{
    if binds(&line.call) && names.push(bound).is_err() {
        return Err(NoRoom(()));
    }
    match push_reply(output, line, answer) {
        Ok(()) => Ok(()),
        Err(_) => Err(NoRoom(())),
    }
}
