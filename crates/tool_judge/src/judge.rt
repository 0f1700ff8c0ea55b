//! The judge of the answers to all passes, key by key.
//!
//! Each rule of a legal history is about one key alone. So the history of all passes is legal exactly if the history of
//! each key is.
ghost use Rattle.std.specs.Prelude.{◌≡◌, ◌⊎◌, IfOk, IfErr};
ghost use Rattle.history_timed.specs.Orders.{HasLegalOrder};
ghost use Rattle.tool_judge.specs.Calls.{said_of, AddsCalls, AreCallsOf};
ghost use Rattle.tool_judge.specs.declared.fault.Fault.TheVariants as fault;

use crate::fault::{Fault, Wrong};
use crate::line::{Line, Told};
use history_timed::{Call, Said, Verdict, judge};
use sh_history::Entry;
use std::alloc::{AllocError, Global};

impl From<AllocError> for Fault {
    ghost from_gives = { λ _ f. f ≡ fault.Memory };

    fn from(_: AllocError) -> Fault {
        Fault::Memory
    }
}

// When the last call began that found the value of the lines' key, or 0 if none did.
fn last_use(lines: &[Line]) -> u64 {
    lines
        .iter()
        .filter(|line| matches!(line.told, Told::Got(_) | Told::Seen(_) | Told::Crowded))
        .map(|line| line.times.begin())
        .max()
        .unwrap_or(0)
}

// When the mark by hand began that removed the lines' key. `None` if a call says that it removed the key. Of the marks
// that had not ended when the value was last found, it is the one that began first: if any may have removed it, that one
// may.
fn removing_mark(lines: &[Line]) -> Option<u64> {
    if lines.iter().any(|line| line.told == Told::Removed) {
        return None;
    }
    let used = last_use(lines);
    lines
        .iter()
        .filter(|line| line.told == Told::Marked && line.times.end().is_none_or(|end| used < end))
        .map(|line| line.times.begin())
        .min()
}

// What a line says. A mark by hand removed the key, or found it removed.
fn said(line: &Line, is_remover: bool) -> Said
    ensures { result ≡ said_of is_remover line.now }
{
    let Line { pass, key, .. } = *line;
    Said::Known(match &line.told {
        Told::Inserted(value) => Entry::Insert(pass, key, value.copy()),
        Told::Got(Some(value)) => Entry::Got(pass, key, value.copy()),
        Told::Got(None) => return Said::Unread(pass, key),
        Told::Seen(value) => Entry::Seen(pass, key, value.copy()),
        Told::Gone => Entry::Gone(pass, key),
        Told::Crowded => Entry::Crowded(pass, key),
        Told::Removed => Entry::Removed(pass, key),
        Told::Marked if is_remover => Entry::Removed(pass, key),
        Told::Marked => Entry::Gone(pass, key),
        Told::Released => Entry::Released(pass, key),
    })
}

/// Adds the calls of all lines on a key to others. The number of each is the moment at which it began. Of several marks
/// by hand, one is chosen that may have removed the key. Refused if memory is.
pub fn add_calls(calls: &mut Vec<Call>, lines: &[Line]) -> Result<(), AllocError>
    ensures { IfOk result (λ _. AddsCalls lines.now calls.old.items calls.new.items) }
{
    let mark = removing_mark(lines);
    for line in lines {
        let begin = line.times.begin();
        calls.push(Call {
            line: begin,
            times: line.times,
            said: said(line, mark == Some(begin)),
        })?;
    }
    Ok(())
}

/// The calls of all lines on a key, if some order of them that keeps to their times is legal. Refused as `NoOrder` if
/// none is found.
pub fn judged(
    alloc: Global,
    key: u64,
    lines: &[Line],
    passes: u32,
    guard_max: u32,
) -> Result<Vec<Call>, Fault>
    ensures legal { IfOk result (λ calls. HasLegalOrder passes guard_max calls.items) }
    ensures told { IfOk result (λ calls. AreCallsOf lines.now calls.items) }
    ensures err { IfErr result (λ fault. (fault ≡ Fault.Memory) ⊎ (fault ≡ Fault.Wrong (Wrong.NoOrder key))) }
{
    let mut calls = Vec::new(alloc);
    add_calls(&mut calls, lines)?;
    match judge(alloc, calls.as_slice(), passes, guard_max)? {
        Verdict::Legal(..) => Ok(calls),
        Verdict::Broken(..) | Verdict::Undecided(..) => Err(Fault::Wrong(Wrong::NoOrder(key))),
    }
}
