//! The answers of all passes, in the order of the script's lines.
ghost use Rattle.std.specs.Prelude.{◌≡◌, ◌<◌, map, IfOk, IfErr};
ghost use Rattle.std.specs.List.{All};
ghost use Rattle.sh_script.specs.declared.calls.CallLine.{CallLine};
ghost use Rattle.script_output.specs.Ends.{IsEndFault};
ghost use Rattle.script_workers.specs.Gathers.{HaveEnded};
ghost use Rattle.script_workers.specs.Merges.{AllAnswered, bound_needed};

use crate::board::Bound;
use crate::gather::Ended;
use crate::room::Room;
use script_calls::line::name_needed;
use script_calls::reporting::{NoRoom, tell};
use script_calls::side::Side;
use sh_script::{Call, CallLine, Fault};
use std::alloc::Global;

/// Why answers are not put in order.
#[derive(Clone, Copy, Debug, Drop)]
pub enum Unmerged {
    /// A line found no room.
    NoRoom(NoRoom),
    /// A call was made with another binding of its name than the one that its line left.
    Differ,
}

impl From<NoRoom> for Unmerged {
    ghost from_gives = { λ _ _. Unit {0} };

    fn from(none: NoRoom) -> Unmerged {
        Unmerged::NoRoom(none)
    }
}

impl From<Unmerged> for Fault {
    ghost use Rattle.script_output.specs.Ends.{IsEndFault};

    ghost from_gives = { λ _ fault. IsEndFault fault };

    fn from(why: Unmerged) -> Fault {
        match why {
            Unmerged::NoRoom(none) => Fault::from(none),
            Unmerged::Differ => Fault::Io,
        }
    }
}

// What the name that the call needs is bound to, if it needs one that is bound.
fn bound_needed(names: &[Bound], call: &Call) -> Option<Bound>
    ensures { result ≡ bound_needed names.now call.now }
{
    let name = name_needed(call)?;
    names.get(name).copied()
}

/// Returns the reply lines in the order of the script's lines, and the passes. The binding that a call found of the name
/// that it needs is compared with the one that the name's line left. `Differ` if they differ, which can't happen with a
/// board that keeps what was bound; `NoRoom` if a line finds no room.
pub fn merged<S: Side, B: Room>(
    alloc: Global,
    lines: &[CallLine],
    ended: Ended<S>,
) -> Result<(Vec<u8>, Vec<S>), Unmerged>
    requires lines { lines.now ≡ B.lines }
    requires passes { All (λ (l : CallLine). l.pass < B.terms.shape.passes) lines.now }
    requires ended { HaveEnded B.heap B.terms B.tag B.lines B.terms.shape.passes (map S.seen ended.sides.items)
        ended.rests.items }
    ensures answered { IfOk result (λ merged. AllAnswered B.heap B.terms B.tag lines.now
        (map S.seen merged.1.items) merged.0.items) }
{
    let Ended { sides, mut rests } = ended;
    let mut names: Vec<Bound> = Vec::new(alloc);
    let mut output = Vec::new(alloc);
    for line in lines {
        let Some(rest) = rests.get_mut(line.pass as usize) else {
            unreachable!()
        };
        let Some(made) = rest.take() else {
            unreachable!()
        };
        if made.bound != bound_needed(names.as_slice(), &line.call) {
            return Err(Unmerged::Differ);
        }
        let bound = made.binding(line.pass as usize);
        tell(&mut output, &mut names, line, &made.answer, bound)?;
    }
    Ok((output, sides))
}
