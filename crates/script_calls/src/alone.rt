//! A script of calls in one thread: the calls of all passes, one after the other, in the order of the lines.
ghost use Rattle.std.specs.Prelude.{true, ◌≡◌, Option, ◌<◌, IfOk, IfErr, map, option_map};
ghost use Rattle.std.specs.List.{All};
ghost use Rattle.sh_script.specs.declared.calls.CallLine.{CallLine};
ghost use Rattle.sh_table.specs.Seats.{Heap};
ghost use Rattle.script_output.specs.Keys.{HasTagRoom};
ghost use Rattle.script_calls.specs.Parts.{RunTerms, new_passes};
ghost use Rattle.script_calls.specs.Finished.{heap_seen, terms_seen, AreAllNew, LinesRan};

use crate::heeding::heed_last;
use crate::leaving::met_in_turn;
use crate::line::{answered, number_meant, number_told};
use crate::reporting::{NoRoom, tell};
use crate::side::Side;
use sh_pass::Receipt;
use sh_script::{CallLine, Fault};
use std::alloc::Global;

// Runs the lines in their order on all passes of the named heap. Each pass heeds a receipt of the line before. No
// answer ends the run: `NoRoom` is returned only if a line finds no room.
fn lines_in_turn<S: Side>(
    alloc: Global,
    lines: &[CallLine],
    tag: Option<u8>,
    mut sides: Vec<S>,
) -> Result<(Vec<u8>, Option<S>), NoRoom>
    ghost at: { Option Heap × RunTerms }
    requires room { HasTagRoom at.1.layout tag }
    requires sides { map S.seen sides.items ≡ new_passes at.0 at.1 at.1.shape.passes }
    requires passes { All (λ (l : CallLine). l.pass < at.1.shape.passes) lines.now }
    ensures ran { IfOk result (λ ran. LinesRan true at.0 at.1 tag lines.now ran.0.items (option_map S.seen ran.1)) }
{
    let mut numbers: Vec<Option<u64>> = Vec::new(alloc);
    let mut output = Vec::new(alloc);
    let mut last: Option<Receipt> = None;
    for line in lines {
        let Some(side) = sides.get_mut(line.pass as usize) else {
            unreachable!()
        };
        heed_last(side, last);
        let bound = number_meant(numbers.as_slice(), &line.call);
        let answer = answered(alloc, side, tag, &line.call, bound);
        let _known = side.whole();
        last = Some(side.receipt());
        let told = number_told(&answer);
        tell(&mut output, &mut numbers, line, &answer, told)?;
    }
    Ok((output, met_in_turn(sides, last)))
}

/// Runs the lines in their order, each with a receipt of the line before. Then all passes hear of all lines, all owners
/// leave in turn, and all passes meet. Returns the reply lines and the pass that carries the tale of all; no pass if an
/// owner could not leave.
pub fn alone_lines<S: Side>(
    alloc: Global,
    lines: &[CallLine],
    tag: Option<u8>,
    sides: Vec<S>,
) -> Result<(Vec<u8>, Option<S>), Fault>
    requires room { HasTagRoom (terms_seen (map S.seen sides.items)).layout tag }
    requires sides { AreAllNew (map S.seen sides.items) }
    requires passes { All (λ (l : CallLine). l.pass < (terms_seen (map S.seen sides.items)).shape.passes) lines.now }
    ensures ran { IfOk result (λ ran. LinesRan true (heap_seen (map S.seen sides.items))
        (terms_seen (map S.seen sides.items)) tag lines.now ran.0.items (option_map S.seen ran.1)) }
    ensures fault { IfErr result (λ fault. fault ≡ Fault.Memory) }
{
    Ok(lines_in_turn(alloc, lines, tag, sides)?)
}
