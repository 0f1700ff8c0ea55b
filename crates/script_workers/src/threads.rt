//! A script of calls in threads: one for each pass that has lines.
ghost use Rattle.std.specs.Prelude.{false, ◌≡◌, ◌<◌, IfOk, IfErr, map, length, option_map};
ghost use Rattle.std.specs.List.{All};
ghost use Rattle.sh_script.specs.declared.calls.CallLine.{CallLine};
ghost use Rattle.script_output.specs.Keys.{HasTagRoom};
ghost use Rattle.script_calls.specs.Parts.{new_passes, passes_below};
ghost use Rattle.script_calls.specs.Finished.{heap_seen, terms_seen, AreAllNew, LinesRan};
ghost use Rattle.script_output.specs.Ends.{IsEndFault};
ghost use Rattle.script_workers.specs.Works.{own_calls};

use crate::board::Board;
use crate::gate::Gate;
use crate::gather::{Ended, all_ended};
use crate::merge::merged;
use crate::room::Room;
use crate::run::run_all;
use crate::worker::{Shared, Worker};
use script_calls::leaving::met_in_turn;
use script_calls::line::binds;
use script_calls::side::Side;
use sh_script::{CallLine, Fault};
use std::alloc::Global;
use std::marker::Brand;
use std::sync::Wait;
use std::thread::Threads;

// The number of names that the lines bind.
fn names_in(lines: &[CallLine]) -> usize {
    lines.iter().filter(|line| binds(&line.call)).count()
}

// The number of lines that are the pass's own.
fn own_lines(lines: &[CallLine], pass: usize) -> usize
    ensures { result ≡ length (own_calls pass lines.now) }
{
    lines
        .iter()
        .filter(|line| line.pass as usize == pass)
        .count()
}

// A worker for each pass, with room for the answers to its calls.
fn workers<S: Side, B: Room>(
    alloc: Global,
    lines: &[CallLine],
    sides: Vec<S>,
) -> Result<Vec<Worker<S, B>>, Fault>
    requires lines { lines.now ≡ B.lines }
    requires sides { map S.seen sides.items ≡ new_passes B.heap B.terms B.terms.shape.passes }
    ensures all { IfOk result (λ v. v.items ≡ passes_below B.terms.shape.passes) }
    ensures memory { IfErr result (λ fault. fault ≡ Fault.Memory) }
{
    let Ok(mut all) = Vec::with_capacity(alloc, sides.len()) else {
        return Err(Fault::Memory);
    };
    for side in sides {
        let number = all.len();
        let Ok(made) = Vec::with_capacity(alloc, own_lines(lines, number)) else {
            return Err(Fault::Memory);
        };
        all.push_reserved(Worker::new(number, side, made));
    }
    Ok(all)
}

// The same, for passes and a script that `B` names. All room is taken before a worker starts, except for the text of
// the replies, which is built once all have ended.
fn played<S: Side + Send, B: Room + Send + Sync, R: Threads + Wait + Sync, G: Gate + Sync>(
    rt: &R,
    alloc: Global,
    lines: &[CallLine],
    tag: Option<u8>,
    sides: Vec<S>,
    gate: &G,
) -> Result<(Vec<u8>, Option<S>), Fault>
    requires lines { lines.now ≡ B.lines }
    requires tag { tag ≡ B.tag }
    requires room { HasTagRoom B.terms.layout tag }
    requires sides { map S.seen sides.items ≡ new_passes B.heap B.terms B.terms.shape.passes }
    requires passes { All (λ (l : CallLine). l.pass < B.terms.shape.passes) lines.now }
    ensures ran { IfOk result (λ ran. LinesRan false B.heap B.terms tag lines.now ran.0.items
        (option_map S.seen ran.1)) }
    ensures fault { IfErr result IsEndFault }
{
    let Ok(empty) = Ended::with_capacity(alloc, sides.len()) else {
        return Err(Fault::Memory);
    };
    let Ok(board) = Board::<B>::new(alloc, names_in(lines)) else {
        return Err(Fault::Memory);
    };
    let workers: Vec<Worker<S, B>> = workers(alloc, lines, sides)?;
    let shared = Shared {
        alloc,
        lines,
        tag,
        board: &board,
        gate,
    };
    let workers = run_all(rt, &shared, workers)?;
    let ended = all_ended(empty, workers, lines.len())?;
    let (output, sides) = merged::<S, B>(alloc, lines, ended)?;
    Ok((output, met_in_turn(sides, None)))
}

/// Runs each pass's lines in a thread of its own, in the order of the script. A line that needs a name waits until it is
/// bound, and its entry comes after all that the binding pass did so far. Returns the reply lines in the order of the
/// script's lines. Returns also the pass that carries the tale of all once all owners have left and all passes have met;
/// no pass if an owner could not leave. `Io` if a thread can't be started.
pub fn threads_lines<S: Side + Send, R: Threads + Wait + Sync, G: Gate + Sync>(
    rt: &R,
    alloc: Global,
    lines: &[CallLine],
    tag: Option<u8>,
    sides: Vec<S>,
    gate: &G,
) -> Result<(Vec<u8>, Option<S>), Fault>
    requires room { HasTagRoom (terms_seen (map S.seen sides.items)).layout tag }
    requires sides { AreAllNew (map S.seen sides.items) }
    requires passes { All (λ (l : CallLine). l.pass < (terms_seen (map S.seen sides.items)).shape.passes) lines.now }
    ensures ran { IfOk result (λ ran. LinesRan false (heap_seen (map S.seen sides.items))
        (terms_seen (map S.seen sides.items)) tag lines.now ran.0.items (option_map S.seen ran.1)) }
    ensures fault { IfErr result IsEndFault }
{
    played::<S, Brand, R, G>(rt, alloc, lines, tag, sides, gate)
}
