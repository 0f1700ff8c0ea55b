//! The whole program, over the words of a command line and two writers.
ghost use Rattle.std.specs.Thread.{IsSync};

use crate::history::{History, key_of};
use crate::options::{Options, read_options};
use crate::plan::{Plan, plan_of};
use crate::round::Outcome;
use clap::Error;
use clap::error::ErrorKind;
use script_start::show;
use std::alloc::Global;
use std::io::{BufWriter, Write};
use std::rt::Files;
use std::sync::Wait;
use std::thread::Threads;
use std::{fs, io};
use tool_judge::counts::{Count, Counts};
use tool_judge::dice::Dice;
use tool_judge::fault::Fault;

// The number of rounds between two reports of progress.
const ROUNDS_TOLD: u64 = 100;

// Writes why clap returned no options, unless memory was refused, and returns the exit status.
fn refuse<W: Write, E: Write>(error: &Error, output: &mut W, errors: &mut E) -> u8 {
    match error.kind() {
        ErrorKind::OutOfMemory => 3,
        _ => show(error, output, errors),
    }
}

/// The heaps of a run.
pub trait Heaps {
    /// Plays the round of this number, from 0, on a new heap, and returns what came of it. Its threads share `rt`.
    fn play<R: Threads + Wait + Sync>(
        &self,
        rt: &R,
        alloc: Global,
        round: u64,
        plan: &Plan,
        dice: &mut Dice,
    ) -> Outcome
        requires { IsSync R.row };
}

// Writes the progress, now and then.
fn tell<E: Write>(round: u64, counts: &Counts, errors: &mut E) {
    if round % ROUNDS_TOLD == ROUNDS_TOLD - 1 {
        let judged = counts.of(Count::Entries);
        let _ = writeln!(errors, "{} rounds, {judged} answers judged", round + 1);
    }
}

// What came of a run: the counts of all rounds up to the first fault, that fault with its round, and the history of the
// last round.
#[derive(Drop)]
struct Played {
    counts: Counts,
    found: Option<(u64, Fault)>,
    last: History,
}

// Plays all rounds, up to the first that finds a fault.
fn play_all<H: Heaps, E: Write, R: Threads + Wait + Sync>(
    rt: &R,
    alloc: Global,
    heaps: &H,
    options: &Options<'_>,
    errors: &mut E,
) -> Played {
    let mut dice = Dice::new(options.seed);
    let mut run = Played {
        counts: Counts::new(),
        found: None,
        last: History::empty(alloc),
    };
    for round in 0..options.rounds {
        let plan = plan_of(options, round, &mut dice);
        let Outcome { counts, history } = heaps.play(rt, alloc, round, &plan, &mut dice);
        run.last = history;
        match counts {
            Ok(more) => run.counts.take_in(&more),
            Err(fault) => {
                run.found = Some((round, fault));
                return run;
            }
        }
        tell(round, &run.counts, errors);
    }
    run
}

// Writes which fault was found in which round, and returns the exit status.
fn report<E: Write>(options: &Options<'_>, round: u64, fault: Fault, errors: &mut E) -> u8 {
    let seed = options.seed;
    let _ = writeln!(errors, "tool_stress: seed {seed}, round {round}: {fault}");
    match fault {
        Fault::Wrong(_) => 1,
        Fault::Memory | Fault::Io => 3,
    }
}

// The fault that an error of a file is.
fn fault_of(error: &io::Error) -> Fault {
    match error.kind() {
        io::ErrorKind::OutOfMemory => Fault::Memory,
        _ => Fault::Io,
    }
}

// Writes the history, or that of one key, into a new file.
fn write_file<F: Files>(
    files: &F,
    alloc: Global,
    name: &str,
    history: &History,
    key: Option<u64>,
) -> io::Result<()> {
    let mut file = BufWriter::new(alloc, fs::create(files, name)?)?;
    history.write(key, &mut file)?;
    file.flush()
}

// Leaves the history of the last round, or that of one key, in the file that was asked for. Without one the history of
// a key is written to the output.
fn leave<W: Write, F: Files>(
    files: &F,
    alloc: Global,
    options: &Options<'_>,
    last: History,
    key: Option<u64>,
    output: &mut W,
) -> Result<(), Fault> {
    let history = last.in_order(alloc)?;
    let written = match options.record {
        Some(name) => write_file(files, alloc, name, &history, key),
        None if key.is_some() => history.write(key, output),
        None => Ok(()),
    };
    written.map_err(|error| fault_of(&error))
}

// Plays all rounds, and writes the counts or the fault that was found.
fn run_with<H: Heaps, W: Write, E: Write, R: Threads + Wait + Sync + Files>(
    rt: &R,
    alloc: Global,
    heaps: &H,
    options: &Options<'_>,
    output: &mut W,
    errors: &mut E,
) -> u8 {
    let Played {
        counts,
        found,
        last,
    } = play_all(rt, alloc, heaps, options, errors);
    if let Some((round, fault)) = found {
        if let Err(unwritten) = leave(rt, alloc, options, last, key_of(fault), output) {
            let _ = report(options, round, unwritten, errors);
        }
        return report(options, round, fault, errors);
    }
    if let Err(unwritten) = leave(rt, alloc, options, last, None, output) {
        return report(options, options.rounds, unwritten, errors);
    }
    match write!(output, "rounds {}\n{counts}", options.rounds) {
        Ok(()) => 0,
        Err(_) => report(options, options.rounds, Fault::Io, errors),
    }
}

/// Runs the program on these heaps, and returns the exit status. It is 0 if it found no fault, 1 if it found one, 2 for
/// a mistake in the words, and 3 if memory was refused or a write failed. The first word is the program's name.
pub fn run<H: Heaps, W: Write, E: Write, R: Threads + Wait + Sync + Files>(
    rt: &R,
    alloc: Global,
    heaps: &H,
    words: &[&str],
    output: &mut W,
    errors: &mut E,
) -> u8 {
    match read_options(alloc, words) {
        Ok(options) => run_with(rt, alloc, heaps, &options, output, errors),
        Err(error) => refuse(&error, output, errors),
    }
}
