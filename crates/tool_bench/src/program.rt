//! The whole program, over the words of a command line and two writers.
use crate::measuring::measure;
use script_start::show;
use std::alloc::Global;
use std::io;
use std::io::Write;
use std::rt::Clock;
use std::thread::Threads;
use tool_load::command_line::options_of;
use tool_load::fault::Fault;
use tool_load::options::Options;
use tool_load::outcome::Outcome;
use tool_load::{layout, workload};

// Writes the counts, which are the same in each run.
fn tell_counts<W: Write>(options: &Options, outcome: &Outcome, output: &mut W) -> io::Result<()> {
    let (workload, layout) = (
        workload::name(options.workload),
        layout::name(options.layout),
    );
    writeln!(
        output,
        "workload {workload} {layout}\nthreads {}\noperations {}\nsum {}\nstanding {}",
        options.threads, outcome.operations, outcome.sum, outcome.standing
    )
}

// Writes the time of the slowest thread, in all and for one operation.
fn tell_times<E: Write>(options: &Options, outcome: &Outcome, errors: &mut E) -> io::Result<()> {
    let each = outcome.nanoseconds.saturating_mul(10) / (options.operations as u64).max(1);
    let nanoseconds = outcome.nanoseconds;
    writeln!(
        errors,
        "nanoseconds {nanoseconds}\neach {}.{}",
        each / 10,
        each % 10
    )
}

fn run_with<R: Threads + Clock + Sync, W: Write, E: Write>(
    rt: &R,
    alloc: Global,
    options: &Options,
    output: &mut W,
    errors: &mut E,
) -> Result<(), Fault> {
    let outcome = measure(rt, alloc, options)?;
    tell_counts(options, &outcome, output)?;
    tell_times(options, &outcome, errors)?;
    Ok(())
}

/// Runs the program, and returns the exit status.
pub fn run<R: Threads + Clock + Sync, W: Write, E: Write>(
    rt: &R,
    alloc: Global,
    words: &[&str],
    output: &mut W,
    errors: &mut E,
) -> u8 {
    let options = match options_of(alloc, words) {
        Ok(options) => options,
        Err(error) => return show(&error, output, errors),
    };
    match run_with(rt, alloc, &options, output, errors) {
        Ok(()) => 0,
        Err(fault) => {
            let _ = writeln!(errors, "tool_bench: {}", fault.text());
            3
        }
    }
}
