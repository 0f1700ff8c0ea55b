//! The whole program, over the words of a command line and two writers.
use crate::options::{Layout, Options, options_of};
use crate::run::{run, shape_for};
use crate::story::Story;
use clap::Error;
use clap::error::ErrorKind;
use gearlongan::{Deep, Refusal, Wide};
use script_start::show;
use std::alloc::Global;
use std::io;
use std::io::Write;
use std::thread::Threads;

// The number of shards of each thread in a heap of layout `Wide`, and in one of layout `Deep`.
const WIDE_SHARDS: u32 = 64;

const DEEP_SHARDS: u32 = 1;

// Writes why clap returned no options, unless memory was refused, and returns the exit status.
fn refuse<W: Write, E: Write>(error: &Error, output: &mut W, errors: &mut E) -> u8 {
    match error.kind() {
        ErrorKind::OutOfMemory => refused(Refusal::Memory, errors),
        _ => show(error, output, errors),
    }
}

// Writes why the heap refused, and returns the exit status.
fn refused<E: Write>(why: Refusal, errors: &mut E) -> u8 {
    let _ = writeln!(errors, "tool_large: refused: {why}");
    match why {
        Refusal::Memory => 3,
        _ => 1,
    }
}

// Runs all phases on a heap of the layout.
fn story_of<R: Threads + Sync>(rt: &R, alloc: Global, options: &Options) -> Result<Story, Refusal> {
    match options.layout {
        Layout::Wide => {
            let shape = shape_for::<Wide>(WIDE_SHARDS, options.values)?;
            run::<Wide, R>(rt, alloc, shape, options.values, false)
        }
        Layout::Deep => {
            let shape = shape_for::<Deep>(DEEP_SHARDS, options.values)?;
            run::<Deep, R>(rt, alloc, shape, options.values, true)
        }
    }
}

// Writes the counts, and returns the exit status.
fn report<W: Write, E: Write>(
    options: &Options,
    story: &Story,
    output: &mut W,
    errors: &mut E,
) -> u8 {
    if let Err(error) = told(story, output) {
        let _ = writeln!(errors, "tool_large: {error}");
        return 3;
    }
    if story.is_of(options.values) {
        return 0;
    }
    let _ = writeln!(errors, "tool_large: a count is not as it should be");
    1
}

fn told<W: Write>(story: &Story, output: &mut W) -> io::Result<()> {
    story.tell(output)?;
    output.flush()
}

/// Runs the program, and returns the exit status. The first word is the program's name.
pub fn run_program<W: Write, E: Write, R: Threads + Sync>(
    rt: &R,
    alloc: Global,
    words: &[&str],
    output: &mut W,
    errors: &mut E,
) -> u8 {
    let options = match options_of(alloc, words) {
        Ok(options) => options,
        Err(error) => return refuse(&error, output, errors),
    };
    match story_of(rt, alloc, &options) {
        Ok(story) => report(&options, &story, output, errors),
        Err(why) => refused(why, errors),
    }
}
