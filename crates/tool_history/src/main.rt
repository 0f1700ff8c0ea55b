//! The program `tool_history`: it reads a recorded history from the standard input, line by line, and writes whether it
//! is that of a map whose keys are never used again. This file joins the process to `history_lines`.
#![tactic(auto)]

mod options;
mod shown;

use crate::options::{Options, options_of};
use crate::shown::write_found;
use history_lines::{Fault, Found, Verdict, find_all, judge};
use script_start::{show, with_words};
use std::io;
use std::io::{BufRead, BufReader, BufWriter, Write};
use std::process::ExitCode;

// The exit status of a fault: 2 if the history is at fault, and 3 otherwise.
fn status_of(fault: Fault) -> u8 {
    match fault {
        Fault::History(_, _) => 2,
        Fault::Memory | Fault::Io => 3,
    }
}

fn report(rt: &HostRuntime, fault: Fault) -> u8 {
    let _ = eprintln!(rt; "tool_history: {fault}");
    status_of(fault)
}

// The exit status of a verdict.
fn status_by(verdict: &Verdict) -> u8 {
    match verdict {
        Verdict::Legal(_, _) => 0,
        Verdict::Broken(_, _) => 1,
        Verdict::Undecided(_, _) => 4,
    }
}

fn write_verdict(rt: &HostRuntime, verdict: &Verdict) -> u8 {
    if println!(rt; "{verdict}").is_err() {
        return report(rt, Fault::Io);
    }
    status_by(verdict)
}

// Judges the input up to the first line that is not allowed.
fn judge_input<R: BufRead>(rt: &HostRuntime, input: &mut R) -> u8 {
    match judge(rt.alloc(), input) {
        Ok(verdict) => write_verdict(rt, &verdict),
        Err(fault) => report(rt, fault),
    }
}

fn write_search(rt: &HostRuntime, found: &Found, with_lines: bool) -> io::Result<()> {
    let mut output = BufWriter::new(rt.alloc(), rt.stdout())?;
    write_found(&mut output, found, with_lines)?;
    output.flush()
}

// Finds each line of the input that is not allowed, of all keys or of one.
fn search_input<R: BufRead>(rt: &HostRuntime, input: &mut R, only: Option<u64>) -> u8 {
    let found = match find_all(rt.alloc(), input, only) {
        Ok(found) => found,
        Err(fault) => return report(rt, fault),
    };
    if write_search(rt, &found, only.is_some()).is_err() {
        return report(rt, Fault::Io);
    }
    if found.findings.is_empty() {
        status_by(&found.verdict)
    } else {
        1
    }
}

fn run_with(rt: &HostRuntime, options: Options) -> u8 {
    let Ok(mut input) = BufReader::new(rt.alloc(), rt.stdin()) else {
        return report(rt, Fault::Memory);
    };
    if options.all || options.key.is_some() {
        search_input(rt, &mut input, options.key)
    } else {
        judge_input(rt, &mut input)
    }
}

fn run(rt: &HostRuntime, words: &[&str]) -> u8 {
    match options_of(rt.alloc(), words) {
        Ok(options) => run_with(rt, options),
        Err(error) => show(&error, &mut rt.stdout(), &mut rt.stderr()),
    }
}

fn main(rt: HostRuntime) -> ExitCode {
    match with_words(&rt, |words| run(&rt, words)) {
        Ok(status) => ExitCode::from(status),
        Err(_) => ExitCode::from(report(&rt, Fault::Memory)),
    }
}
