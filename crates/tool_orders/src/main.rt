//! The program `tool_orders`: it does the script of steps on the standard input in every order, and prints each
//! outcome. This file joins the process to `script_orders`.
#![tactic(auto)]

mod options;
mod run;

use crate::options::{Options, options_of};
use crate::run::{Printed, run_script};
use clap::error::ErrorKind;
use script_output::ends::{read_text, write_text};
use script_start::{show, with_words};
use sh_script::Fault;
use std::alloc::Global;
use std::fs::File;
use std::io::Read;
use std::process::ExitCode;

// The most bytes that a file of outcomes may have.
const OUTCOMES_MAX: u64 = 16_777_216;

// The exit status of a fault: 2 if the script is at fault, and 3 otherwise.
fn status(fault: Fault) -> u8 {
    match fault {
        Fault::BadShape | Fault::Script(_, _) => 2,
        Fault::Memory | Fault::Waiting | Fault::Io => 3,
    }
}

fn refuse(rt: &HostRuntime, fault: Fault) -> u8 {
    let _ = eprintln!(rt; "tool_orders: {fault}");
    status(fault)
}

// Writes what is printed, and returns the exit status.
fn write_printed(rt: &HostRuntime, printed: &Printed) -> u8 {
    let output = printed.output.as_slice();
    let errors = printed.errors.as_slice();
    if write_text(&mut rt.stdout(), output).is_err() {
        return refuse(rt, Fault::Io);
    }
    let _ = write_text(&mut rt.stderr(), errors);
    printed.status
}

// A file of outcomes. Of a longer one than may be, one byte more than that is read, and the rest is left unread.
fn read_outcomes(rt: &HostRuntime, alloc: Global, path: &str) -> Result<Vec<u8>, Fault> {
    let Ok(file) = File::open(rt, path) else {
        return Err(Fault::Io);
    };
    let mut bytes = Vec::new(alloc);
    match file.take(OUTCOMES_MAX + 1).read_to_end(&mut bytes) {
        Ok(_) => Ok(bytes),
        Err(_) => Err(Fault::Io),
    }
}

fn run_with(rt: &HostRuntime, alloc: Global, options: &Options<'_>) -> Result<u8, Fault> {
    let text = read_text(alloc, &mut rt.stdin())?;
    let printed = match options.expect {
        Some(path) => {
            let expected = read_outcomes(rt, alloc, path)?;
            if expected.len() as u64 > OUTCOMES_MAX {
                let _ = eprintln!(rt;
                    "tool_orders: a file of outcomes has at most {OUTCOMES_MAX} bytes"
                );
                return Ok(2);
            }
            run_script(alloc, options, text.as_slice(), Some(expected.as_slice()))?
        }
        None => run_script(alloc, options, text.as_slice(), None)?,
    };
    Ok(write_printed(rt, &printed))
}

fn run_words(rt: &HostRuntime, alloc: Global, words: &[&str]) -> u8 {
    let options = match options_of(alloc, words) {
        Ok(options) => options,
        Err(error) if error.kind() == ErrorKind::OutOfMemory => return refuse(rt, Fault::Memory),
        Err(error) => return show(&error, &mut rt.stdout(), &mut rt.stderr()),
    };
    match run_with(rt, alloc, &options) {
        Ok(status) => status,
        Err(fault) => refuse(rt, fault),
    }
}

fn main(rt: HostRuntime) -> ExitCode {
    match with_words(&rt, |words| run_words(&rt, rt.alloc(), words)) {
        Ok(status) => ExitCode::from(status),
        Err(_) => {
            let _ = eprintln!(rt; "tool_orders: the words could not be read");
            ExitCode::from(3)
        }
    }
}
