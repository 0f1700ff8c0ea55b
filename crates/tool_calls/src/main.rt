//! The program `tool_calls`: it runs a script of calls of the library line by line, and writes what each call returns.
//! This file joins the process to `program`.
#![tactic(auto)]

mod answers;
mod line;
mod opening;
mod options;
mod program;
mod session;
mod shown;
#[cfg(test)]
mod tests;

use crate::options::check_words;
use script_start::{show, with_words};
use sh_script::Fault;
use std::io::BufReader;
use std::process::ExitCode;

// The exit status of a fault: 2 if the script is at fault, and 3 otherwise.
fn report(rt: &HostRuntime, fault: Fault) -> u8 {
    let _ = eprintln!(rt; "tool_calls: {fault}");
    match fault {
        Fault::BadShape | Fault::Script(_, _) => 2,
        Fault::Memory | Fault::Waiting | Fault::Io => 3,
    }
}

fn run_script(rt: &HostRuntime) -> u8 {
    let Ok(mut input) = BufReader::new(rt.alloc(), rt.stdin()) else {
        return report(rt, Fault::Memory);
    };
    match program::run(rt.alloc(), &mut input, &mut rt.stdout()) {
        Ok(()) => 0,
        Err(fault) => report(rt, fault),
    }
}

fn run(rt: &HostRuntime, words: &[&str]) -> u8 {
    match check_words(rt.alloc(), words) {
        Ok(()) => run_script(rt),
        Err(error) => show(&error, &mut rt.stdout(), &mut rt.stderr()),
    }
}

fn main(rt: HostRuntime) -> ExitCode {
    match with_words(&rt, |words| run(&rt, words)) {
        Ok(status) => ExitCode::from(status),
        Err(_) => ExitCode::from(report(&rt, Fault::Memory)),
    }
}
