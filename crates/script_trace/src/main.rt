//! The program `script_trace`: it does the script of events on the standard input, one line at a time, and shows after
//! each event what it touched. This file connects the process to `script_show`.
#![tactic(auto)]

use script_show::watch;
use script_start::with_words;
use sh_script::Fault;
use std::alloc::Global;
use std::io;
use std::io::{BufReader, Write};
use std::process::ExitCode;

const HELP: &str = "Shows a script of mode steps event by event, from the standard input

Usage: script_trace < FILE

After each event it shows the pages and bells that the event touched and what the passes have begun, own and hold; of a
skipped event it says why. The lines of a script are in docs/SCRIPTS.md, \"Lines of events\". Without a file it goes on
line by line at a terminal.
";

// The exit status of a fault: 2 if the script is at fault, otherwise 3.
fn status(fault: Fault) -> u8 {
    match fault {
        Fault::BadShape | Fault::Script(_, _) => 2,
        Fault::Memory | Fault::Waiting | Fault::Io => 3,
    }
}

fn show_help(rt: &HostRuntime) -> u8 {
    match rt.stdout().write_all(HELP.as_bytes()) {
        Ok(()) => 0,
        Err(_) => 3,
    }
}

// Whether the words ask for help.
fn asks_help(words: &[&str]) -> bool {
    match words.get(1) {
        Some(word) => *word == "--help" || *word == "-h",
        None => false,
    }
}

fn watch_input(rt: &HostRuntime, alloc: Global) -> io::Result<u8> {
    let mut input = BufReader::new(alloc, rt.stdin())?;
    match watch(alloc, &mut input, &mut rt.stdout()) {
        Ok(()) => Ok(0),
        Err(fault) => {
            let _ = eprintln!(rt; "script_trace: {fault}");
            Ok(status(fault))
        }
    }
}

fn run(rt: &HostRuntime, words: &[&str]) -> io::Result<u8> {
    if asks_help(words) {
        return Ok(show_help(rt));
    }
    if words.len() > 1 {
        let _ = eprintln!(rt; "script_trace: it takes no words; script_trace --help");
        return Ok(2);
    }
    watch_input(rt, rt.alloc())
}

fn main(rt: HostRuntime) -> ExitCode {
    match with_words(&rt, |words| run(&rt, words)) {
        Ok(Ok(status)) => ExitCode::from(status),
        _ => ExitCode::from(3),
    }
}
