//! The program `tool_stress`: threads work on heaps of the library, each by its own random choices, and the program
//! judges what their calls returned. It is also the longer example of how to use the library, by public calls alone.
//!
//! The rounds and their judge are in `tool_rounds`. This program opens a heap for each round (`opened`), and gives the
//! rounds its passes (`lone`), owners (`owner`) and passes that run by hand (`stopped`). Of a heap that grows it gives
//! them the callers (`grower`).
#![tactic(auto)]

mod grower;
mod home;
mod lone;
mod opened;
mod owner;
mod stopped;

use opened::Library;
use script_start::with_words;
use std::io;
use std::io::{ErrorKind, Write};
use std::process::ExitCode;
use std::rt::Files;
use std::sync::Wait;
use std::thread::Threads;
use tool_rounds::program;

fn start<T: Threads + Wait + Sync + Files>(rt: &HostRuntime, threads: &T) -> io::Result<u8> {
    with_words(rt, |words| {
        program::run(
            threads,
            rt.alloc(),
            &Library,
            words,
            &mut rt.stdout(),
            &mut rt.stderr(),
        )
    })
}

fn main(rt: HostRuntime) -> ExitCode {
    match start(&rt, &rt) {
        Ok(status) => ExitCode::from(status),
        Err(error) => {
            let _ = writeln!(
                &mut rt.stderr(),
                "tool_stress: the command line cannot be had"
            );
            ExitCode::from(if error.kind() == ErrorKind::OutOfMemory {
                3
            } else {
                2
            })
        }
    }
}
