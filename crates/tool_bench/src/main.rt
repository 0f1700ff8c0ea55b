//! The program `tool_bench WORKLOAD`: it measures what calls of the library cost.
//!
//! The counts and checks, which are the same in each run with the same words, go to the standard output. The times go
//! to the standard error, and leave out the setup before and the checks afterwards. This file joins the process to
//! `program`.
#![tactic(auto)]

mod adopting;
mod gate;
mod getting;
mod handing;
mod inserting;
mod lots;
mod measuring;
mod owners;
mod parting;
mod program;
mod ring;
mod rounds;
mod work;

use script_start::with_words;
use std::io;
use std::process::ExitCode;
use std::rt::Clock;
use std::thread::Threads;

fn start<T: Threads + Clock + Sync>(rt: &HostRuntime, threads: &T) -> io::Result<u8> {
    with_words(rt, |words| {
        program::run(
            threads,
            rt.alloc(),
            words,
            &mut rt.stdout(),
            &mut rt.stderr(),
        )
    })
}

fn main(rt: HostRuntime) -> ExitCode {
    match start(&rt, &rt) {
        Ok(status) => ExitCode::from(status),
        Err(_) => {
            let _ = eprintln!(rt; "tool_bench: the words could not be read");
            ExitCode::from(3)
        }
    }
}
