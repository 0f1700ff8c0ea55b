//! The program `tool_large LAYOUT`: four threads fill a large heap, read it, empty it and fill it again.
//!
//! Each thread inserts a part of the values in shards of its own: it leaves a shard that is full, and adopts the next
//! one. Then another thread reads each value, all threads remove all values in mixed order, and the threads insert the
//! same number of other values. The old keys find none of these. At the end all passes are joined, and the values of
//! the heap are counted. In layout `Deep` each thread keeps its one shard instead.
//!
//! Each phase ends in all threads before the next one begins, and passes go to threads and come back (`phases`). So the
//! counts do not depend on the order of the threads' steps. This file joins the process to `program`.
#![tactic(auto)]

mod crew;
mod filling;
mod options;
mod phases;
mod program;
mod reading;
mod removing;
mod run;
mod share;
mod story;
mod worker;

use script_start::with_words;
use std::io;
use std::process::ExitCode;
use std::thread::Threads;

fn start<T: Threads + Sync>(rt: &HostRuntime, threads: &T) -> io::Result<u8> {
    with_words(rt, |words| {
        program::run_program(
            threads,
            rt.alloc(),
            words,
            &mut rt.stdout(),
            &mut rt.stderr(),
        )
    })
}

fn main(rt: HostRuntime) -> ExitCode {
    match start(&rt, &rt) {
        Ok(status) => ExitCode::from(status),
        Err(_) => {
            let _ = eprintln!(rt; "tool_large: the words could not be read");
            ExitCode::from(3)
        }
    }
}
