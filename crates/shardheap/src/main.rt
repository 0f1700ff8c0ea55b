//! The program `shardheap MODE [--accounts]`: it runs the script on the standard input in a mode, and writes the
//! replies to the standard output. This file connects the process to `script_program`, which runs over any words,
//! reader and writers.
#![tactic(auto)]

ghost use Rattle.std.specs.Prelude.{IfOk};
ghost use Rattle.script_program.specs.Program.{IsStatus};

use script_program::program;
use script_program::words::refuse;
use script_start::with_words;
use std::io;
use std::process::ExitCode;
use std::sync::Wait;
use std::thread::Threads;

fn start<T: Threads + Wait + Sync>(rt: &HostRuntime, threads: &T) -> io::Result<u8>
    ensures { IfOk result IsStatus }
{
    with_words(rt, |words| {
        program::run(
            threads,
            rt.alloc(),
            words,
            &mut rt.stdin(),
            &mut rt.stdout(),
            &mut rt.stderr(),
        )
    })
}

fn main(rt: HostRuntime) -> ExitCode {
    let status = match start(&rt, &rt) {
        Ok(status) => status,
        Err(error) => refuse(&error, &mut rt.stderr()),
    };
    ExitCode::from(status)
}
