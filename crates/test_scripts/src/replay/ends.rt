//! Ends that fail once and then continue, and ends that move few bytes at a time, in each mode.
use super::worked::{EACH_MODE, Worked};
use crate::assertions::{agree, holds};
use sh_replay::{Mode, replay, replay_alone};
use sh_script::Fault;
use std::alloc::Global;
use std::io;
use std::io::{Read, Write};
use std::process::Abort;
use std::sync::Wait;
use std::test::Fail;
use std::thread::Threads;

/// A reader that gives at most `most` bytes a read. After `left` reads one fails, and those after it succeed.
#[derive(Drop)]
struct Reading<'a> {
    rest: &'a [u8],
    most: usize,
    left: u64,
}

impl Read for Reading<'_> {
    fn read(&mut self, buf: &mut [u8]) -> io::Result<usize> {
        if self.left == 0 {
            self.left = u64::MAX;
            return Err(io::ErrorKind::Interrupted.into());
        }
        self.left -= 1;
        let n = buf.len().min(self.most).min(self.rest.len());
        let (front, rest) = self.rest.split_at(n);
        buf[..n].copy_from_slice(front);
        self.rest = rest;
        Ok(n)
    }
}

// A reader that does not fail.
fn gives(script: &str, most: usize) -> Reading<'_> {
    Reading {
        rest: script.as_bytes(),
        most,
        left: u64::MAX,
    }
}

/// The way in which a write fails.
#[derive(Clone, Copy)]
enum Failure {
    /// By an error.
    Error,
    /// By taking no byte.
    TakesNone,
}

/// A writer that takes `most` bytes in its first write, and in each later one `grows` more than in the one before.
/// After `left` writes one fails, and those after it succeed.
#[derive(Drop)]
struct Writing {
    taken: Vec<u8>,
    most: usize,
    grows: usize,
    left: u64,
    failure: Failure,
}

impl Write for Writing {
    fn write(&mut self, buf: &[u8]) -> io::Result<usize> {
        if self.left == 0 {
            self.left = u64::MAX;
            return match self.failure {
                Failure::Error => Err(io::ErrorKind::Interrupted.into()),
                Failure::TakesNone => Ok(0),
            };
        }
        self.left -= 1;
        let n = buf.len().min(self.most);
        self.most = self.most.saturating_add(self.grows);
        self.taken.extend_from_slice(&buf[..n])?;
        Ok(n)
    }

    fn flush(&mut self) -> io::Result<()> {
        Ok(())
    }
}

// A writer that does not fail.
fn takes(alloc: Global, most: usize) -> Writing {
    Writing {
        taken: Vec::new(alloc),
        most,
        grows: 0,
        left: u64::MAX,
        failure: Failure::Error,
    }
}

// Runs the script of a mode, with accounts.
fn run<R: Threads + Wait + Sync + Abort>(
    rt: &R,
    alloc: Global,
    mode: Mode,
    reader: &mut Reading<'_>,
    writer: &mut Writing,
) -> Result<(), Fault> {
    replay(rt, alloc, reader, writer, mode, true)
}

/// The script is read by at most `most` bytes a read, one of which fails, and nothing is written.
fn fails_at_read<R: Threads + Wait + Sync + Abort>(
    rt: &R,
    alloc: Global,
    worked: Worked,
    most: usize,
    left: usize,
) {
    let mut reader = Reading {
        rest: worked.script.as_bytes(),
        most,
        left: left as u64,
    };
    let mut writer = takes(alloc, 1000);
    let ended = run(rt, alloc, worked.mode, &mut reader, &mut writer);
    agree(rt, ended, Err(Fault::Io));
    holds(rt, writer.taken.is_empty());
    // Nothing is read after the read that fails.
    let read = most.saturating_mul(left).min(worked.script.len());
    agree(
        rt,
        reader.rest.len(),
        worked.script.len().saturating_sub(read),
    );
}

/// The output is written by at most `most` bytes a write, one of which fails, and a beginning of it has gone out.
fn fails_at_write<R: Threads + Wait + Sync + Abort>(
    rt: &R,
    alloc: Global,
    worked: Worked,
    most: usize,
    left: usize,
    failure: Failure,
) {
    let mut reader = gives(worked.script, 1000);
    let mut writer = Writing {
        taken: Vec::new(alloc),
        most,
        grows: 0,
        left: left as u64,
        failure,
    };
    let ended = run(rt, alloc, worked.mode, &mut reader, &mut writer);
    agree(rt, ended, Err(Fault::Io));
    let output = worked.output.as_bytes();
    holds(rt, output.starts_with(writer.taken.as_slice()));
    // Nothing is written after the write that fails.
    agree(rt, writer.taken.len(), most.saturating_mul(left));
}

/// With ends that do not fail, and that move at most `most` bytes each time, the whole output goes out.
pub fn goes_out_whole<R: Threads + Wait + Sync + Abort>(
    rt: &R,
    alloc: Global,
    mode: Mode,
    script: &str,
    output: &str,
    most: usize,
) {
    let mut reader = gives(script, most);
    let mut writer = takes(alloc, most);
    let ended = run(rt, alloc, mode, &mut reader, &mut writer);
    agree(rt, ended, Ok(()));
    agree(rt, writer.taken.as_slice(), output.as_bytes());
    holds(rt, reader.rest.is_empty());
}

// All at once, a few bytes at a time, and byte by byte.
const MOST: [usize; 3] = [1000, 7, 1];

#[test]
fn a_read_that_fails_once_ends_the_run(rt: HostRuntime) -> Result<(), Fail> {
    for worked in EACH_MODE {
        for most in MOST {
            // The last read gives no byte.
            let reads = worked.script.len().div_ceil(most).saturating_add(1);
            for left in 0..reads {
                fails_at_read(&rt, rt.alloc(), worked, most, left);
            }
            goes_out_whole(
                &rt,
                rt.alloc(),
                worked.mode,
                worked.script,
                worked.output,
                most,
            );
        }
    }
    Ok(())
}

#[test]
fn a_write_that_fails_once_ends_the_run(rt: HostRuntime) -> Result<(), Fail> {
    for worked in EACH_MODE {
        for most in MOST {
            let writes = worked.output.len().div_ceil(most);
            for left in 0..writes {
                for failure in [Failure::Error, Failure::TakesNone] {
                    fails_at_write(&rt, rt.alloc(), worked, most, left, failure);
                }
            }
            goes_out_whole(
                &rt,
                rt.alloc(),
                worked.mode,
                worked.script,
                worked.output,
                most,
            );
        }
    }
    Ok(())
}

#[test]
fn a_long_output_goes_out_by_short_writes(rt: HostRuntime) -> Result<(), Fail> {
    // 29,000 bytes: the first write takes 1, the next one 4, then 7, and so on.
    let mut script = String::from_str(rt.alloc(), "heap tiny 1 1 1\n")?;
    let mut output = String::new(rt.alloc());
    for _ in 0..1000 {
        script.push_str("0 Tie\n0 Drop\n")?;
        output.push_str("0 Tie skipped\n0 Drop skipped\n")?;
    }
    let mut reader = script.as_bytes();
    let mut writer = takes(rt.alloc(), 1);
    writer.grows = 3;
    let result = replay_alone(rt.alloc(), &mut reader, &mut writer, Mode::Steps, true);
    agree(&rt, result, Ok(()));
    holds(&rt, writer.taken.as_slice() == output.as_bytes());
    Ok(())
}
