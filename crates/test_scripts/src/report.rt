//! The line of each fault, which goes out in one write, and the exit status that follows it.
use crate::assertions::agree;
use script_program::program::report;
use sh_script::{Cause, Fault};
use std::alloc::Global;
use std::io;
use std::io::Write;
use std::process::Abort;

/// A device that keeps what is written to it, and counts the writes.
#[derive(Drop)]
struct Counting {
    taken: Vec<u8>,
    writes: u64,
}

impl Write for Counting {
    fn write(&mut self, buffer: &[u8]) -> io::Result<usize> {
        self.writes = self.writes.saturating_add(1);
        self.taken.extend_from_slice(buffer)?;
        Ok(buffer.len())
    }

    fn flush(&mut self) -> io::Result<()> {
        Ok(())
    }
}

const REPORTED: [(Fault, &str, u8); 8] = [
    (
        Fault::Script(2, Cause::Cut),
        "shardheap: fault 14 Script line 2 Cut\n",
        2,
    ),
    (
        Fault::Script(3, Cause::Unbound),
        "shardheap: fault 14 Script line 3 Unbound\n",
        2,
    ),
    (
        Fault::Script(1, Cause::Header),
        "shardheap: fault 14 Script line 1 Header\n",
        2,
    ),
    (
        Fault::Script(u64::MAX, Cause::Unbound),
        "shardheap: fault 14 Script line 18446744073709551615 Unbound\n",
        2,
    ),
    (Fault::BadShape, "shardheap: fault 12 BadShape\n", 2),
    (Fault::Memory, "shardheap: fault 8 Memory\n", 3),
    (Fault::Waiting, "shardheap: fault 11 Waiting\n", 3),
    (Fault::Io, "shardheap: fault 15 Io\n", 3),
];

// Asserts that the fault is reported by this line, and ends a run with this status.
fn is_reported(rt: &impl Abort, alloc: Global, fault: Fault, line: &str, ends_with: u8) {
    let mut errors = Counting {
        taken: Vec::new(alloc),
        writes: 0,
    };
    agree(rt, report(fault, &mut errors), ends_with);
    agree(rt, errors.taken.as_slice(), line.as_bytes());
    agree(rt, errors.writes, 1);
}

#[test]
fn each_fault_is_a_line_that_goes_out_in_one_write(rt: HostRuntime) {
    for (fault, line, ends_with) in &REPORTED {
        is_reported(&rt, rt.alloc(), *fault, line, *ends_with);
    }
}
