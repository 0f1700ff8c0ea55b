//! Tests of the reading of recorded histories.
use crate::assertions::agree;
use history_lines::{Cause, Fault, Verdict, judge};
use std::alloc::Global;
use std::io;
use std::io::{BufReader, Read};
use std::process::Abort;
use std::test::Fail;

// What is said of a history: the text of its verdict, or of the fault.
fn said(alloc: Global, history: &str) -> Result<String, Fail> {
    let mut input = history.as_bytes();
    match judge(alloc, &mut input) {
        Ok(verdict) => Ok(format!(in alloc; "{verdict}")?),
        Err(fault) => Ok(format!(in alloc; "{fault}")?),
    }
}

// It is a function, since each assertion that is written out is proved anew.
fn says(rt: &impl Abort, alloc: Global, history: &str, wanted: &str) -> Result<(), Fail> {
    let text = said(alloc, history)?;
    assert_eq!(rt; text.as_str(), wanted);
    Ok(())
}

const SAID: [(&str, &str); 24] = [
    ("history 1 4\n", "legal, 0 entries on 0 keys"),
    (
        "; first\n\nhistory 2 4\n 0  Insert 4096 1 7 \n; then\n1 Gone 5\n",
        "legal, 2 entries on 1 keys",
    ),
    (
        "history 1 4\n0 Insert 4096 1 7\n0 Removed 4096\n0 Got 4096\n",
        "line 4: AfterRemoval, by line 3",
    ),
    ("history 1 4\n\n0 Got 4096\n", "line 3: NotIssued"),
    ("", "fault 14 History line 1 Header"),
    ("history 1 4\n0 Gone", "fault 14 History line 2 Cut"),
    (
        "history 1 4\n1 2 0 Gone 4096\n",
        "legal, 1 entries on 0 keys",
    ),
    (
        "history 2 4\n1 4 0 Insert 4096 1 7\n2 3 1 Got 4096\n5 - 0 Removed 4096\n",
        "legal, 3 entries on 1 keys",
    ),
    (
        "history 2 4\n3 4 0 Insert 4096 1 7\n1 2 1 Got 4096\n",
        "line 3: NotIssued",
    ),
    (
        "history 3 4\n0 1 0 Insert 1 0\n2 9 0 Crowded 1\n3 4 1 Got 1\n5 6 1 Released 1\n7 8 1 Got 1\n",
        "undecided, line 3 may be NotCrowded",
    ),
    (
        "history 1 4\n3 2 0 Gone 4096\n",
        "fault 14 History line 2 Times",
    ),
    (
        "history 1 4\n1 2 0 Gone 4096\n0 Gone 4096\n",
        "fault 14 History line 3 Mixed",
    ),
    (
        "history 1 4\n1 2 0 Gone 4096\n2 3 0 Gone 4096\n",
        "fault 14 History line 3 Overlap",
    ),
    (
        "history 1 4\n0 Insert 1 17 1 2 3 4 5 6 7 8 9 10 11 12 13 14 15 16 17\n",
        "fault 14 History line 2 Count",
    ),
    ("history 1 4\n0 Got 1\n0 Byte\x07\n", "line 2: NotIssued"),
    (
        "history 2 4\n0 Insert 1 2 7 8\n1 Seen 1 2 7 8\n0 Removed 1\n1 Gone 1\n",
        "legal, 4 entries on 1 keys",
    ),
    (
        "history 1 4\n0 Seen 1 0\n0 Insert 1 0\n",
        "line 2: NotIssued",
    ),
    (
        "history 1 4\n0 Insert 1 0\n0 Seen 1 0\n0 Released 1\n",
        "line 4: NotHeld",
    ),
    (
        "history 2 4\n2 3 1 Seen 1 1 7\n1 4 0 Insert 1 1 7\n5 8 0 Removed 1\n6 7 1 Seen 1 1 7\n",
        "legal, 4 entries on 1 keys",
    ),
    (
        "history 2 4\n3 4 0 Insert 1 1 7\n1 2 1 Seen 1 1 7\n",
        "line 3: NotIssued",
    ),
    (
        "history 2 4\n1 2 0 Insert 1 1 7\n3 4 0 Removed 1\n5 6 1 Seen 1 1 7\n",
        "line 4: AfterRemoval, by line 3",
    ),
    (
        "history 2 4\n1 2 0 Insert 1 1 7\n3 4 1 Seen 1 1 8\n",
        "line 3: OtherValue, by line 2",
    ),
    (
        "history 2 4\n1 2 0 Insert 1 1 7\n3 4 1 Seen 1 1 7\n5 6 1 Released 1\n",
        "line 4: NotHeld",
    ),
    ("history 1 4\n0 Seen 1\n", "fault 14 History line 2 Count"),
];

#[test]
fn verdicts_and_faults_are_said(rt: HostRuntime) -> Result<(), Fail> {
    for (history, wanted) in SAID {
        says(&rt, rt.alloc(), history, wanted)?;
    }
    Ok(())
}

// A reader that gives some bytes and then fails.
#[derive(Drop)]
struct Breaking<'a> {
    bytes: &'a [u8],
}

impl Read for Breaking<'_> {
    fn read(&mut self, buf: &mut [u8]) -> io::Result<usize> {
        if self.bytes.is_empty() {
            return Err(io::Error::from(io::ErrorKind::BrokenPipe));
        }
        self.bytes.read(buf)
    }
}

#[test]
fn a_read_that_fails_is_a_fault(rt: HostRuntime) -> Result<(), Fail> {
    let bytes = "history 1 4\n0 Insert 4096 1 7\n".as_bytes();
    let mut input = BufReader::new(rt.alloc(), Breaking { bytes })?;
    agree(&rt, judge(rt.alloc(), &mut input), Err(Fault::Io));
    Ok(())
}

// Where memory is refused once, the next run is whole.
#[test]
fn refused_memory_is_a_fault(rt: HostRuntime) -> Result<(), Fail> {
    let history = "history 1 4\n0 Insert 4096 1 7\n0 Got 4096 1 7\n0 Released 4096\n";
    let mut input = history.as_bytes();
    let first = judge(rt.alloc(), &mut input);
    let mut again = history.as_bytes();
    match first {
        Err(Fault::Memory) => agree(&rt, judge(rt.alloc(), &mut again), Ok(Verdict::Legal(3, 1))),
        other => agree(&rt, other, Ok(Verdict::Legal(3, 1))),
    }
    Ok(())
}

#[test]
fn a_fault_is_named(rt: HostRuntime) -> Result<(), Fail> {
    let mut input = "history 1 4\n0 Removed 01\n".as_bytes();
    agree(
        &rt,
        judge(rt.alloc(), &mut input),
        Err(Fault::History(2, Cause::Number)),
    );
    Ok(())
}
