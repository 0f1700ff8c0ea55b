//! Refused memory in each mode. With `rt try --test --fail-alloc N` the N-th allocation of a test is refused; each of
//! these tests survives that for any N.
use crate::assertions::{agree, holds};
use sh_replay::{Mode, replay};
use sh_script::Fault;
use std::alloc::Global;
use std::process::Abort;
use std::sync::Wait;
use std::thread::Threads;

// Whether a run ended as one that was refused memory: with a fault and nothing written, or it continued. It then has
// the refusal as a reply, and wrote one of the other outputs.
fn is_refused(mode: Mode, end: Result<(), Fault>, out: &[u8], others: &[&str]) -> bool {
    match end {
        Ok(()) => others.iter().any(|other| out == other.as_bytes()),
        // (a thread that could not be started)
        Err(Fault::Io) => mode == Mode::Threads && out.is_empty(),
        Err(fault) => fault == Fault::Memory && out.is_empty(),
    }
}

// Runs a script, with accounts.
fn run<R: Threads + Wait + Sync + Abort>(
    rt: &R,
    alloc: Global,
    mode: Mode,
    script: &str,
    out: &mut Vec<u8>,
) -> Result<(), Fault> {
    let mut reader = script.as_bytes();
    replay(rt, alloc, &mut reader, out, mode, true)
}

// Runs a script. Returns whether it wrote the usual output; if not, it was refused memory.
fn runs<R: Threads + Wait + Sync + Abort>(
    rt: &R,
    alloc: Global,
    mode: Mode,
    script: &str,
    output: &str,
    others: &[&str],
) -> bool {
    let Ok(mut out) = Vec::with_capacity(alloc, 1024) else {
        return false;
    };
    let end = run(rt, alloc, mode, script, &mut out);
    if end == Ok(()) && out.as_slice() == output.as_bytes() {
        return true;
    }
    holds(rt, is_refused(mode, end, out.as_slice(), others));
    false
}

/// Runs a script twice. One run may be refused memory; the other writes the usual output.
fn survives<R: Threads + Wait + Sync + Abort>(
    rt: &R,
    alloc: Global,
    mode: Mode,
    script: &str,
    output: &str,
    others: &[&str],
) {
    let first = runs(rt, alloc, mode, script, output, others);
    let second = runs(rt, alloc, mode, script, output, others);
    holds(rt, first || second);
}

#[test]
fn refused_memory_in_mode_plain(rt: HostRuntime) {
    let script = "heap tiny 1 1 2\n0 adopt 0\n0 insert a 7\n1 get a\n1 read a\n1 release a\n";
    let output = "0 adopt ok\n0 insert 4096\n1 get ok\n1 read 1 7\n1 release ok\n";
    // If the insert is refused.
    let other =
        "0 adopt ok\n0 insert refused 8 Memory\n1 get unbound\n1 read unbound\n1 release unbound\n";
    survives(&rt, rt.alloc(), Mode::Plain, script, output, &[other]);
}

/// A shard of two owners, one after the other. The lists of the names and lines outgrow a room of 4, 8 and 16.
const OWNERS: &str =
    "heap tiny 1 1 2\n0 adopt 0\n0 insert a 7\n0 leave\n0 post left\n1 wait left\n1 adopt 0\n1 insert b 8\n1 get a\n\
    1 read a\n1 release a\n1 remove a\n0 post c\n0 post d\n0 post e\n0 post f\n0 post g\n0 post h\n";

// The first owner puts slots 1 to 47 when it leaves, so that the second finds slot 47 first.
const OWNERS_OUTPUT: &str =
    "0 adopt ok\n0 insert 4096\n0 leave ok\n0 post ok\n1 wait ok\n1 adopt ok\n1 insert 4143\n1 get ok\n1 read 1 7\n\
    1 release ok\n1 remove ok\n0 post ok\n0 post ok\n0 post ok\n0 post ok\n0 post ok\n0 post ok\n\
    page 0.0 class 0 live 1 marked 0 retired 0 mine 0 hand 0 queued 47\n";

// What is written if the first adoption is refused, if the first insert is, which opens a segment, and if the second
// adoption is.
const OWNERS_REFUSED: [&str; 3] = [
    "0 adopt refused 8 Memory\n0 insert refused 10 NoShard\n0 leave refused 10 NoShard\n0 post ok\n1 wait ok\n\
    1 adopt ok\n1 insert 4096\n1 get unbound\n1 read unbound\n1 release unbound\n1 remove unbound\n\
    0 post ok\n0 post ok\n0 post ok\n0 post ok\n0 post ok\n0 post ok\n\
    page 0.0 class 0 live 1 marked 0 retired 0 mine 0 hand 0 queued 47\n",
    "0 adopt ok\n0 insert refused 8 Memory\n0 leave ok\n0 post ok\n1 wait ok\n\
    1 adopt ok\n1 insert 4096\n1 get unbound\n1 read unbound\n1 release unbound\n1 remove unbound\n\
    0 post ok\n0 post ok\n0 post ok\n0 post ok\n0 post ok\n0 post ok\n\
    page 0.0 class 0 live 1 marked 0 retired 0 mine 0 hand 0 queued 47\n",
    "0 adopt ok\n0 insert 4096\n0 leave ok\n0 post ok\n1 wait ok\n\
    1 adopt refused 8 Memory\n1 insert refused 10 NoShard\n1 get ok\n1 read 1 7\n1 release ok\n1 remove ok\n\
    0 post ok\n0 post ok\n0 post ok\n0 post ok\n0 post ok\n0 post ok\n\
    page 0.0 class 0 live 0 marked 0 retired 0 mine 0 hand 0 queued 48\n",
];

#[test]
fn refused_memory_in_mode_heap(rt: HostRuntime) {
    survives(
        &rt,
        rt.alloc(),
        Mode::Heap,
        OWNERS,
        OWNERS_OUTPUT,
        &OWNERS_REFUSED,
    );
}

#[test]
fn refused_memory_in_mode_threads(rt: HostRuntime) {
    survives(
        &rt,
        rt.alloc(),
        Mode::Threads,
        OWNERS,
        OWNERS_OUTPUT,
        &OWNERS_REFUSED,
    );
}

/// Runs the script of two owners once. It ends well, and the output is the usual one, or the one in which this growth
/// was refused and reported as a reply. It must be the latter if an allocation of that growth is refused:
/// `scripts/refuse-memory` has their numbers.
fn tells<R: Threads + Wait + Sync + Abort>(rt: &R, alloc: Global, mode: Mode, growth: usize) {
    let mut out = Vec::new(alloc);
    let end = run(rt, alloc, mode, OWNERS, &mut out);
    agree(rt, end, Ok(()));
    let refused = OWNERS_REFUSED[growth.min(2)];
    holds(
        rt,
        out.as_slice() == OWNERS_OUTPUT.as_bytes() || out.as_slice() == refused.as_bytes(),
    );
}

#[test]
fn a_refused_adopt_is_told_in_mode_heap(rt: HostRuntime) {
    tells(&rt, rt.alloc(), Mode::Heap, 0);
}

#[test]
fn a_refused_insert_is_told_in_mode_heap(rt: HostRuntime) {
    tells(&rt, rt.alloc(), Mode::Heap, 1);
}

#[test]
fn a_refused_second_adopt_is_told_in_mode_heap(rt: HostRuntime) {
    tells(&rt, rt.alloc(), Mode::Heap, 2);
}

#[test]
fn a_refused_adopt_is_told_in_mode_threads(rt: HostRuntime) {
    tells(&rt, rt.alloc(), Mode::Threads, 0);
}

#[test]
fn a_refused_insert_is_told_in_mode_threads(rt: HostRuntime) {
    tells(&rt, rt.alloc(), Mode::Threads, 1);
}

#[test]
fn a_refused_second_adopt_is_told_in_mode_threads(rt: HostRuntime) {
    tells(&rt, rt.alloc(), Mode::Threads, 2);
}

/// A script that fills a slot, gets it and removes it, and its output.
const EVENTS: &str =
    "heap tiny 1 1 2\n0 Adopt 0\n0 Read 0.0\n0 SetClass 0.0 7\n0 Fill 0.0.0 5\n0 Fill\n0 Publish\n1 Enter get 4096\n\
    1 Read 4096 0\n0 Enter remove 4096\n0 Mark\n0 Drop\n1 Drop 4096\n1 Finish\n1 Put\n1 Tie\n0 Take 0.0\n\
    0 Follow 0.0\n";

const EVENTS_OUTPUT: &str =
    "0 Adopt moved\n0 Read moved\n0 SetClass moved\n0 Fill moved\n0 Fill moved\n0 Publish Insert 4096 1 5\n\
    1 Enter Got 4096 1 5\n1 Read moved\n0 Enter moved\n0 Mark Removed 4096\n0 Drop moved\n1 Drop Released 4096\n\
    1 Finish moved\n1 Put moved\n1 Tie moved\n0 Take moved\n0 Follow moved\n\
    page 0.0 class 7 live 0 marked 0 retired 0 mine 3 hand 0 queued 0\n";

#[test]
fn refused_memory_in_mode_steps(rt: HostRuntime) {
    survives(&rt, rt.alloc(), Mode::Steps, EVENTS, EVENTS_OUTPUT, &[]);
}
