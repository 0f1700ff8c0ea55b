//! Tests of what a gate observes: each call of each pass by its number, before it and after it.
use crate::assertions::{agree, holds};
use sh_replay::{Gate, Mode, replay_gated};
use std::alloc::Global;
use std::process::Abort;
use std::sync::Wait;
use std::sync::atomic::{AtomicU64, Ordering};
use std::thread::{Threads, yield_now};

/// The passes, and the calls of each.
const PASSES: usize = 2;

const CALLS: usize = 3;

const TOLD: usize = PASSES * CALLS * 2;

/// How often a gate looks whether another pass has reached a place.
const LOOKS: u64 = 10_000_000;

/// A gate that notes when it was passed for each call, counted from 1 over all passes.
#[derive(Drop)]
struct Notes {
    times: [[AtomicU64; CALLS * 2]; PASSES],
    count: AtomicU64,
    missed: AtomicU64,
}

fn untold() -> AtomicU64 {
    AtomicU64::new(0)
}

// The times of one pass.
fn untold_calls() -> [AtomicU64; CALLS * 2] {
    [untold(), untold(), untold(), untold(), untold(), untold()]
}

impl Notes {
    fn new() -> Notes {
        Notes {
            times: [untold_calls(), untold_calls()],
            count: untold(),
            missed: untold(),
        }
    }

    // The cell for the time of a call, if there is such a call.
    fn told(&self, pass: usize, call: usize, is_after: bool) -> Option<&AtomicU64> {
        if call >= CALLS {
            return None;
        }
        let times = self.times.get(pass)?;
        times.get(call * 2 + is_after as usize)
    }

    /// When the gate was passed for the call, 0 if it was not.
    fn time(&self, pass: usize, call: usize, is_after: bool) -> u64 {
        match self.told(pass, call, is_after) {
            Some(time) => time.load(Ordering::SeqCst),
            None => 0,
        }
    }

    fn note(&self, pass: usize, call: usize, is_after: bool) {
        let now = self.count.fetch_add(1, Ordering::SeqCst).saturating_add(1);
        match self.told(pass, call, is_after) {
            Some(time) if time.load(Ordering::SeqCst) == 0 => time.store(now, Ordering::SeqCst),
            _ => self.missed.store(1, Ordering::SeqCst),
        }
    }

    /// Looks until the gate was passed for the call.
    fn wait(&self, pass: usize, call: usize, is_after: bool) {
        for _ in 0..LOOKS {
            if self.time(pass, call, is_after) != 0 {
                return;
            }
            yield_now();
        }
        self.missed.store(1, Ordering::SeqCst);
    }
}

// Pass 0 binds a name by its call 1, and call 0 of pass 1 is on that name. Before its call, pass 0 looks for pass 1
// before the wait for the name; after its call, it looks for pass 1 after the call of pass 1.
impl Gate for Notes {
    fn before(&self, pass: usize, call: usize) {
        self.note(pass, call, false);
        if pass == 0 && call == 1 {
            self.wait(1, 0, false);
        }
    }

    fn after(&self, pass: usize, call: usize) {
        self.note(pass, call, true);
        if pass == 0 && call == 1 {
            self.wait(1, 0, true);
        }
    }
}

/// Runs a script in mode threads with this gate. It writes this output.
pub fn passes<R: Threads + Wait + Sync + Abort, G: Gate + Sync>(
    rt: &R,
    alloc: Global,
    script: &str,
    output: &str,
    gate: &G,
) {
    let mut reader = script.as_bytes();
    let mut out = Vec::new(alloc);
    let end = replay_gated(rt, alloc, &mut reader, &mut out, Mode::Threads, false, gate);
    agree(rt, end, Ok(()));
    agree(rt, out.as_slice(), output.as_bytes());
}

#[test]
fn a_gate_is_told_of_each_call_before_and_after_it(rt: HostRuntime) {
    let script =
        "heap tiny 1 1 2\n0 adopt 0\n0 insert a 7\n1 get a\n1 read a\n0 leave\n1 release a\n";
    let output = "0 adopt ok\n0 insert 4096\n1 get ok\n1 read 1 7\n0 leave ok\n1 release ok\n";
    let gate = Notes::new();
    passes(&rt, rt.alloc(), script, output, &gate);
    agree(&rt, gate.missed.load(Ordering::SeqCst), 0);
    agree(&rt, gate.count.load(Ordering::SeqCst), TOLD as u64);
    for pass in 0..PASSES {
        let mut last = 0;
        for call in 0..CALLS {
            let before = gate.time(pass, call, false);
            let after = gate.time(pass, call, true);
            holds(&rt, last < before && before < after);
            last = after;
        }
    }
}
