//! Tests of mode threads: each pass makes its calls in a thread of its own.
use super::gates::passes;
use crate::assertions::agree;
use sh_replay::Gate;
use std::sync::atomic::{AtomicBool, AtomicU64, Ordering};
use std::thread::yield_now;

/// A gate at which each of two passes looks for the other, at most `LOOKS` times.
#[derive(Drop)]
struct Meeting {
    here: [AtomicBool; 2],
    missed: AtomicU64,
}

const LOOKS: u64 = 10_000_000;

impl Meeting {
    fn sees(&self, pass: usize) -> bool {
        let Some(other) = self.here.get(1 - pass.min(1)) else {
            return false;
        };
        for _ in 0..LOOKS {
            if other.load(Ordering::SeqCst) {
                return true;
            }
            yield_now();
        }
        false
    }
}

impl Gate for Meeting {
    fn before(&self, pass: usize, _call: usize) {
        if let Some(own) = self.here.get(pass) {
            own.store(true, Ordering::SeqCst);
        }
        if !self.sees(pass) {
            self.missed.store(1, Ordering::SeqCst);
        }
    }

    fn after(&self, _pass: usize, _call: usize) {}
}

#[test]
fn workers_run_together(rt: HostRuntime) {
    let script = "heap tiny 1 1 2\n0 get #0\n1 get #0\n";
    let gate = Meeting {
        here: [AtomicBool::new(false), AtomicBool::new(false)],
        missed: AtomicU64::new(0),
    };
    let output = "0 get refused 1 BadKey\n1 get refused 1 BadKey\n";
    passes(&rt, rt.alloc(), script, output, &gate);
    agree(&rt, gate.missed.load(Ordering::SeqCst), 0);
}
