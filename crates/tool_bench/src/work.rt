//! The works of threads, and how they are measured: each runs in a thread of its own.
use crate::gate::Gate;
use crate::parting::together;
use std::alloc::Global;
use std::rt::Clock;
use std::thread;
use std::thread::Threads;
use tool_load::fault::Fault;
use tool_load::options::Options;
use tool_load::outcome::Outcome;

/// The work of one thread.
pub trait Work: Drop {
    /// Does the work, and returns what was measured. The measured part begins when all threads have reached the gate.
    fn run<C: Clock>(
        self,
        rt: &C,
        alloc: Global,
        gate: &Gate,
        options: &Options,
    ) -> Result<Outcome, Fault>;
}

/// Measures the works, each in a thread of its own. The gate is for `threads` threads.
pub fn measure<W: Work + Send, R: Threads + Clock + Sync>(
    rt: &R,
    alloc: Global,
    options: &Options,
    threads: usize,
    works: Vec<W>,
) -> Result<Outcome, Fault> {
    let gate = &Gate::new(threads as u64);
    let done = thread::map_vec(rt, works, &|work: W| work.run(rt, alloc, gate, options))?;
    together(done.as_slice())
}
