//! Threads that do work of several kinds: the task is an enum, and a task may be refused.
ghost use Rattle.std.specs.Prelude.{◌≡◌, IfOk};
ghost use Rattle.gearlongan.specs.Passes.{AreOf};
ghost use Rattle.test_gearlongan.specs.Works.{AllAt, AllBackAt, heap_back, heap_of};

use gearlongan::{Heap, Pass, Reader, Refusal, Shard, Task, Value, Wide, all, gather, total};
use std::alloc::Global;
use std::thread::Threads;

/// What a thread does: an owner stores a value, or a pass fetches the value of a key.
#[derive(Drop)]
pub enum Work<'a> {
    Store(Shard<'a, Wide>, Value),
    Fetch(Pass<'a, Wide>, u64),
}

/// What a thread did, with the shard or the pass that it used. An owner leaves its shard after all threads have ended.
#[derive(Drop)]
pub enum Done<'a> {
    Stored(Shard<'a, Wide>, u64),
    Fetched(Pass<'a, Wide>, Result<Value, Refusal>),
}

impl<'a> Task for Work<'a> {
    type Output = Result<Done<'a>, Refusal>;

    // A task that is not refused gives back a pass or a shard of the same heap.
    ghost gives = { λ task output. IfOk output (λ done. heap_back done ≡ heap_of task) };

    fn run(self) -> Result<Done<'a>, Refusal> {
        match self {
            Work::Store(mut owner, value) => {
                let key = owner.insert(&value)?;
                Ok(Done::Stored(owner, key))
            }
            Work::Fetch(mut pass, key) => {
                let value = pass.fetch(key);
                Ok(Done::Fetched(pass, value))
            }
        }
    }
}

impl<'a> Done<'a> {
    /// Returns the pass. An owner leaves its shard. Refused with `Waiting` while another pass frees a slot there.
    pub fn into_pass(self) -> Result<Pass<'a, Wide>, Refusal>
        ensures { IfOk result (λ pass. pass.heap ≡ heap_back self.entry) }
    {
        match self {
            Done::Stored(owner, _) => Ok(owner.leave()?),
            Done::Fetched(pass, _) => Ok(pass),
        }
    }
}

/// Runs all tasks, each in a thread of its own if one can be made. Returns their outputs in order.
#[tactic(auto, using(crate::proofs::Backs::all_back))]
pub fn all_done<'a, R: Threads + Sync>(
    rt: &R,
    heap: &'a Heap<Wide>,
    tasks: Vec<Work<'a>>,
) -> Result<Vec<Result<Done<'a>, Refusal>>, Refusal>
    requires { AllAt heap.now tasks.items }
    ensures { IfOk result (λ outputs. AllBackAt heap.now outputs.items) }
{
    Ok(all(rt, tasks)?)
}

// The passes of all outputs, or the first refusal.
fn passes_of<'a>(
    alloc: Global,
    heap: &'a Heap<Wide>,
    outputs: Vec<Result<Done<'a>, Refusal>>,
) -> Result<Vec<Pass<'a, Wide>>, Refusal>
    requires { AllBackAt heap.now outputs.items }
    ensures { IfOk result (λ passes. AreOf heap.now passes.items) }
{
    let mut passes = Vec::new(alloc);
    for done in outputs {
        passes.push(done?.into_pass()?)?;
    }
    Ok(passes)
}

/// Runs all tasks. Returns the number of values of the heap after that, or `None` if not all of its passes came back.
pub fn live_after<'a, R: Threads + Sync>(
    rt: &R,
    alloc: Global,
    heap: &'a Heap<Wide>,
    tasks: Vec<Work<'a>>,
) -> Result<Option<u32>, Refusal>
    requires { AllAt heap.now tasks.items }
{
    let outputs = all_done(rt, heap, tasks)?;
    let passes = passes_of(alloc, heap, outputs)?;
    match gather(heap, passes) {
        Ok(mut whole) => Ok(Some(total(&mut whole).live)),
        Err(_) => Ok(None),
    }
}
