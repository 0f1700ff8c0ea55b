//! The worker of a thread: a pass that goes from shard to shard, or an owner that keeps its shard.
ghost use Rattle.std.specs.Prelude.{◌≡◌, IfOk};
ghost use Rattle.tool_large.specs.Workers.{heap_of};

use gearlongan::{KeyLayout, Pass, Refusal, Shard};
use std::alloc::Global;

// The number of attempts to leave while the leave returns `Waiting`.
const LEAVES: u32 = 1_000;

/// The worker of a thread.
#[derive(Drop)]
pub enum Worker<'a, L: KeyLayout> {
    /// Adopts a shard, fills it and leaves it, and adopts the next one.
    Roaming(Pass<'a, L>),
    /// Keeps its shard while all threads read and remove.
    Settled(Shard<'a, L>),
}

impl<'a, L: KeyLayout> Worker<'a, L> {
    /// Adopts this shard, which the worker keeps as long as it works.
    pub fn settled(alloc: Global, pass: Pass<'a, L>, shard: u64) -> Result<Self, Refusal>
        ensures { IfOk result (λ worker. heap_of worker ≡ pass.entry.heap) }
    {
        Ok(Worker::Settled(Shard::adopt(alloc, pass, shard)?))
    }

    /// Ends the work, and returns the pass.
    pub fn into_pass(self) -> Result<Pass<'a, L>, Refusal>
        ensures { IfOk result (λ pass. pass.heap ≡ heap_of self.entry) }
    {
        match self {
            Worker::Roaming(pass) => Ok(pass),
            Worker::Settled(owner) => left(owner),
        }
    }
}

/// Leaves a shard. A leave returns `Waiting` only while another pass is in the middle of a free in this shard. No
/// thread frees while shards are left here, since all threads that removed have ended before. If one did, it would end
/// its free within a few steps of its own. So a refused leave is tried again, but not forever.
pub fn left<'a, L: KeyLayout>(owner: Shard<'a, L>) -> Result<Pass<'a, L>, Refusal>
    ensures { IfOk result (λ pass. pass.heap ≡ owner.entry.pages.owner.heap) }
{
    let mut owner = owner;
    for _ in 0..LEAVES {
        match owner.leave() {
            Ok(pass) => return Ok(pass),
            Err((back, _waiting)) => owner = back,
        }
    }
    Err(Refusal::Waiting)
}
