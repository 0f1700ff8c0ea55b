//! Passes and owners, for callers that give up when they are refused: these functions drop what a refused call returns.
ghost use Rattle.std.specs.Prelude.{◌≡◌, MatchResult, Ok, Err};
ghost use Rattle.sh_pass.specs.Passes.{Caller, newcomers};
ghost use Rattle.sh_shard.specs.Shards.{AdoptServes, LeaveServes, Sharded};

use crate::lots::insert_each;
use sh_key::KeyLayout;
use sh_pass::{Heap, Pass, Seats};
use sh_shard::Shard;
use sh_value::Refusal;
use std::alloc::Global;
use tool_load::samples::Samples;

/// All passes of the heap that has these seats.
pub fn passes_of<L: KeyLayout>(
    alloc: Global,
    heap: &Heap<L>,
    seats: Seats<L>,
) -> Result<Vec<Pass<'_, L>>, Refusal>
    requires { seats ≡ heap.now }
    ensures { MatchResult result
        (λ passes. passes.items ≡ newcomers heap.now heap.now.shape.passes)
        (λ why. why ≡ Refusal.Memory) }
{
    match heap.passes(alloc, seats) {
        Ok(passes) => Ok(passes),
        Err((_, why)) => Err(why),
    }
}

/// The owner that the pass becomes by adopting the shard.
pub fn adopted<'a, L: KeyLayout>(
    alloc: Global,
    pass: Pass<'a, L>,
    shard: u64,
) -> Result<Shard<'a, L>, Refusal>
    ensures { MatchResult result
        (λ owner. AdoptServes shard pass.entry (Ok owner))
        (λ why. (back : Caller) × AdoptServes shard pass.entry (Err (back, why))) }
{
    match Shard::adopt(alloc, pass, shard) {
        Ok(owner) => Ok(owner),
        Err((_, why)) => Err(why),
    }
}

/// Leaves the owner's shard, and returns the pass.
pub fn left<'a, L: KeyLayout>(owner: Shard<'a, L>) -> Result<Pass<'a, L>, Refusal>
    ensures { MatchResult result
        (λ pass. LeaveServes owner.entry (Ok pass))
        (λ why. (back : Sharded) × LeaveServes owner.entry (Err (back, why))) }
{
    match owner.leave() {
        Ok(pass) => Ok(pass),
        Err((_, why)) => Err(why),
    }
}

/// Adopts the shard, inserts the values of the first places, one for each key, and returns the owner.
pub fn filled<'a, L: KeyLayout>(
    alloc: Global,
    pass: Pass<'a, L>,
    shard: u64,
    samples: &Samples,
    keys: &mut [u64],
) -> Result<Shard<'a, L>, Refusal> {
    let mut owner = adopted(alloc, pass, shard)?;
    insert_each(&mut owner, samples, keys)?;
    Ok(owner)
}
