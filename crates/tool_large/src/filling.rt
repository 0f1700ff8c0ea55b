//! A thread fills its shard, or its shards one after the other.
ghost use Rattle.std.specs.Prelude.{◌≡◌, ◌≤◌, vec_len, IfOk};
ghost use Rattle.tool_large.specs.Workers.{heap_of};

use crate::crew::Done;
use crate::worker::{Worker, left};
use gearlongan::{KeyLayout, Pass, Refusal, Shard, Task, Value};
use std::alloc::Global;

/// What a thread inserts: `values` values of one word, from `word` on and each larger by one, in up to `shards` shards
/// from `shard` on.
#[derive(Clone, Copy, Debug, PartialEq, Eq)]
pub struct Part {
    pub shard: u64,
    pub shards: u64,
    pub word: u64,
    pub values: usize,
}

/// What a thread inserted.
#[derive(Drop)]
pub struct Filled {
    /// The keys, in the order of the values.
    pub keys: Vec<u64>,
    /// The number of shards that it filled, wholly or in part.
    pub shards: u64,
}

/// Inserts the values of a part.
#[derive(Drop)]
pub struct Filling<'a, L: KeyLayout> {
    pub worker: Worker<'a, L>,
    pub part: Part,
    pub alloc: Global,
}

impl<'a, L: KeyLayout> Task for Filling<'a, L> {
    type Output = Done<'a, L, Filled>;

    // All values are inserted, and the worker that comes back has the heap of the one that went.
    ghost gives = { λ task output. IfOk output (λ done. (heap_of done.0 ≡ heap_of task.worker)
        × (vec_len done.1.keys ≡ task.part.values)) };

    fn run(self) -> Done<'a, L, Filled> {
        let Filling {
            worker,
            part,
            alloc,
        } = self;
        match worker {
            Worker::Roaming(pass) => {
                let (pass, filled) = fill_shards(alloc, pass, part)?;
                Ok((Worker::Roaming(pass), filled))
            }
            Worker::Settled(mut owner) => {
                let filled = fill_own(alloc, &mut owner, part)?;
                Ok((Worker::Settled(owner), filled))
            }
        }
    }
}

// Inserts all values in the owner's shard. Returns `Full` if it has no room for them.
fn fill_own<L: KeyLayout>(
    alloc: Global,
    owner: &mut Shard<'_, L>,
    part: Part,
) -> Result<Filled, Refusal>
    ensures heap { owner.new.pages.owner.heap ≡ owner.old.pages.owner.heap }
    ensures all { IfOk result (λ filled. vec_len filled.keys ≡ part.values) }
{
    let mut keys = Vec::with_capacity(alloc, part.values)?;
    insert_all(owner, part, &mut keys)?;
    if keys.len() < part.values {
        return Err(Refusal::Full);
    }
    Ok(Filled { keys, shards: 1 })
}

// Fills shards until all values are inserted. Returns `Full` if the shards have no room for them.
fn fill_shards<'a, L: KeyLayout>(
    alloc: Global,
    pass: Pass<'a, L>,
    part: Part,
) -> Result<(Pass<'a, L>, Filled), Refusal>
    ensures heap { IfOk result (λ done. done.0.heap ≡ pass.entry.heap) }
    ensures all { IfOk result (λ done. vec_len done.1.keys ≡ part.values) }
{
    let mut pass = pass;
    let mut keys = Vec::with_capacity(alloc, part.values)?;
    let mut shards = 0;
    for number in 0..part.shards {
        if keys.len() < part.values {
            let shard = part.shard.wrapping_add(number);
            pass = fill_shard(alloc, pass, shard, part, &mut keys)?;
            shards = number + 1;
        }
    }
    if keys.len() < part.values {
        return Err(Refusal::Full);
    }
    Ok((pass, Filled { keys, shards }))
}

// Adopts a shard, inserts values there until it is full or none is left, and leaves it.
fn fill_shard<'a, L: KeyLayout>(
    alloc: Global,
    pass: Pass<'a, L>,
    shard: u64,
    part: Part,
    keys: &mut Vec<u64>,
) -> Result<Pass<'a, L>, Refusal>
    requires { vec_len keys.old ≤ part.values }
    ensures heap { IfOk result (λ back. back.heap ≡ pass.entry.heap) }
    ensures few { vec_len keys.new ≤ part.values }
{
    let mut owner = Shard::adopt(alloc, pass, shard)?;
    insert_all(&mut owner, part, keys)?;
    left(owner)
}

// Inserts the values that are missing, or the first of them that the shard has room for.
fn insert_all<L: KeyLayout>(
    owner: &mut Shard<'_, L>,
    part: Part,
    keys: &mut Vec<u64>,
) -> Result<(), Refusal>
    requires { vec_len keys.old ≤ part.values }
    ensures heap { owner.new.pages.owner.heap ≡ owner.old.pages.owner.heap }
    ensures few { vec_len keys.new ≤ part.values }
{
    for number in keys.len()..part.values {
        match owner.insert(&Value::from(part.word.wrapping_add(number as u64))) {
            Ok(key) => keys.push(key)?,
            Err(Refusal::Full) => return Ok(()),
            Err(why) => return Err(why),
        }
    }
    Ok(())
}
