//! The task of a thread that removes its part of all keys, in mixed order.
ghost use Rattle.std.specs.Prelude.{◌≡◌, ◌≤◌, ◌<◌, length, IfOk};
ghost use Rattle.tool_large.specs.Shares.{share};
ghost use Rattle.tool_large.specs.Workers.{heap_of};

use crate::crew::Done;
use crate::share::share_of;
use crate::worker::Worker;
use gearlongan::{KeyLayout, Reader, Refusal, Task};

// A prime number above each count of keys, so that no two turns have the same place.
const STRIDE: u64 = 2_147_483_647;

/// Removes the keys of each fourth turn, from the turn with this number on. Each key has exactly one turn.
#[derive(Drop)]
pub struct Removing<'a, 'k, L: KeyLayout> {
    pub worker: Worker<'a, L>,
    pub keys: &'k [u64],
    pub number: usize,
}

impl<'a, L: KeyLayout> Task for Removing<'a, '_, L> {
    // The number of keys that it removed itself.
    type Output = Done<'a, L, usize>;

    ghost gives = { λ task output. IfOk output (λ done. (heap_of done.0 ≡ heap_of task.worker)
        × (task.number < 4 → done.1 ≤ share (length task.keys.now) task.number)) };

    fn run(self) -> Done<'a, L, usize> {
        let Removing {
            worker,
            keys,
            number,
        } = self;
        match worker {
            Worker::Roaming(mut pass) => {
                let removed = remove_each(&mut pass, keys, number)?;
                Ok((Worker::Roaming(pass), removed))
            }
            Worker::Settled(mut owner) => {
                let removed = remove_each(&mut owner, keys, number)?;
                Ok((Worker::Settled(owner), removed))
            }
        }
    }
}

// Removes its keys, and returns the number of those that it removed itself.
fn remove_each<R: Reader>(reader: &mut R, keys: &[u64], number: usize) -> Result<usize, Refusal>
    ensures heap { (R.caller reader.new).heap ≡ (R.caller reader.old).heap }
    ensures most { IfOk result (λ removed. number < 4 → removed ≤ share (length keys.now) number) }
{
    let mut removed = 0;
    for turn in 0..share_of(keys.len(), number) {
        let place = place_of(turn.wrapping_mul(4).wrapping_add(number), keys.len());
        if let Some(key) = keys.get(place) {
            if removes(reader, *key)? {
                removed += 1;
            }
        }
    }
    Ok(removed)
}

// The place of the key that has this turn.
fn place_of(turn: usize, count: usize) -> usize {
    (turn as u64)
        .wrapping_mul(STRIDE)
        .checked_rem(count as u64)
        .unwrap_or(0) as usize
}

// Removes a key. Returns false if the key finds nothing.
fn removes<R: Reader>(reader: &mut R, key: u64) -> Result<bool, Refusal>
    ensures { (R.caller reader.new).heap ≡ (R.caller reader.old).heap }
{
    match reader.remove(key) {
        Ok(()) => Ok(true),
        Err(Refusal::Gone) => Ok(false),
        Err(why) => Err(why),
    }
}
