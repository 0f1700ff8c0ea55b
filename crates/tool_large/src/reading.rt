//! The task of a thread that reads what another thread inserted.
ghost use Rattle.std.specs.Prelude.{◌≡◌, ◌≤◌, length, IfOk};
ghost use Rattle.tool_large.specs.Workers.{heap_of};

use crate::crew::Done;
use crate::worker::Worker;
use gearlongan::{KeyLayout, Reader, Refusal, Task};

/// Reads the values of these keys. The first value is `word`, and each later one is larger by one.
#[derive(Drop)]
pub struct Reading<'a, 'k, L: KeyLayout> {
    pub worker: Worker<'a, L>,
    pub keys: &'k [u64],
    pub word: u64,
}

impl<'a, L: KeyLayout> Task for Reading<'a, '_, L> {
    // The number of values that were found as they were inserted.
    type Output = Done<'a, L, usize>;

    ghost gives = { λ task output. IfOk output (λ done. (heap_of done.0 ≡ heap_of task.worker)
        × (done.1 ≤ length task.keys.now)) };

    fn run(self) -> Done<'a, L, usize> {
        let Reading { worker, keys, word } = self;
        match worker {
            Worker::Roaming(mut pass) => {
                let right = read_right(&mut pass, keys, word)?;
                Ok((Worker::Roaming(pass), right))
            }
            Worker::Settled(mut owner) => {
                let right = read_right(&mut owner, keys, word)?;
                Ok((Worker::Settled(owner), right))
            }
        }
    }
}

// The number of right values.
fn read_right<R: Reader>(reader: &mut R, keys: &[u64], word: u64) -> Result<usize, Refusal>
    ensures heap { (R.caller reader.new).heap ≡ (R.caller reader.old).heap }
    ensures most { IfOk result (λ right. right ≤ length keys.now) }
{
    let mut right = 0;
    let mut wanted = word;
    for key in keys {
        if is_right(reader, *key, wanted)? {
            right += 1;
        }
        wanted = wanted.wrapping_add(1);
    }
    Ok(right)
}

// Whether the value of a key is this one word. False too if the key finds nothing.
fn is_right<R: Reader>(reader: &mut R, key: u64, wanted: u64) -> Result<bool, Refusal>
    ensures { (R.caller reader.new).heap ≡ (R.caller reader.old).heap }
{
    match reader.fetch(key) {
        Ok(value) => match value.words() {
            [word] => Ok(*word == wanted),
            _ => Ok(false),
        },
        Err(Refusal::Gone) => Ok(false),
        Err(why) => Err(why),
    }
}
