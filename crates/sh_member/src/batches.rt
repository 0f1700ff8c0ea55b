//! One call for several keys, whose waits for memory overlap.
ghost use Rattle.std.specs.Prelude.{◌≡◌, length};
ghost use Rattle.sh_member.specs.Batches.{GetsEach, FetchesEach, RemainsAfter};
ghost use Rattle.sh_pass.specs.Remaining.{Remains};
ghost use Rattle.sh_pass.specs.Fetching.{FetchDoes};

use crate::fetching::fetch;
use crate::reader::Reader;
use sh_value::{Hold, Refusal, Value};

/// How many keys are warmed at a time.
pub const BLOCK: usize = 8;

// Warms the first keys of the rest of a batch.
fn warm_block<R: Reader>(reader: &R, keys: &[u64]) {
    for key in keys.iter().take(BLOCK) {
        reader.warm(*key);
    }
}

// The same, with the words that a read of the values needs.
fn warm_values<R: Reader>(reader: &R, keys: &[u64]) {
    for key in keys.iter().take(BLOCK) {
        reader.warm_value(*key);
    }
}

/// Takes a hold on each key, in order, and writes what each get returned to its place in the results. A refused get
/// stops nothing.
pub fn get_each<R: Reader>(reader: &mut R, keys: &[u64], results: &mut [Result<Hold, Refusal>])
    requires { length results.old ≡ length keys.now }
    ensures does { GetsEach R.layout keys.now (R.caller reader.old) results.new (R.caller reader.new) }
    ensures remains { RemainsAfter R.layout keys.now (R.caller reader.old) (R.caller reader.new) }
{
    for (at, key) in keys.iter().enumerate() {
        if at % BLOCK == 0 {
            warm_block(reader, &keys[at..]);
        }
        results[at] = reader.get(*key);
    }
}

// Fetches a key into its place in the results. A value that is there is read into, so that nothing is copied.
fn fetch_to<R: Reader>(reader: &mut R, key: u64, place: &mut Result<Value, Refusal>)
    ensures does { FetchDoes R.layout key (R.caller reader.old) place.new (R.caller reader.new) }
    ensures remains { Remains R.layout (R.caller reader.old) (R.caller reader.new) }
{
    match place {
        Ok(value) => {
            if let Err(refusal) = reader.look_into(key, value) {
                *place = Err(refusal);
            }
        }
        Err(_) => *place = fetch(reader, key),
    }
}

/// Fetches each key, in order, and writes what each fetch returned to its place in the results. A refused fetch stops
/// nothing. No hold is left behind. A value that is in the results before is read into, so that it is copied nowhere.
pub fn fetch_each<R: Reader>(reader: &mut R, keys: &[u64], results: &mut [Result<Value, Refusal>])
    requires { length results.old ≡ length keys.now }
    ensures does { FetchesEach R.layout keys.now (R.caller reader.old) results.new (R.caller reader.new) }
    ensures remains { RemainsAfter R.layout keys.now (R.caller reader.old) (R.caller reader.new) }
{
    for (at, key) in keys.iter().enumerate() {
        if at % BLOCK == 0 {
            warm_values(reader, &keys[at..]);
        }
        fetch_to(reader, *key, &mut results[at]);
    }
}
