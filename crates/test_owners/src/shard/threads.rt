//! An owner and another caller at the same time.
use super::*;
use sh_key::Wide;
use std::thread::join;

const BATCH: usize = 12;

// Stores a batch of values, of sixteen words that begin with these numbers, and returns their keys.
fn put_batch(rt: &impl Abort, shard: &mut Shard<'_, Wide>, round: u64) -> [u64; BATCH] {
    let mut keys = [0; BATCH];
    for i in 0..BATCH {
        let words = [
            round, i as u64, 3, 4, 5, 6, 7, 8, 9, 10, 11, 12, 13, 14, 15, 16,
        ];
        let key = put(shard, &value(rt, &words));
        assert!(rt; key.is_ok());
        if let Ok(key) = key {
            keys[i] = key;
        }
    }
    keys
}

// Gets, reads, removes and releases a key. Returns whether all of it went as it should.
fn use_up(pass: &mut Pass<'_, Wide>, key: u64, round: u64, i: u64) -> Result<bool, Refusal> {
    let hold = pass.get(key)?;
    let found = pass.read(hold)?;
    pass.remove(key)?;
    let gone = pass.get(key) == Err(Refusal::Gone);
    pass.release(hold)?;
    Ok(gone && found.words().starts_with(&[round, i, 3, 4]) && found.words().len() == 16)
}

// The number of keys that went as they should.
fn use_batch(pass: &mut Pass<'_, Wide>, keys: &[u64; BATCH], round: u64) -> u32 {
    let mut good = 0u32;
    for i in 0..BATCH {
        if use_up(pass, keys[i], round, i as u64) == Ok(true) {
            good = good.saturating_add(1);
        }
    }
    good
}

// Stores and removes values of the owner's own. Returns how many were stored and removed.
fn put_and_remove(shard: &mut Shard<'_, Wide>, value: &Value) -> u32 {
    let mut good = 0u32;
    for _ in 0..BATCH {
        if let Ok(key) = shard.insert(value) {
            if shard.remove(key) == Ok(()) {
                good = good.saturating_add(1);
            }
        }
    }
    good
}

// In each round the other pass removes what the owner stored, while the owner stores and removes more. All that was
// removed can be used in the next round, as the shard has room for exactly two batches.
#[test]
fn an_owner_and_another_step_at_the_same_time(rt: HostRuntime) {
    let (heap, seats) = opened::<Wide>(&rt, rt.alloc(), 1, 1, 2);
    let (mut shard, mut other) = owner_and_other(&rt, rt.alloc(), &heap, seats);
    for round in 0..50u64 {
        let keys = put_batch(&rt, &mut shard, round);
        let words = sixteen(&rt);
        let ((back, good), (back_too, good_too)) = join(
            &rt,
            move || {
                let good = put_and_remove(&mut shard, &words);
                (shard, good)
            },
            move || {
                let good = use_batch(&mut other, &keys, round);
                (other, good)
            },
        );
        shard = back;
        other = back_too;
        agree(&rt, (good, good_too), (12, 12));
    }
    let _one = left(&rt, shard);
}
