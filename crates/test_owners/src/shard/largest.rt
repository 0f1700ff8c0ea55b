//! The largest shard, each page of which is used.
use super::*;
use sh_key::Wide;

// The test opens 128 segments, one after the other, and each of 1,024 pages has three values of 16 words. The first
// keys of two pages are 64 apart.
#[test]
fn the_largest_shard_is_filled(rt: HostRuntime) {
    let (heap, seats) = opened::<Wide>(&rt, rt.alloc(), 1, 128, 1);
    let mut shard = owner(&rt, rt.alloc(), &heap, seats);
    put_in_pages(&rt, &mut shard, 16_777_216, 1_024);
    put_sixteen(&rt, &mut shard, Err(Refusal::Full));
    let _pass = left(&rt, shard);
}
