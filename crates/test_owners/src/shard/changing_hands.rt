//! Shards that are left and adopted, and pages that are prepared.
use super::steps::{ended, stopped_at};
use super::*;
use sh_key::Tiny;
use sh_step::Action;

#[test]
fn shards_change_hands(rt: HostRuntime) {
    let (heap, seats) = opened::<Tiny>(&rt, rt.alloc(), 1, 1, 2);
    let (mut shard, other) = owner_and_other(&rt, rt.alloc(), &heap, seats);
    agree(&rt, prepared(&mut shard, 7), Ok(0));
    agree(&rt, prepared(&mut shard, 0), Ok(1));
    let other = not_adopted(&rt, rt.alloc(), other, 0, Refusal::Taken);
    let other = not_adopted(&rt, rt.alloc(), other, 4, Refusal::NoShard);
    let one = left(&rt, shard);
    let mut shard = adopted(&rt, rt.alloc(), other, 0);
    agree(&rt, prepared(&mut shard, 7), Ok(2));
    let other = left(&rt, shard);
    agree(&rt, (one.is_whole(), other.is_whole()), (false, false));
}

#[test]
fn a_shard_has_eight_pages_to_prepare(rt: HostRuntime) {
    let (heap, seats) = opened::<Tiny>(&rt, rt.alloc(), 1, 1, 1);
    let mut shard = owner(&rt, rt.alloc(), &heap, seats);
    for page in 0..8u32 {
        agree(&rt, prepared(&mut shard, 3), Ok(page));
    }
    agree(&rt, prepared(&mut shard, 3), Err(Refusal::Full));
}

// Leaving waits for another pass that put a slot and has yet to tie it.
#[test]
fn leave_waits_for_a_tie(rt: HostRuntime) {
    let (heap, seats) = opened::<Tiny>(&rt, rt.alloc(), 1, 1, 2);
    let (mut shard, other) = owner_and_other(&rt, rt.alloc(), &heap, seats);
    put_each(&rt, &mut shard, &[4_096, 4_097, 4_098]);
    let mut busy = stopped_at(&rt, other, 4_096, 5);
    put_sixteen(&rt, &mut shard, Ok(4_160));
    let shard = not_left(&rt, shard);
    agree(&rt, busy.act(&Action::Tie), true);
    let _one = left(&rt, shard);
    let mut shard = adopted(&rt, rt.alloc(), ended(&rt, busy), 0);
    put_sixteen(&rt, &mut shard, Ok(8_192));
}
