//! A shard that is filled, and what comes back to it.
use super::steps::{ended, stopped_at};
use super::*;
use sh_key::Tiny;
use sh_step::Action;

// Fills a shard of one segment with values of 16 words.
pub(super) fn fill(rt: &impl Abort, shard: &mut Shard<'_, Tiny>) {
    put_in_pages(rt, shard, 4_096, 8);
    put_sixteen(rt, shard, Err(Refusal::Full));
}

#[test]
fn what_another_removes_in_eight_steps_is_used_again(rt: HostRuntime) {
    let (heap, seats) = opened::<Tiny>(&rt, rt.alloc(), 1, 1, 2);
    let (mut shard, other) = owner_and_other(&rt, rt.alloc(), &heap, seats);
    fill(&rt, &mut shard);
    let mut busy = stopped_at(&rt, other, 4_097, 8);
    agree(&rt, busy.act(&Action::RingTie), false);
    let _other = ended(&rt, busy);
    put_sixteen(&rt, &mut shard, Ok(8_193));
}
