//! Callers that stop in the middle of a removal, and what the owner can do then.
use super::filling::fill;
use super::steps::{act_each, ended, stopped_at};
use super::*;
use sh_key::Tiny;
use sh_pass::Busy;
use sh_step::Action;

// Inserts until the shard is full, and returns the number of inserts that succeeded.
fn put_until_full(rt: &impl Abort, shard: &mut Shard<'_, Tiny>) -> u32 {
    for count in 0..25u32 {
        if let Err(why) = put(shard, &sixteen(rt)) {
            agree(rt, why, Refusal::Full);
            return count;
        }
    }
    25
}

// Leaves, or returns the shard if leaving waits.
fn waits<'a>(rt: &impl Abort, shard: Shard<'a, Tiny>) -> Option<Shard<'a, Tiny>> {
    match shard.leave() {
        Ok(_) => None,
        Err((shard, why)) => {
            agree(rt, why, Refusal::Waiting);
            Some(shard)
        }
    }
}

// Another pass stops after this many steps of a removal from a page that is not armed.
fn stopped_unarmed(rt: &impl Abort, alloc: Global, steps: usize, more: u32, waiting: bool) {
    let (heap, seats) = opened::<Tiny>(rt, alloc, 1, 1, 2);
    let (mut shard, other) = owner_and_other(rt, alloc, &heap, seats);
    put_each(rt, &mut shard, &[4_096, 4_097, 4_098]);
    let _busy = stopped_at(rt, other, 4_096, steps);
    let found = put_until_full(rt, &mut shard);
    agree(rt, (found, waits(rt, shard).is_some()), (more, waiting));
}

#[test]
fn a_caller_stops_at_a_page_that_is_not_armed(rt: HostRuntime) {
    for steps in 0..5usize {
        stopped_unarmed(&rt, rt.alloc(), steps, 21, false);
    }
    stopped_unarmed(&rt, rt.alloc(), 5, 21, true);
    stopped_unarmed(&rt, rt.alloc(), 6, 22, false);
}

// Another pass stops after this many steps of a removal from a shard that is full. Returns the result of an insert
// then, and that of a second insert if leaving waits.
fn stopped_armed(
    rt: &impl Abort,
    alloc: Global,
    steps: usize,
) -> (Result<u64, Refusal>, Option<Result<u64, Refusal>>) {
    let (heap, seats) = opened::<Tiny>(rt, alloc, 1, 1, 2);
    let (mut shard, other) = owner_and_other(rt, alloc, &heap, seats);
    fill(rt, &mut shard);
    let _busy = stopped_at(rt, other, 4_096, steps);
    let first = put(&mut shard, &sixteen(rt));
    match waits(rt, shard) {
        None => (first, None),
        Some(mut shard) => (first, Some(put(&mut shard, &sixteen(rt)))),
    }
}

#[test]
fn a_caller_stops_at_a_page_that_is_armed(rt: HostRuntime) {
    let full = Err(Refusal::Full);
    for steps in 0..5usize {
        agree(&rt, stopped_armed(&rt, rt.alloc(), steps), (full, None));
    }
    agree(&rt, stopped_armed(&rt, rt.alloc(), 5), (full, Some(full)));
    agree(
        &rt,
        stopped_armed(&rt, rt.alloc(), 6),
        (full, Some(Ok(8_192))),
    );
    agree(
        &rt,
        stopped_armed(&rt, rt.alloc(), 7),
        (full, Some(Ok(8_192))),
    );
    agree(&rt, stopped_armed(&rt, rt.alloc(), 8), (Ok(8_192), None));
}

// A page with a slot that its owner freed is in the queue of its class and is still armed. A search takes its stack, so
// the owner finds what another pass put there before that pass rings.
#[test]
fn an_armed_page_in_the_queue_of_its_class_is_taken(rt: HostRuntime) {
    let (heap, seats) = opened::<Tiny>(&rt, rt.alloc(), 1, 1, 2);
    let (mut shard, other) = owner_and_other(&rt, rt.alloc(), &heap, seats);
    fill(&rt, &mut shard);
    done(&rt, shard.remove(4_096));
    put_sixteen(&rt, &mut shard, Ok(8_192));
    let _busy = stopped_at(&rt, other, 4_097, 6);
    put_sixteen(&rt, &mut shard, Ok(8_193));
}

// The pass continues its removal, and finishes it. The page is not armed, so it rings nobody.
fn finish(rt: &impl Abort, busy: &mut Busy<'_, Tiny>) {
    let actions = [
        Action::Mark,
        Action::Drop,
        Action::Finish,
        Action::Put,
        Action::Tie,
    ];
    act_each(rt, busy, &actions);
    agree(rt, busy.act(&Action::Ring), false);
}

// Another pass enters the slot of a key, the owner removes the key, and the other pass continues.
fn both_remove(rt: &impl Abort, shard: &mut Shard<'_, Tiny>, busy: &mut Busy<'_, Tiny>) {
    act_each(rt, busy, &[Action::EnterRemove(4_096)]);
    done(rt, shard.remove(4_096));
    agree(rt, shard.remove(4_096), Err(Refusal::Gone));
    finish(rt, busy);
}

// Two passes remove a key at the same time. Both enter its slot, and the owner marks it first. The other pass, which
// marks it too, is the one that finishes it.
#[test]
fn of_two_removers_the_last_one_finishes(rt: HostRuntime) {
    let (heap, seats) = opened::<Tiny>(&rt, rt.alloc(), 1, 1, 2);
    let (mut shard, other) = owner_and_other(&rt, rt.alloc(), &heap, seats);
    put_sixteen(&rt, &mut shard, Ok(4_096));
    let mut busy = other.begin();
    both_remove(&rt, &mut shard, &mut busy);
    let mut other = ended(&rt, busy);
    agree(&rt, other.get(4_096), Err(Refusal::Gone));
    agree(&rt, other.remove(4_096), Err(Refusal::Gone));
}
