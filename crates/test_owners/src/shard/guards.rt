//! Holds that keep their place, and reads into a value of the caller's.
use super::*;
use sh_key::Tiny;
use sh_pass::{Guard, Pass};
use sh_value::Hold;

// The guard that was taken.
fn guarded(rt: &impl Abort, taken: Result<Guard<Tiny>, Refusal>) -> Guard<Tiny> {
    match taken {
        Ok(guard) => guard,
        Err(_) => panic!(rt; "no hold"),
    }
}

// A read by the guard into a value that has other words replaces them by these.
fn read_by(rt: &impl Abort, pass: &mut Pass<'_, Tiny>, guard: &Guard<Tiny>, words: &[u64]) {
    let mut into = value(rt, &[1, 1, 1]);
    done(rt, pass.read_guard(guard, &mut into));
    agree(rt, into.words(), words);
}

// A read by the guard into a value is refused, and the value stays.
fn not_read_by(rt: &impl Abort, pass: &mut Pass<'_, Tiny>, guard: &Guard<Tiny>) {
    let mut into = value(rt, &[5]);
    agree(rt, pass.read_guard(guard, &mut into), Err(Refusal::NotHeld));
    agree(rt, into.words(), [5].as_slice());
}

// Another pass reads by a guard on the key before and after its removal, and releases it.
fn read_and_release(rt: &impl Abort, shard: &mut Shard<'_, Tiny>, other: &mut Pass<'_, Tiny>) {
    let guard = guarded(rt, other.get_guard(4_096));
    agree(rt, guard.key(), 4_096);
    read_by(rt, other, &guard, &[7, 8]);
    done(rt, shard.remove(4_096));
    read_by(rt, other, &guard, &[7, 8]);
    agree(rt, other.get_guard(4_096).is_err(), true);
    done(rt, other.release_guard(guard));
}

// A guard reads the value of its key, also once the key is removed, and is released once.
#[test]
fn a_guard_reads_and_is_released(rt: HostRuntime) {
    let (heap, seats) = opened::<Tiny>(&rt, rt.alloc(), 1, 1, 2);
    let (mut shard, mut other) = owner_and_other(&rt, rt.alloc(), &heap, seats);
    put_words(&rt, &mut shard, &[7, 8], Ok(4_096));
    read_and_release(&rt, &mut shard, &mut other);
    agree(
        &rt,
        other.release(Hold { key: 4_096 }),
        Err(Refusal::NotHeld),
    );
}

// The owner reads by its guard, and by the hold of the guard, into this value, and releases it.
fn owner_reads_by(
    rt: &impl Abort,
    shard: &mut Shard<'_, Tiny>,
    guard: Guard<Tiny>,
    into: &mut Value,
) {
    done(rt, shard.read_guard(&guard, into));
    agree(rt, into.words(), [9].as_slice());
    done(rt, shard.read_into(guard.hold(), into));
    agree(rt, into.words(), [9].as_slice());
    done(rt, shard.release_guard(guard));
}

// The owner's guards are those of its pass.
#[test]
fn an_owner_reads_by_a_guard(rt: HostRuntime) {
    let (heap, seats) = opened::<Tiny>(&rt, rt.alloc(), 1, 1, 1);
    let mut shard = owner(&rt, rt.alloc(), &heap, seats);
    put_words(&rt, &mut shard, &[9], Ok(4_096));
    let guard = guarded(&rt, shard.get_guard(4_096));
    let mut into = value(&rt, &[1, 2]);
    owner_reads_by(&rt, &mut shard, guard, &mut into);
    let refused = shard.read_into(Hold { key: 4_096 }, &mut into);
    agree(&rt, refused, Err(Refusal::NotHeld));
    agree(&rt, into.words(), [9].as_slice());
}

// Another pass takes a guard on the key, and gives its hold back by a plain release.
fn release_plainly(rt: &impl Abort, other: &mut Pass<'_, Tiny>) {
    let guard = guarded(rt, other.get_guard(4_096));
    done(rt, other.release(guard.hold()));
    not_read_by(rt, other, &guard);
    agree(rt, other.release_guard(guard), Err(Refusal::NotHeld));
}

// A plain release gives back the hold of a guard, which then reads nothing: the caller's value stays.
#[test]
fn both_kinds_are_one_hold(rt: HostRuntime) {
    let (heap, seats) = opened::<Tiny>(&rt, rt.alloc(), 1, 1, 2);
    let (mut shard, mut other) = owner_and_other(&rt, rt.alloc(), &heap, seats);
    put_words(&rt, &mut shard, &[7], Ok(4_096));
    release_plainly(&rt, &mut other);
}

// A guard on key 5,120 of a heap of two shards of one segment, which stores the word 7 there.
fn guard_elsewhere(rt: &impl Abort, alloc: Global) -> Guard<Tiny> {
    let (heap, seats) = opened::<Tiny>(rt, alloc, 2, 1, 1);
    let mut shard = adopted(rt, alloc, one_pass(rt, alloc, &heap, seats), 1);
    put_words(rt, &mut shard, &[7], Ok(5_120));
    guarded(rt, shard.get_guard(5_120))
}

// The guard reads nothing before the pass holds its key, and afterwards reads the value of the key in this heap.
fn hold_and_read(rt: &impl Abort, other: &mut Pass<'_, Tiny>, guard: Guard<Tiny>) {
    not_read_by(rt, other, &guard);
    agree(rt, other.get(5_120), Ok(Hold { key: 5_120 }));
    read_by(rt, other, &guard, &[8]);
    done(rt, other.release_guard(guard));
}

// In a heap of another shape a key is in another place: a guard from there does what its plain hold does here.
#[test]
fn a_guard_of_another_heap_is_its_key(rt: HostRuntime) {
    let guard = guard_elsewhere(&rt, rt.alloc());
    let (heap, seats) = opened::<Tiny>(&rt, rt.alloc(), 2, 2, 2);
    let (one, mut other) = two_passes(&rt, rt.alloc(), &heap, seats);
    let mut shard = adopted(&rt, rt.alloc(), one, 1);
    put_words(&rt, &mut shard, &[8], Ok(5_120));
    hold_and_read(&rt, &mut other, guard);
}
