//! Refused memory: what holds after it, and that the same call with memory then succeeds.
use super::*;
use sh_key::Tiny;

// The shard, and how often memory was refused before it. After a refusal nobody owns the shard, and the pass is
// returned.
fn adopted_at_last<'a>(
    rt: &impl Abort,
    alloc: Global,
    pass: Pass<'a, Tiny>,
) -> (Shard<'a, Tiny>, u32) {
    match Shard::adopt(alloc, pass, 0) {
        Ok(shard) => (shard, 0),
        Err((mut pass, why)) => {
            agree(rt, why, Refusal::Memory);
            agree(rt, pass.get(12_288), Err(Refusal::Gone));
            (adopted(rt, alloc, pass, 0), 1)
        }
    }
}

// A shard whose adoption was refused may be adopted by another pass, and by the same pass.
#[test]
fn an_adoption_refused_for_memory_leaves_the_shard(rt: HostRuntime) {
    let (heap, seats) = opened::<Tiny>(&rt, rt.alloc(), 1, 1, 2);
    let (one, other) = two_passes(&rt, rt.alloc(), &heap, seats);
    let (mut shard, first) = adopted_at_last(&rt, rt.alloc(), one);
    put_sixteen(&rt, &mut shard, Ok(4_096));
    let _one = left(&rt, shard);
    let (mut shard, second) = adopted_at_last(&rt, rt.alloc(), other);
    agree(&rt, first.min(second), 0);
    put_sixteen(&rt, &mut shard, Ok(4_098));
}

// Inserts the words under this key, and another pass finds them. Returns how often memory was refused before; each time
// the other pass found nothing.
fn inserted_at_last(
    rt: &impl Abort,
    shard: &mut Shard<'_, Tiny>,
    other: &mut Pass<'_, Tiny>,
    words: &Value,
    key: u64,
) -> u32 {
    let refused = match shard.insert(words) {
        Err(Refusal::Memory) => {
            agree(rt, other.get(key), Err(Refusal::Gone));
            agree(rt, shard.insert(words), Ok(key));
            1
        }
        answer => {
            agree(rt, answer, Ok(key));
            0
        }
    };
    let hold = other.get(key).expect(rt, "a hold");
    has_words(rt, other.read(hold), &SIXTEEN);
    refused
}

// Fills what is left of a segment after one insert.
fn insert_more(rt: &impl Abort, shard: &mut Shard<'_, Tiny>, words: &Value) {
    for _ in 0..23 {
        agree(rt, shard.insert(words).is_ok(), true);
    }
}

// If a segment is refused, an insert changes nothing, and the same insert with memory returns the first key of the
// segment. Another pass then adopts both segments.
#[test]
fn an_insert_refused_for_memory_changes_nothing(rt: HostRuntime) {
    let (heap, seats) = opened::<Tiny>(&rt, rt.alloc(), 1, 2, 2);
    let (mut shard, mut other) = owner_and_other(&rt, rt.alloc(), &heap, seats);
    let words = sixteen(&rt);
    let first = inserted_at_last(&rt, &mut shard, &mut other, &words, 4_096);
    insert_more(&rt, &mut shard, &words);
    let second = inserted_at_last(&rt, &mut shard, &mut other, &words, 4_608);
    agree(&rt, first.min(second), 0);
    let _one = left(&rt, shard);
    let (mut shard, _) = adopted_at_last(&rt, rt.alloc(), other);
    agree(&rt, shard.insert(&words), Ok(4_610));
}

#[test]
fn a_page_refused_for_memory_is_not_prepared(rt: HostRuntime) {
    let (heap, seats) = opened::<Tiny>(&rt, rt.alloc(), 1, 2, 1);
    let mut shard = owner(&rt, rt.alloc(), &heap, seats);
    for wanted in 0..16u32 {
        agree(&rt, prepared(&mut shard, 3), Ok(wanted));
    }
    agree(&rt, shard.prepare(3), Err(Refusal::Full));
}
