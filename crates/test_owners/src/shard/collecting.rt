//! What collecting does for values of another length.
ghost use Rattle.std.specs.Prelude.{◌<◌};

use super::*;
use sh_key::Tiny;

// The n-th key of a fresh shard of one-word values: 48 slots of each page, in generation 1.
fn nth_key(n: u64) -> u64
    requires { n < 384 }
{
    4_096 + n / 48 * 64 + n % 48
}

// Fills the 8 pages of a segment with values of one word.
fn fill_with_words(rt: &impl Abort, shard: &mut Shard<'_, Tiny>) {
    let one = value(rt, &[7]);
    for n in 0..384 {
        agree(rt, shard.insert(&one), Ok(nth_key(n)));
    }
    agree(rt, shard.insert(&one), Err(Refusal::Full));
}

// Another pass removes them all.
fn remove_words(rt: &impl Abort, other: &mut Pass<'_, Tiny>) {
    for n in 0..384 {
        done(rt, other.remove(nth_key(n)));
    }
}

// The slots that another pass freed are on the stacks of pages of another class, which an insert does not look at.
#[test]
fn collected_pages_take_values_of_another_length(rt: HostRuntime) {
    let (heap, seats) = opened::<Tiny>(&rt, rt.alloc(), 1, 1, 2);
    let (mut shard, mut other) = owner_and_other(&rt, rt.alloc(), &heap, seats);
    fill_with_words(&rt, &mut shard);
    remove_words(&rt, &mut other);
    put_sixteen(&rt, &mut shard, Err(Refusal::Full));
    shard.collect();
    put_sixteen(&rt, &mut shard, Ok(8_192));
    let _one = left(&rt, shard);
}

// Collecting a shard in which nothing was freed changes nothing: the next key is the same.
#[test]
fn collecting_nothing_changes_nothing(rt: HostRuntime) {
    let (heap, seats) = opened::<Tiny>(&rt, rt.alloc(), 1, 1, 2);
    let (mut shard, _other) = owner_and_other(&rt, rt.alloc(), &heap, seats);
    put_sixteen(&rt, &mut shard, Ok(4_096));
    shard.collect();
    put_sixteen(&rt, &mut shard, Ok(4_097));
    let _one = left(&rt, shard);
}
