//! Calls on shards that no script of mode heap shows: guards, pages that are prepared or collected, what a stopped
//! caller leaves behind, and what holds after refused memory. `examples/worked` has the other calls.
ghost use Rattle.std.specs.Prelude.{◌≡◌, ◌<◌};

mod changing_hands;
mod collecting;
mod filling;
mod guards;
mod largest;
mod memory;
mod records;
mod steps;
mod stopped;
mod store;
mod threads;
mod words;

use sh_key::KeyLayout;
use sh_pass::{Heap, Pass, Seats};
use sh_shape::Shape;
use sh_shard::Shard;
use sh_value::{Refusal, Value};
use std::alloc::Global;
use std::fmt::Debug;
use std::process::Abort;

// The words 1 to 16. A page has three values of 16 words.
const SIXTEEN: [u64; 16] = [1, 2, 3, 4, 5, 6, 7, 8, 9, 10, 11, 12, 13, 14, 15, 16];

// Fails unless the two are equal. It is a function because each assertion that is written out is proved anew.
fn agree<T: PartialEq + Debug + Drop>(rt: &impl Abort, found: T, wanted: T) {
    assert_eq!(rt; found, wanted);
}

// Fails if a call that returns nothing was refused.
fn done(rt: &impl Abort, answer: Result<(), Refusal>) {
    agree(rt, answer, Ok(()));
}

// Fails unless a read returned a value of these words.
fn has_words(rt: &impl Abort, read: Result<Value, Refusal>, words: &[u64]) {
    agree(rt, read, Ok(value(rt, words)));
}

// A heap with this many shards, segments of a shard and passes, asked for once more if memory was refused.
fn opened<L: KeyLayout>(
    rt: &impl Abort,
    alloc: Global,
    shards: u32,
    segments: u32,
    passes: u32,
) -> (Heap<L>, Seats<L>)
    ensures seats { result.1 ≡ result.0 }
    ensures shape { result.0.shape ≡ record { shards = shards; segments = segments; passes = passes } }
{
    let shape = Shape::new(shards, segments, passes).expect(rt, "a shape");
    match Heap::<L>::open(alloc, shape) {
        Ok(both) => both,
        Err(why) => {
            agree(rt, why, Refusal::Memory);
            let shape = Shape::new(shards, segments, passes).expect(rt, "a shape");
            Heap::<L>::open(alloc, shape).expect(rt, "a heap")
        }
    }
}

// Its passes, asked for once more if memory was refused.
fn dealt<'a, L: KeyLayout>(
    rt: &impl Abort,
    alloc: Global,
    heap: &'a Heap<L>,
    seats: Seats<L>,
) -> Vec<Pass<'a, L>>
    requires { seats ≡ heap.now }
{
    match heap.passes(alloc, seats) {
        Ok(passes) => passes,
        Err((seats, why)) => {
            agree(rt, why, Refusal::Memory);
            let Ok(passes) = heap.passes(alloc, seats) else {
                panic!(rt; "no passes")
            };
            passes
        }
    }
}

fn one_pass<'a, L: KeyLayout>(
    rt: &impl Abort,
    alloc: Global,
    heap: &'a Heap<L>,
    seats: Seats<L>,
) -> Pass<'a, L>
    requires { seats ≡ heap.now }
{
    let mut passes = dealt(rt, alloc, heap, seats);
    let Some(pass) = passes.pop() else {
        panic!(rt; "no pass")
    };
    pass
}

// Passes 0 and 1.
fn two_passes<'a, L: KeyLayout>(
    rt: &impl Abort,
    alloc: Global,
    heap: &'a Heap<L>,
    seats: Seats<L>,
) -> (Pass<'a, L>, Pass<'a, L>)
    requires { seats ≡ heap.now }
{
    let mut passes = dealt(rt, alloc, heap, seats);
    let (Some(other), Some(one)) = (passes.pop(), passes.pop()) else {
        panic!(rt; "not two passes")
    };
    (one, other)
}

// Shard n, asked for once more if memory was refused.
fn adopted<'a, L: KeyLayout>(
    rt: &impl Abort,
    alloc: Global,
    pass: Pass<'a, L>,
    n: u64,
) -> Shard<'a, L> {
    match Shard::adopt(alloc, pass, n) {
        Ok(shard) => shard,
        Err((pass, why)) => {
            agree(rt, why, Refusal::Memory);
            let Ok(shard) = Shard::adopt(alloc, pass, n) else {
                panic!(rt; "no shard")
            };
            shard
        }
    }
}

// The owner of shard 0 of a heap with one pass.
fn owner<'a, L: KeyLayout>(
    rt: &impl Abort,
    alloc: Global,
    heap: &'a Heap<L>,
    seats: Seats<L>,
) -> Shard<'a, L>
    requires { seats ≡ heap.now }
{
    adopted(rt, alloc, one_pass(rt, alloc, heap, seats), 0)
}

// The owner of shard 0, and another pass.
fn owner_and_other<'a, L: KeyLayout>(
    rt: &impl Abort,
    alloc: Global,
    heap: &'a Heap<L>,
    seats: Seats<L>,
) -> (Shard<'a, L>, Pass<'a, L>)
    requires { seats ≡ heap.now }
{
    let (one, other) = two_passes(rt, alloc, heap, seats);
    (adopted(rt, alloc, one, 0), other)
}

// The pass, which got no shard for this reason.
fn not_adopted<'a, L: KeyLayout>(
    rt: &impl Abort,
    alloc: Global,
    pass: Pass<'a, L>,
    n: u64,
    wanted: Refusal,
) -> Pass<'a, L> {
    let Err((pass, why)) = Shard::adopt(alloc, pass, n) else {
        panic!(rt; "a shard")
    };
    agree(rt, why, wanted);
    pass
}

fn left<'a, L: KeyLayout>(rt: &impl Abort, shard: Shard<'a, L>) -> Pass<'a, L> {
    let Ok(pass) = shard.leave() else {
        panic!(rt; "it waits")
    };
    pass
}

// The shard, since leaving it waits.
fn not_left<'a, L: KeyLayout>(rt: &impl Abort, shard: Shard<'a, L>) -> Shard<'a, L> {
    let Err((shard, why)) = shard.leave() else {
        panic!(rt; "it is left")
    };
    agree(rt, why, Refusal::Waiting);
    shard
}

fn value(rt: &impl Abort, words: &[u64]) -> Value {
    Value::new(words).expect(rt, "few words")
}

fn sixteen(rt: &impl Abort) -> Value {
    value(rt, &SIXTEEN)
}

// An insert, once more if memory was refused.
fn put<L: KeyLayout>(shard: &mut Shard<'_, L>, value: &Value) -> Result<u64, Refusal> {
    match shard.insert(value) {
        Err(Refusal::Memory) => shard.insert(value),
        answer => answer,
    }
}

// An insert of these words has this result.
fn put_words<L: KeyLayout>(
    rt: &impl Abort,
    shard: &mut Shard<'_, L>,
    words: &[u64],
    answer: Result<u64, Refusal>,
) {
    agree(rt, put(shard, &value(rt, words)), answer);
}

// An insert of sixteen words has this result.
fn put_sixteen<L: KeyLayout>(
    rt: &impl Abort,
    shard: &mut Shard<'_, L>,
    answer: Result<u64, Refusal>,
) {
    put_words(rt, shard, &SIXTEEN, answer);
}

// Inserts of sixteen words each return these keys, in this order.
fn put_each<L: KeyLayout>(rt: &impl Abort, shard: &mut Shard<'_, L>, keys: &[u64]) {
    for key in keys {
        put_sixteen(rt, shard, Ok(*key));
    }
}

// Inserts of sixteen words each fill this many pages, three to a page. The first keys of two pages are 64 apart.
fn put_in_pages<L: KeyLayout>(rt: &impl Abort, shard: &mut Shard<'_, L>, first: u64, pages: u32) {
    let mut key = first;
    for _ in 0..pages {
        for slot in 0..3u64 {
            put_sixteen(rt, shard, Ok(key.wrapping_add(slot)));
        }
        key = key.wrapping_add(64);
    }
}

// Prepares a page, once more if memory was refused.
fn prepared<L: KeyLayout>(shard: &mut Shard<'_, L>, class: u32) -> Result<u32, Refusal>
    requires { class < 8 }
{
    match shard.prepare(class) {
        Err(Refusal::Memory) => shard.prepare(class),
        answer => answer,
    }
}
