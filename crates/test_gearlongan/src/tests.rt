//! Tests of the calls that a reader of the library's front page would try first.
ghost use Rattle.std.specs.Prelude.{◌≡◌};

mod filling;
mod gathering;
mod growing;
mod hearing;
mod owning;
mod reading;
mod shaping;
mod stepping;
mod storing;
mod walking;
mod working;

use gearlongan::{Heap, Pass, Refusal, Seats, Shape, Shard, Wide};
use std::alloc::Global;
use std::fmt::Debug;
use std::process::Abort;

// The key of the first value of a heap of layout `Wide`: generation 1 of slot 0 of page 0 of shard 0.
const FIRST_KEY: u64 = 16_777_216;

// Asserts that two values are equal. It is a function, since each assertion in the text is proved anew.
fn agree<T: PartialEq + Debug + Drop>(rt: &impl Abort, found: T, wanted: T) {
    assert_eq!(rt; found, wanted);
}

// A heap of one shard of one segment, with `passes` passes.
fn opened(rt: &impl Abort, alloc: Global, passes: u32) -> (Heap<Wide>, Seats<Wide>)
    ensures { result.1 ≡ result.0 }
{
    let shape = Shape::new(1, 1, passes).expect(rt, "a shape");
    Heap::<Wide>::open(alloc, shape).expect(rt, "a heap")
}

// The owner of its shard, and a pass that looks up values.
fn owner_and_reader<'a>(
    rt: &impl Abort,
    alloc: Global,
    heap: &'a Heap<Wide>,
    seats: Seats<Wide>,
) -> (Shard<'a, Wide>, Pass<'a, Wide>)
    requires { seats ≡ heap.now }
    ensures owner { result.0.pages.owner.heap ≡ heap.now }
    ensures reader { result.1.heap ≡ heap.now }
{
    let Ok(passes) = heap.passes(alloc, seats) else {
        panic!(rt; "no passes")
    };
    let mut passes = passes.into_iter();
    let (Some(pass), Some(reader)) = (passes.next(), passes.next()) else {
        panic!(rt; "not two passes")
    };
    let Ok(owner) = Shard::adopt(alloc, pass, 0) else {
        panic!(rt; "no shard")
    };
    (owner, reader)
}

// The pass of an owner that left its shard.
fn left<'a>(rt: &impl Abort, owner: Shard<'a, Wide>) -> Pass<'a, Wide>
    ensures { result.heap ≡ owner.entry.pages.owner.heap }
{
    let Ok(pass) = owner.leave() else {
        panic!(rt; "the owner has to wait")
    };
    pass
}

// The owner of the shard.
fn adopted<'a>(rt: &impl Abort, alloc: Global, pass: Pass<'a, Wide>) -> Shard<'a, Wide> {
    let Ok(owner) = Shard::adopt(alloc, pass, 0) else {
        panic!(rt; "no shard")
    };
    owner
}

// Tells a story of an owner and of a pass that looks up values, on a new heap. It is a function that takes the story,
// since what opens the heap would be proved anew in each test.
fn on_a_heap<R: Abort, F: FnOnce(&R, &mut Shard<'_, Wide>, &mut Pass<'_, Wide>)>(
    rt: &R,
    alloc: Global,
    story: F,
)
    requires { F.IsAlwaysCallable story }
{
    let (heap, seats) = opened(rt, alloc, 2);
    let (mut owner, mut reader) = owner_and_reader(rt, alloc, &heap, seats);
    story(rt, &mut owner, &mut reader);
}
