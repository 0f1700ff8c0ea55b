//! Tests of heaps and passes: worked calls, looks, walks, steps by hand, threads, forged keys, and refused memory.
//!
//! What no clause says: that a heap opens, what a get of an unissued number returns, that passes step at the same time,
//! and which words are in the heap.
ghost use Rattle.std.specs.Prelude.{◌≡◌};

mod by_hand;
mod forged;
mod looking;
mod walking;
mod words;

use crate::assertions::agree;
use sh_key::{KeyLayout, Tiny, Wide};
use sh_pass::{Busy, Heap, Pass, Seats, merge};
use sh_shape::Shape;
use sh_step::Action;
use sh_value::{Hold, Refusal};
use std::alloc::Global;
use std::process::Abort;
use std::thread::join;

// A pass may cross threads.
fn crosses<T: Send>(value: T) -> T
    ensures { result ≡ value }
{
    value
}

fn opened<L: KeyLayout>(rt: &impl Abort, alloc: Global, passes: u32) -> (Heap<L>, Seats<L>)
    ensures { result.1 ≡ result.0 }
{
    let shape = Shape::new(1, 1, passes).expect(rt, "a shape");
    Heap::<L>::open(alloc, shape).expect(rt, "a heap")
}

// All passes of the heap.
fn dealt<'a, L: KeyLayout>(
    rt: &impl Abort,
    alloc: Global,
    heap: &'a Heap<L>,
    seats: Seats<L>,
) -> Vec<Pass<'a, L>>
    requires { seats ≡ heap.now }
{
    let Ok(passes) = heap.passes(alloc, seats) else {
        panic!(rt; "no passes")
    };
    passes
}

// The last of these passes.
fn last_of<'a, L: KeyLayout>(rt: &impl Abort, mut passes: Vec<Pass<'a, L>>) -> Pass<'a, L> {
    let Some(pass) = passes.pop() else {
        panic!(rt; "no pass")
    };
    pass
}

// The last pass of the heap.
fn one_pass<'a, L: KeyLayout>(
    rt: &impl Abort,
    alloc: Global,
    heap: &'a Heap<L>,
    seats: Seats<L>,
) -> Pass<'a, L>
    requires { seats ≡ heap.now }
{
    last_of(rt, dealt(rt, alloc, heap, seats))
}

// Passes 0 and 1.
fn two_passes<'a, L: KeyLayout>(
    rt: &impl Abort,
    alloc: Global,
    heap: &'a Heap<L>,
    seats: Seats<L>,
) -> (Pass<'a, L>, Pass<'a, L>)
    requires { seats ≡ heap.now }
{
    let mut passes = dealt(rt, alloc, heap, seats);
    let (Some(other), Some(one)) = (passes.pop(), passes.pop()) else {
        panic!(rt; "not two passes")
    };
    (one, other)
}

// The pass does each of these steps.
fn act_each(rt: &impl Abort, busy: &mut Busy<'_, Tiny>, actions: &[Action]) {
    for action in actions {
        agree(rt, busy.act(action), true);
    }
}

// The number of gets that return `Gone`, among `count` numbers from the first on.
fn gone_among<L: KeyLayout>(pass: &mut Pass<'_, L>, first: u64, count: u64) -> u32 {
    let mut gone = 0u32;
    for i in 0..count {
        if pass.get(first.wrapping_add(i)) == Err(Refusal::Gone) {
            gone = gone.saturating_add(1);
        }
    }
    gone
}

// Calls with numbers that were never issued.
fn never_issued(rt: &impl Abort, one: &mut Pass<'_, Tiny>) {
    agree(rt, one.get(0), Err(Refusal::BadKey));
    agree(rt, one.get(4_144), Err(Refusal::BadKey));
    agree(rt, one.get(12_288), Err(Refusal::Gone));
    agree(rt, one.remove(5_056), Err(Refusal::BadKey));
    agree(rt, one.remove(4_096), Err(Refusal::Gone));
    agree(rt, one.release(Hold { key: 4_096 }), Err(Refusal::NotHeld));
    agree(rt, one.read(Hold { key: 0 }).err(), Some(Refusal::NotHeld));
}

// The pass gets `Gone` for the first key, and knows the heap whole or not.
fn first_is_gone(rt: &impl Abort, mut pass: Pass<'_, Tiny>, is_whole: bool) {
    agree(rt, pass.get(4_096), Err(Refusal::Gone));
    agree(rt, pass.is_whole(), is_whole);
}

#[test]
fn what_was_never_issued_is_gone_and_not_held(rt: HostRuntime) {
    let (heap, seats) = opened::<Tiny>(&rt, rt.alloc(), 2);
    let mut one = one_pass(&rt, rt.alloc(), &heap, seats);
    never_issued(&rt, &mut one);
    first_is_gone(&rt, crosses(one), false);
}

#[test]
fn passes_that_met_know_the_heap_whole(rt: HostRuntime) {
    let (heap, seats) = opened::<Tiny>(&rt, rt.alloc(), 2);
    let Ok(mut passes) = heap.passes(rt.alloc(), seats) else {
        panic!(rt; "no passes")
    };
    let (Some(one), Some(other)) = (passes.pop(), passes.pop()) else {
        panic!(rt; "not two passes")
    };
    first_is_gone(&rt, merge(one, other), true);
}

// Gets all keys of a page over and over: each is gone, whatever the other thread does at the same time.
fn gone_in_turns(mut pass: Pass<'_, Tiny>) -> u32 {
    let mut all = 0u32;
    for _ in 0..200 {
        all = all.saturating_add(gone_among(&mut pass, 4_096, 48));
    }
    all
}

#[test]
fn two_threads_step_on_one_heap(rt: HostRuntime) {
    let (heap, seats) = opened::<Tiny>(&rt, rt.alloc(), 2);
    let (other, one) = two_passes(&rt, rt.alloc(), &heap, seats);
    let (seen, seen_too) = join(
        &rt,
        move || gone_in_turns(one),
        move || gone_in_turns(other),
    );
    agree(&rt, seen, 9_600);
    agree(&rt, seen_too, 9_600);
}

// A heap of two passes, opened by a second call if the first was refused memory.
fn opened_with_memory(rt: &impl Abort, alloc: Global) -> (Heap<Tiny>, Seats<Tiny>)
    ensures { result.1 ≡ result.0 }
{
    let shape = Shape::new(1, 1, 2).expect(rt, "a shape");
    match Heap::<Tiny>::open(alloc, shape) {
        Ok(both) => both,
        Err(why) => {
            agree(rt, why, Refusal::Memory);
            opened::<Tiny>(rt, alloc, 2)
        }
    }
}

// The last slot of the last page of the second shard is that of a key, and no slot comes after it.
fn ends_there(rt: &impl Abort, one: &mut Pass<'_, Wide>) {
    agree(rt, one.get(16_908_271), Err(Refusal::Gone));
    agree(rt, one.get(16_908_272), Err(Refusal::BadKey));
}

// 256 segments, of eight pages of 195 words each, and 64 passes.
#[test]
fn the_largest_heap_opens(rt: HostRuntime) {
    let shape = Shape::new(2, 128, 64).expect(&rt, "a shape");
    let (heap, seats) = Heap::<Wide>::open(rt.alloc(), shape).expect(&rt, "a heap");
    let passes = dealt(&rt, rt.alloc(), &heap, seats);
    agree(&rt, passes.len(), 64);
    let mut one = last_of(&rt, passes);
    ends_there(&rt, &mut one);
}

// The number that were dealt, 0 if they were refused.
fn how_many<T: Drop, E: Drop>(dealt: Result<Vec<T>, E>) -> usize {
    match dealt {
        Ok(all) => all.len(),
        Err(_) => 0,
    }
}

// Two passes are dealt, by a second call if the first was refused memory.
fn two_passes_come(rt: &impl Abort, alloc: Global, heap: &Heap<Tiny>, seats: Seats<Tiny>)
    requires { seats ≡ heap.now }
{
    match heap.passes(alloc, seats) {
        Ok(passes) => agree(rt, passes.len(), 2),
        Err((seats, why)) => {
            agree(rt, why, Refusal::Memory);
            agree(rt, how_many(heap.passes(alloc, seats)), 2);
        }
    }
}

// And two states.
fn two_states_come(rt: &impl Abort, alloc: Global, heap: &Heap<Tiny>, seats: Seats<Tiny>)
    requires { seats ≡ heap.now }
{
    match heap.states(alloc, seats) {
        Ok(states) => agree(rt, states.len(), 2),
        Err((seats, why)) => {
            agree(rt, why, Refusal::Memory);
            agree(rt, how_many(heap.states(alloc, seats)), 2);
        }
    }
}

// If memory is refused, nothing is opened, or the seats come back, and the same call then succeeds.
#[test]
fn refused_memory_gives_the_seats_back(rt: HostRuntime) {
    let (heap, seats) = opened_with_memory(&rt, rt.alloc());
    two_passes_come(&rt, rt.alloc(), &heap, seats);
    let (heap, seats) = opened_with_memory(&rt, rt.alloc());
    two_states_come(&rt, rt.alloc(), &heap, seats);
}
