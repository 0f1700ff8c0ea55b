//! Runs all phases: fills a heap, reads it, empties it and fills it again.
ghost use Rattle.std.specs.Prelude.{◌≡◌, ◌≤◌, length, vec_len, IfOk};
ghost use Rattle.gearlongan.specs.Passes.{AreOf};
ghost use Rattle.tool_large.specs.Shares.{keys_of};
ghost use Rattle.tool_large.specs.Stories.{TellsOf};
ghost use Rattle.tool_large.specs.Workers.{StayAt, heap_of};

use crate::crew::{Crew, Four, four_done};
use crate::filling::Filled;
use crate::phases::{Plan, fill, read, remove};
use crate::story::Story;
use crate::worker::Worker;
use gearlongan::{Heap, KeyLayout, Pass, Refusal, Shape, gather, total};
use std::alloc::{AllocError, Global};
use std::thread::Threads;

// All keys, those of the first thread first.
fn all_keys(filled: Four<Filled>) -> Result<Vec<u64>, AllocError>
    ensures { IfOk result (λ keys. vec_len keys ≡ keys_of filled) }
{
    let Four {
        one,
        mut two,
        mut three,
        mut four,
    } = filled;
    let mut keys = one.keys;
    keys.append(&mut two.keys)?;
    keys.append(&mut three.keys)?;
    keys.append(&mut four.keys)?;
    Ok(keys)
}

fn shards_in(filled: &Four<Filled>) -> u64 {
    filled
        .one
        .shards
        .saturating_add(filled.two.shards)
        .saturating_add(filled.three.shards)
        .saturating_add(filled.four.shards)
}

// The result of inserting by one plan.
#[derive(Drop)]
struct Round {
    // The keys of all values.
    keys: Vec<u64>,
    // The number of shards that were filled, wholly or in part.
    shards: u64,
    // The number of values that were right when they were read.
    right: usize,
}

// Reads what was inserted.
fn read_round<'a, L: KeyLayout + Send + Sync, R: Threads + Sync>(
    rt: &R,
    crew: Crew<'a, L>,
    filled: Four<Filled>,
    plan: Plan,
) -> Result<(Crew<'a, L>, Round), Refusal>
    ensures stay { IfOk result (λ done. StayAt crew.entry done.0) }
    ensures keys { IfOk result (λ done. vec_len done.1.keys ≡ keys_of filled) }
    ensures most { IfOk result (λ done. done.1.right ≤ keys_of filled) }
{
    let shards = shards_in(&filled);
    let (crew, right) = read(rt, crew, &filled, plan)?;
    let keys = all_keys(filled)?;
    let round = Round {
        keys,
        shards,
        right,
    };
    Ok((crew, round))
}

// Inserts the values of the plan, and reads them.
fn first_round<'a, L: KeyLayout + Send + Sync, R: Threads + Sync>(
    rt: &R,
    alloc: Global,
    crew: Crew<'a, L>,
    plan: Plan,
) -> Result<(Crew<'a, L>, Round), Refusal>
    ensures stay { IfOk result (λ done. StayAt crew.entry done.0) }
    ensures keys { IfOk result (λ done. vec_len done.1.keys ≡ plan.values) }
    ensures most { IfOk result (λ done. done.1.right ≤ plan.values) }
{
    let (crew, filled) = fill(rt, alloc, crew, plan)?;
    read_round(rt, crew, filled, plan)
}

// Inserts the values of the plan in the place of others, tries to remove the old keys, and reads the new values.
// Returns also the number of old keys that found something.
fn second_round<'a, L: KeyLayout + Send + Sync, R: Threads + Sync>(
    rt: &R,
    alloc: Global,
    crew: Crew<'a, L>,
    plan: Plan,
    old: &[u64],
) -> Result<(Crew<'a, L>, Round, usize), Refusal>
    ensures stay { IfOk result (λ done. StayAt crew.entry done.0) }
    ensures keys { IfOk result (λ done. vec_len done.1.keys ≡ plan.values) }
    ensures most { IfOk result (λ done. done.1.right ≤ plan.values) }
    ensures stale { IfOk result (λ done. done.2 ≤ length old.now) }
{
    let (crew, filled) = fill(rt, alloc, crew, plan)?;
    let (crew, stale) = remove(rt, crew, old)?;
    let (crew, round) = read_round(rt, crew, filled, plan)?;
    Ok((crew, round, stale))
}

// Runs all phases. The story has no count of the values left yet.
fn worked<'a, L: KeyLayout + Send + Sync, R: Threads + Sync>(
    rt: &R,
    alloc: Global,
    crew: Crew<'a, L>,
    plan: Plan,
) -> Result<(Crew<'a, L>, Story), Refusal>
    ensures stay { IfOk result (λ done. StayAt crew.entry done.0) }
    ensures tells { IfOk result (λ done. TellsOf plan.values done.1) }
{
    let (crew, first) = first_round(rt, alloc, crew, plan)?;
    let (crew, removed) = remove(rt, crew, &first.keys)?;
    let more = Plan { round: 4, ..plan };
    let (crew, second, stale) = second_round(rt, alloc, crew, more, &first.keys)?;
    let story = Story {
        inserted: first.keys.len(),
        right: first.right,
        removed,
        again: second.keys.len(),
        shards: first.shards,
        shards_again: second.shards,
        stale,
        right_again: second.right,
        left: None,
    };
    Ok((crew, story))
}

// A worker with this pass, in the thread of this number.
fn worker_of<'a, L: KeyLayout>(
    alloc: Global,
    pass: Pass<'a, L>,
    plan: Plan,
    number: u64,
) -> Result<Worker<'a, L>, Refusal>
    ensures { IfOk result (λ worker. heap_of worker ≡ pass.entry.heap) }
{
    if plan.settles {
        Worker::settled(alloc, pass, number.wrapping_mul(plan.shards))
    } else {
        Ok(Worker::Roaming(pass))
    }
}

// Four passes of the heap.
fn four_passes<'a, L: KeyLayout>(
    heap: &'a Heap<L>,
    passes: Vec<Pass<'a, L>>,
) -> Result<Four<Pass<'a, L>>, Refusal>
    requires { AreOf heap.now passes.items }
    ensures one { IfOk result (λ passes. passes.one.heap ≡ heap.now) }
    ensures two { IfOk result (λ passes. passes.two.heap ≡ heap.now) }
    ensures three { IfOk result (λ passes. passes.three.heap ≡ heap.now) }
    ensures four { IfOk result (λ passes. passes.four.heap ≡ heap.now) }
{
    let mut passes = passes.into_iter();
    let (Some(one), Some(two)) = (passes.next(), passes.next()) else {
        return Err(Refusal::BadShape);
    };
    let (Some(three), Some(four)) = (passes.next(), passes.next()) else {
        return Err(Refusal::BadShape);
    };
    Ok(Four {
        one,
        two,
        three,
        four,
    })
}

// The workers with these passes.
fn crew_of<'a, L: KeyLayout>(
    alloc: Global,
    passes: Four<Pass<'a, L>>,
    plan: Plan,
) -> Result<Crew<'a, L>, Refusal>
    ensures one { IfOk result (λ crew. heap_of crew.one ≡ passes.entry.one.heap) }
    ensures two { IfOk result (λ crew. heap_of crew.two ≡ passes.entry.two.heap) }
    ensures three { IfOk result (λ crew. heap_of crew.three ≡ passes.entry.three.heap) }
    ensures four { IfOk result (λ crew. heap_of crew.four ≡ passes.entry.four.heap) }
{
    four_done(Four {
        one: worker_of(alloc, passes.one, plan, 0),
        two: worker_of(alloc, passes.two, plan, 1),
        three: worker_of(alloc, passes.three, plan, 2),
        four: worker_of(alloc, passes.four, plan, 3),
    })
}

// The number of values of the heap, or `None` if not all passes are joined.
fn counted<'a, L: KeyLayout>(
    alloc: Global,
    heap: &'a Heap<L>,
    crew: Crew<'a, L>,
) -> Result<Option<u32>, Refusal>
    requires one { heap_of crew.one ≡ heap.now }
    requires two { heap_of crew.two ≡ heap.now }
    requires three { heap_of crew.three ≡ heap.now }
    requires four { heap_of crew.four ≡ heap.now }
{
    let back = four_done(Four {
        one: crew.one.into_pass(),
        two: crew.two.into_pass(),
        three: crew.three.into_pass(),
        four: crew.four.into_pass(),
    })?;
    let mut passes = Vec::with_capacity(alloc, 4)?;
    passes.push_reserved(back.one);
    passes.push_reserved(back.two);
    passes.push_reserved(back.three);
    passes.push_reserved(back.four);
    match gather(heap, passes) {
        Ok(mut all) => Ok(Some(total(&mut all).live)),
        Err(_) => Ok(None),
    }
}

// Runs all phases on a heap, with all its passes, and joins the passes at the end.
fn told<'a, L: KeyLayout + Send + Sync, R: Threads + Sync>(
    rt: &R,
    alloc: Global,
    heap: &'a Heap<L>,
    passes: Vec<Pass<'a, L>>,
    plan: Plan,
) -> Result<Story, Refusal>
    requires { AreOf heap.now passes.items }
    ensures { IfOk result (λ story. TellsOf plan.values story) }
{
    let crew = crew_of(alloc, four_passes(heap, passes)?, plan)?;
    let (crew, story) = worked(rt, alloc, crew, plan)?;
    let left = counted(alloc, heap, crew)?;
    Ok(Story { left, ..story })
}

/// The smallest shape of the layout in which each of four threads has `shards` shards, and all together have room for
/// `values` values.
pub fn shape_for<L: KeyLayout>(shards: u32, values: usize) -> Result<Shape, Refusal> {
    let all = shards.saturating_mul(4);
    let each = (values as u64).div_ceil(u64::from(all.max(1)));
    Shape::with_room::<L>(all, each, 1, 4)
}

/// Fills a heap of this shape, reads it, empties it and fills it again. If `settles`, each thread keeps its shard.
pub fn run<L: KeyLayout + Send + Sync, R: Threads + Sync>(
    rt: &R,
    alloc: Global,
    shape: Shape,
    values: usize,
    settles: bool,
) -> Result<Story, Refusal>
    ensures { IfOk result (λ story. TellsOf values story) }
{
    let plan = Plan {
        values,
        settles,
        shards: u64::from(shape.shards() / 4),
        round: 0,
    };
    let (heap, seats) = Heap::<L>::open(alloc, shape)?;
    let passes = heap.passes(alloc, seats)?;
    told(rt, alloc, &heap, passes, plan)
}
