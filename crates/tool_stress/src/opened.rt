//! The heap of a round: a new one of the library, with all its passes.
ghost use Rattle.std.specs.Prelude.{◌≡◌, Some};
ghost use Rattle.std.specs.List.{All};
ghost use Rattle.sh_pass.specs.Passes.{Caller};

use crate::grower;
use crate::home::Home;
use crate::lone::Lone;
use sh_key::{Deep, KeyLayout, Tagged, Tiny, Wide};
use sh_pass::{Heap, Pass, Seats};
use sh_shape::Shape;
use sh_value::Refusal;
use std::alloc::Global;
use std::marker::Brand;
use std::sync::Wait;
use std::thread::Threads;
use tool_judge::dice::Dice;
use tool_judge::fault::{Call, Fault, Wrong};
use tool_rounds::plan::{Layout, Plan};
use tool_rounds::program::Heaps;
use tool_rounds::round;
use tool_rounds::round::Outcome;

// Why the heap could not be opened.
pub(crate) fn unopened(refusal: Refusal) -> Fault {
    match refusal {
        Refusal::Memory => Fault::Memory,
        _ => Fault::Wrong(Wrong::Refused(0, Call::Open, refusal)),
    }
}

// Wraps passes as those of the heap that `H` names.
fn named<'a, L: KeyLayout, H: Home>(
    alloc: Global,
    passes: Vec<Pass<'a, L>>,
) -> Result<Vec<Lone<'a, L, H>>, Fault>
    requires { All (λ (p : Caller). H.heap ≡ Some p.heap) passes.items }
{
    let mut lones = Vec::new(alloc);
    for pass in passes {
        if lones.push(Lone::new(pass)).is_err() {
            return Err(Fault::Memory);
        }
    }
    Ok(lones)
}

// All passes of the heap that `H` names.
fn at_home<'a, L: KeyLayout, H: Home>(
    alloc: Global,
    heap: &'a Heap<L>,
    seats: Seats<L>,
) -> Result<Vec<Lone<'a, L, H>>, Fault>
    requires home { H.heap ≡ Some heap.now }
    requires seats { seats ≡ heap.now }
{
    match heap.passes(alloc, seats) {
        Ok(passes) => named(alloc, passes),
        Err((_, refusal)) => Err(unopened(refusal)),
    }
}

// A round on the heap that `H` names.
fn worked<'a, L: KeyLayout + Send, H: Home + Send + Sync, R: Threads + Wait + Sync>(
    rt: &R,
    alloc: Global,
    plan: &Plan,
    shape: Shape,
    heap: &'a Heap<L>,
    seats: Seats<L>,
    dice: &mut Dice,
) -> Outcome
    requires home { H.heap ≡ Some heap.now }
    requires seats { seats ≡ heap.now }
{
    let lones: Vec<Lone<'a, L, H>> = match at_home(alloc, heap, seats) {
        Ok(lones) => lones,
        Err(fault) => return Outcome::unbegun(alloc, fault),
    };
    round::play(rt, alloc, plan, &[shape], lones, dice)
}

// Plays a round on a new heap of this layout.
fn play<L: KeyLayout + Send, R: Threads + Wait + Sync>(
    rt: &R,
    alloc: Global,
    plan: &Plan,
    dice: &mut Dice,
) -> Outcome {
    let shape = match Shape::new(plan.shards, plan.segments, plan.all_passes()) {
        Ok(shape) => shape,
        Err(refusal) => return Outcome::unbegun(alloc, unopened(refusal)),
    };
    match Heap::<L>::open(alloc, shape) {
        Ok((heap, seats)) => worked::<L, Brand, R>(rt, alloc, plan, shape, &heap, seats, dice),
        Err(refusal) => Outcome::unbegun(alloc, unopened(refusal)),
    }
}

/// The heaps of the library.
#[derive(Clone, Copy, Debug)]
pub struct Library;

impl Heaps for Library {
    fn play<R: Threads + Wait + Sync>(
        &self,
        rt: &R,
        alloc: Global,
        _round: u64,
        plan: &Plan,
        dice: &mut Dice,
    ) -> Outcome {
        match plan.layout {
            Layout::Tiny => play::<Tiny, R>(rt, alloc, plan, dice),
            Layout::Wide => play::<Wide, R>(rt, alloc, plan, dice),
            Layout::Deep => play::<Deep, R>(rt, alloc, plan, dice),
            Layout::Tagged => play::<Tagged, R>(rt, alloc, plan, dice),
            Layout::Growing => grower::play(rt, alloc, plan, dice),
        }
    }
}
