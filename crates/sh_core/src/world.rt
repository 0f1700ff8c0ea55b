//! A heap as a state machine.
ghost use Rattle.std.specs.Prelude.{◌≡◌, IfOk, IfErr, OnOk, OnErr, [], length, replicate};
ghost use Rattle.sh_shape.specs.Shape.{Fits};
ghost use Rattle.sh_step.specs.Plans.{plan_of};
ghost use Rattle.sh_history.specs.History.{Legal};
ghost use Rattle.sh_core.specs.Worlds.{open_world, run};
ghost use Rattle.sh_step.specs.Parts.{newcomer};
ghost use Rattle.sh_core.specs.Lists.{lists_of};
ghost use Rattle.sh_core.specs.Refines.{Refines};
ghost use Rattle.sh_core.specs.Kept.{Represents, FromEvents, Opens, RunsWorld, StepsWorld, IsDone, NeedsMemory};

use crate::Outcome;
use crate::moving::do_move;
use crate::opening::opening_of;
use sh_history::Entry;
use sh_key::KeyLayout;
use sh_shape::Shape;
use sh_step::{Event, Move, Part};
use sh_value::Refusal;
use std::alloc::{AllocError, Global};
use std::marker::{Model, PhantomData};

// The parts of this many passes that have done nothing yet.
fn newcomers(alloc: Global, passes: u32) -> Result<Vec<Part>, AllocError>
    ensures { IfOk result (λ parts. parts.items ≡ replicate passes newcomer) }
{
    let mut parts = Vec::new(alloc);
    for _ in 0..passes {
        parts.push(Part::new(alloc))?;
    }
    Ok(parts)
}

/// The core: a heap's words, what each pass has of its own, and the log of all replies. Its events are done one by one.
///
/// A contract sees its shape, its words by their numbers, the bodies of its parts and its log, and that some list of
/// events leads to it.
#[derive(Drop)]
pub struct World<L: KeyLayout> {
    shape: Shape,
    words: Vec<u64>,
    parts: Vec<Part>,
    log: Vec<Entry>,
    layout: PhantomData<L>,
}

impl<L: KeyLayout> Model for World<L> {
    ghost use Rattle.sh_core.specs.Kept.{KeptWorld, FromEvents};

    ghost Value = { KeptWorld };

    ghost view = { λ w. record { shape = w.shape; words = w.words.items; parts = w.parts.items; log = w.log.items } };

    ghost invariant = { λ w. FromEvents L.layout (record {
      shape = w.shape;
      words = w.words.items;
      parts =
          w.parts.items;
      log = w.log.items;
    }) };
}

impl<L: KeyLayout> World<L> {
    /// A heap of this shape as it opens. Refused as `BadShape` if the shape does not fit the layout, and as `Memory` if
    /// memory for the words and parts is refused.
    pub fn new(alloc: Global, shape: Shape) -> Result<World<L>, Refusal>
        ensures opens { Opens L.layout shape result }
        ensures reached { IfOk result (FromEvents L.layout) }
    {
        let words = opening_of::<L>(alloc, &shape)?;
        let Ok(parts) = newcomers(alloc, shape.passes()) else {
            return Err(Refusal::Memory);
        };
        Ok(World {
            shape,
            words,
            parts,
            log: Vec::new(alloc),
            layout: PhantomData,
        })
    }

    /// All replies so far, in the order of their deciding steps: a legal history.
    #[tactic(auto, using(crate::proofs::Words::Stepping::reached_legal))]
    pub fn log(&self) -> &[Entry]
        ensures is { result.now ≡ self.now.log }
        ensures legal { Legal self.now.shape.passes L.layout.guard_max self.now.log }
    {
        &self.log
    }

    /// The words, each at the number of its place. Some list of events leads from the heap as it opens to them.
    pub fn words(&self) -> &[u64]
        ensures is { result.now ≡ self.now.words }
        ensures reached { FromEvents L.layout self.now }
    {
        &self.words
    }

    /// What each pass has of its own.
    pub fn parts(&self) -> &[Part]
        ensures { result.now ≡ self.now.parts }
    {
        &self.parts
    }

    /// The shape. Some list of events leads from the heap as it opens to this world.
    pub fn shape(&self) -> Shape
        ensures is { result ≡ self.now.shape }
        ensures reached { FromEvents L.layout self.now }
    {
        self.shape
    }

    /// Does one event by the row of its action, if there is such a pass and its own part meets the action's condition.
    /// Otherwise it does nothing, and returns `Skipped`. It may be refused as `Memory` only if it is not skipped and an
    /// entry joins the log or a list of the pass's own part grows. Then nothing changed.
    pub fn step(&mut self, event: &Event) -> Result<Outcome, Refusal>
        ensures ok { IfOk result (λ outcome. StepsWorld L.layout self.old event.now outcome self.new) }
        ensures err { OnErr result (self.new ≡ self.old) }
        ensures done { OnErr result (IsDone L.layout self.old event.now) }
        ensures needs { OnErr result (NeedsMemory L.layout self.old event.now) }
        ensures memory { IfErr result (λ refusal. refusal ≡ Refusal.Memory) }
    {
        let pass = event.pass as usize;
        if pass >= self.parts.len() {
            return Ok(Outcome::Skipped);
        }
        let part = &mut self.parts[pass];
        match Move::of::<L>(&self.shape, part, &event.action) {
            Some(the_move) => do_move::<L>(
                &self.shape,
                &mut self.words,
                part,
                &mut self.log,
                event.pass,
                &the_move,
            ),
            None => Ok(Outcome::Skipped),
        }
    }
}

/// The heap of this shape after these events, in order. Refused as `BadShape` if the shape does not fit the layout, and
/// as `Memory` if memory is refused to the heap or to one of its steps.
pub fn run<L: KeyLayout>(alloc: Global, shape: Shape, events: &[Event]) -> Result<World<L>, Refusal>
    ensures runs { RunsWorld L.layout shape events.now result }
    // What holds of every run holds of this one.
    ensures refines { OnOk result (Refines (plan_of L.layout shape) (run (plan_of L.layout shape) events.now)
        (lists_of (plan_of L.layout shape) events.now)) }
    ensures legal { IfOk result (λ world. Legal shape.passes L.layout.guard_max world.log) }
{
    let mut world = World::<L>::new(alloc, shape)?;
    for event in events {
        world.step(event)?;
    }
    Ok(world)
}
