//! Pools: heaps with pool slots for their passes.
ghost use Rattle.std.specs.Prelude.{◌≡◌, ◌<◌, IfErr, IfOk, IfSome, MatchResult, OnOk, length};
ghost use Rattle.sh_value.specs.declared.refusal.Refusal.TheVariants.{Memory};
ghost use Rattle.sh_pass.specs.Passes.{IsAtRest};
ghost use Rattle.sh_pool.specs.PoolSlots.{AreLast, ArePoolSlots, OpensPool};

use crate::pool_slot::{PoolSlot, PoolSlotCell, Taken, give_to, pool_slot_cell, take_from};
use sh_key::KeyLayout;
use sh_pass::{Heap, PassState, Seats};
use sh_shape::Shape;
use sh_value::Refusal;
use std::alloc::Global;
use std::marker::Model;

/// A heap with a pool slot for each of its passes. Threads share it, and each takes a pass that is in its pool slot.
///
/// A contract sees the heap.
#[derive(Drop)]
pub struct Pool<L: KeyLayout> {
    heap: Heap<L>,
    pool_slots: Vec<PoolSlotCell<L>>,
}

impl<L: KeyLayout> Model for Pool<L> {
    ghost use Rattle.sh_table.specs.Seats.{Heap};
    ghost use Rattle.sh_pool.specs.PoolSlots.{ArePoolSlots};

    ghost Value = { Heap };

    ghost view = { λ p. p.heap };

    ghost invariant = { λ p. ArePoolSlots p.heap p.pool_slots.items };
}

// All passes of a new heap, in order.
fn all_states<L: KeyLayout>(
    alloc: Global,
    heap: &Heap<L>,
    seats: Seats<L>,
) -> Result<Vec<PassState<L>>, Refusal>
    requires { seats ≡ heap.now }
    ensures last { IfOk result (λ states. AreLast heap.now heap.now.shape.passes states.items) }
    ensures count { IfOk result (λ states. length states.items ≡ heap.now.shape.passes) }
    ensures err { IfErr result (λ why. why ≡ Memory) }
{
    match heap.states(alloc, seats) {
        Ok(states) => Ok(states),
        Err((_seats, refusal)) => Err(refusal),
    }
}

// A pool slot for each of these passes of a heap, with the pass in it. The heap comes back.
#[tactic(auto, using(crate::proofs::Homes::homes_more))]
fn pool_slots_for<L: KeyLayout>(
    alloc: Global,
    heap: Heap<L>,
    states: Vec<PassState<L>>,
) -> Result<(Heap<L>, Vec<PoolSlotCell<L>>), Refusal>
    requires last { AreLast heap heap.shape.passes states.items }
    requires count { length states.items ≡ heap.shape.passes }
    ensures { MatchResult result (λ r. (r.0 ≡ heap) × ArePoolSlots heap r.1.items) (λ why. why ≡ Memory) }
{
    let Ok(mut pool_slots) = Vec::with_capacity(alloc, states.len()) else {
        return Err(Refusal::Memory);
    };
    let mut home = (heap, 0);
    for state in states {
        home.1 = pool_slots.len();
        pool_slots.push_reserved(pool_slot_cell(alloc, &home, state)?);
    }
    let (heap, _) = home;
    Ok((heap, pool_slots))
}

impl<L: KeyLayout> Pool<L> {
    /// A pool of a new heap of this shape, with pass n in pool slot n. Refused as `BadShape` exactly if the shape
    /// does not fit the layout, and as `Memory` if memory is refused.
    pub fn open(alloc: Global, shape: Shape) -> Result<Pool<L>, Refusal>
        ensures { OpensPool L.layout shape result }
    {
        let (heap, seats) = Heap::<L>::open(alloc, shape)?;
        let states = all_states(alloc, &heap, seats)?;
        let (heap, pool_slots) = pool_slots_for(alloc, heap, states)?;
        Ok(Pool { heap, pool_slots })
    }

    /// The heap.
    pub fn heap(&self) -> &Heap<L>
        ensures { result.now ≡ self.now }
    {
        &self.heap
    }

    /// The shape of the heap.
    pub fn shape(&self) -> &Shape
        ensures { result.now ≡ self.now.shape }
    {
        self.heap.shape()
    }

    /// The number of pool slots: one for each pass, taken or not.
    pub fn pool_slots(&self) -> usize
        ensures { result ≡ self.now.shape.passes }
    {
        self.pool_slots.len()
    }

    // The pool slot of this number. `None` if there is none.
    #[tactic(auto, using(crate::proofs::Homes::cell_is))]
    fn cell_at(&self, number: usize) -> Option<&PoolSlotCell<L>>
        ensures is { IfSome result (λ cell. cell.now ≡ (self.now, number)) }
        ensures below { IfSome result (λ _. number < self.now.shape.passes) }
    {
        self.pool_slots.get(number)
    }

    /// Takes the pass of this number out of its pool slot: it has begun nothing, and owns no shard. `None` if the pool
    /// slot is empty, or if there is no such pool slot.
    pub fn take_at(&self, number: usize) -> Option<Taken<L>>
        ensures heap { IfSome result (λ taken. taken.state.heap ≡ self.now) }
        ensures pass { IfSome result (λ taken. taken.state.view.pass ≡ number) }
        ensures rest { IfSome result (λ taken. IsAtRest taken.state) }
        ensures pool_slot { IfSome result (λ taken. (taken.pool_slot ≡ number) × (number < self.now.shape.passes)) }
    {
        let taken = take_from(self.cell_at(number)?, number)?;
        // What holds for every pass holds for this one.
        let _known = taken.state.shape(&self.heap);
        Some(taken)
    }

    /// Takes a pass from the first pool slot that has one when this call looks there. `None` if it finds each pool slot
    /// empty.
    pub fn take(&self) -> Option<Taken<L>>
        ensures heap { IfSome result (λ taken. taken.state.heap ≡ self.now) }
        ensures pass { IfSome result (λ taken. taken.state.view.pass ≡ taken.pool_slot) }
        ensures rest { IfSome result (λ taken. IsAtRest taken.state) }
        ensures pool_slot { IfSome result (λ taken. taken.pool_slot < self.now.shape.passes) }
    {
        for number in 0..self.pool_slots.len() {
            if let Some(taken) = self.take_at(number) {
                return Some(taken);
            }
        }
        None
    }

    /// Gives a pass of the heap back to its pool slot. Refused if the pool slot is for another pass, if it has a pass,
    /// or if there is no such pool slot. Then both are returned as they were. None of this is so for a pass and a pool
    /// slot that were taken from this pool together.
    pub fn give(
        &self,
        state: PassState<L>,
        pool_slot: PoolSlot<L>,
    ) -> Result<(), (PassState<L>, PoolSlot<L>)>
        requires { state.heap ≡ self.now }
        ensures ok { OnOk result ((state.view.pass ≡ pool_slot) × (pool_slot < self.now.shape.passes)) }
        ensures err { IfErr result (λ back. (back.0 ≡ state) × (back.1 ≡ pool_slot)) }
    {
        let number = pool_slot.number();
        if state.number() as usize != number {
            return Err((state, pool_slot));
        }
        match self.cell_at(number) {
            Some(cell) => give_to(cell, state, pool_slot),
            None => Err((state, pool_slot)),
        }
    }
}
