//! Pool slots: the places of a pool's passes.
ghost use Rattle.std.specs.Prelude.{◌≡◌, true, None, Some, IfSome, IfErr, MatchResult};
ghost use Rattle.sh_nullable.specs.Owning.{has_value};
ghost use Rattle.sh_value.specs.declared.refusal.Refusal.TheVariants.{Memory};
ghost use Rattle.sh_pool.specs.PoolSlots.{HasPass};

use counted_slot::{Counted, FREE, Fits, TAKEN};
use sh_key::KeyLayout;
use sh_nullable::NullableBox;
use sh_pass::{Heap, PassState};
use sh_value::Refusal;
use std::alloc::Global;
use std::marker::Model;

// The word of a pool slot that has its pass: free to be claimed.
const POOLED: u64 = FREE;

// The word of a pool slot whose pass was taken: free to be claimed too, with 1 in its high half.
const CHECKED_OUT: u64 = 0x1_0000_0000;

// A pass in its pool slot, in the box that it leaves when it is taken. A `&` shows nothing inside, so threads may share
// the pool slot.
pub struct Resting<L: KeyLayout> {
    boxed: NullableBox<Option<PassState<L>>, Global>,
    ghost full: { has_value boxed.value ≡ true },
}

impl<L: KeyLayout> Fits for Resting<L> {
    type Tag = (Heap<L>, usize);

    ghost use Rattle.sh_pool.specs.PoolSlots.{RestsOf};

    ghost fits = { λ home r. RestsOf home r.boxed.value };
}

impl<L: KeyLayout> Resting<L> {
    // The pass in this box.
    fn of(full: Box<Option<PassState<L>>, Global>) -> Self
        ensures { result.boxed.value ≡ Some full.value }
    {
        Resting {
            boxed: NullableBox::of(full),
        }
    }

    // The pass, and the box that it was in.
    fn wake(self) -> (PassState<L>, Box<Option<PassState<L>>, Global>)
        requires { HasPass self.boxed.value }
        ensures state { self.boxed.value ≡ Some (Some result.0) }
        ensures emptied { result.1.value ≡ None }
    {
        let Resting { boxed } = self;
        let mut full = boxed.into_box();
        let state = full.take().unwrap();
        (state, full)
    }
}

// A `NullableBox` does not free what it owns, so this takes the box out and drops it.
impl<L: KeyLayout> Drop for Resting<L> {
    fn drop(self) {
        let Resting { boxed } = self;
        drop(boxed.into_box());
    }
}

// The place of one pass, with the pass or empty. A contract sees the heap and the number of the pass that it is for.
pub(crate) type PoolSlotCell<L> = Counted<Option<Resting<L>>>;

/// The pool slot of a pass that was taken: its number, and the box that the pass was in. `Pool::give` needs it.
///
/// It is not `Drop`. Outside this module it ends in two ways only: by `Pool::give`, with the pass, or by `lose`. So a
/// pass that was taken is given back, or lost by a call of that name.
///
/// A contract sees the number.
pub struct PoolSlot<L: KeyLayout> {
    number: usize,
    emptied: Box<Option<PassState<L>>, Global>,
}

impl<L: KeyLayout> Model for PoolSlot<L> {
    ghost use Rattle.std.specs.Prelude.{ℕ, ◌≡◌, None};

    ghost Value = { ℕ };

    ghost view = { λ b. b.number };

    ghost invariant = { λ b. b.emptied.value ≡ None };
}

impl<L: KeyLayout> PoolSlot<L> {
    /// Its number in the pool, from 0.
    pub fn number(&self) -> usize
        ensures { result ≡ self.now }
    {
        self.number
    }

    /// Loses the pass of this pool slot: the pool slot stays empty for ever, and no call finds a pass there again. It
    /// frees the box that the pass was in.
    ///
    /// What the pass itself has is lost with its state: its holds stay in their slots.
    pub fn lose(self) {
        let PoolSlot {
            number: _,
            emptied: _,
        } = self;
    }
}

/// A pass that was taken, and its pool slot. It is not `Drop`, since its pool slot is not.
pub struct Taken<L: KeyLayout> {
    /// What the pass knows and holds.
    pub state: PassState<L>,
    /// Its pool slot, with which it is given back.
    pub pool_slot: PoolSlot<L>,
}

impl<L: KeyLayout> Taken<L> {
    /// Loses the pass, with its holds, and its pool slot.
    pub fn lose(self) {
        let Taken {
            state: _,
            pool_slot,
        } = self;
        pool_slot.lose();
    }
}

// A pool slot that has this pass, and is for it.
pub(crate) fn pool_slot_cell<L: KeyLayout>(
    alloc: Global,
    home: &(Heap<L>, usize),
    state: PassState<L>,
) -> Result<PoolSlotCell<L>, Refusal>
    requires heap { state.heap ≡ home.now.0 }
    requires number { state.view.pass ≡ home.now.1 }
    ensures { MatchResult result (λ cell. cell ≡ home.now) (λ why. why ≡ Memory) }
{
    let Ok(full) = Box::new(alloc, Some(state)) else {
        return Err(Refusal::Memory);
    };
    Ok(Counted::new(Some(Resting::of(full)), home))
}

// Takes the pass of this pool slot, if it is there. The number is the pool slot's.
pub(crate) fn take_from<L: KeyLayout>(cell: &PoolSlotCell<L>, number: usize) -> Option<Taken<L>>
    ensures { IfSome result (λ taken. (taken.state.heap ≡ cell.now.0) × (taken.state.view.pass ≡ cell.now.1)
        × (taken.pool_slot ≡ number)) }
{
    let (found, claim) = cell.turn(POOLED, TAKEN);
    if found != POOLED {
        claim.done();
        return None;
    }
    let (state, emptied) = claim.put(None, CHECKED_OUT)?.wake();
    let pool_slot = PoolSlot { number, emptied };
    Some(Taken { state, pool_slot })
}

// Gives the pass of this pool slot back, if the pool slot is empty.
pub(crate) fn give_to<L: KeyLayout>(
    cell: &PoolSlotCell<L>,
    state: PassState<L>,
    pool_slot: PoolSlot<L>,
) -> Result<(), (PassState<L>, PoolSlot<L>)>
    requires heap { state.heap ≡ cell.now.0 }
    requires number { state.view.pass ≡ cell.now.1 }
    ensures { IfErr result (λ back. (back.0 ≡ state) × (back.1 ≡ pool_slot)) }
{
    let (found, claim) = cell.turn(CHECKED_OUT, TAKEN);
    if found != CHECKED_OUT {
        claim.done();
        return Err((state, pool_slot));
    }
    let PoolSlot {
        number: _,
        mut emptied,
    } = pool_slot;
    *emptied = Some(state);
    let _nobody = claim.put(Some(Resting::of(emptied)), POOLED);
    Ok(())
}
