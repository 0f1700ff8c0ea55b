//! Passes that step by hand: the caller drives each step.
ghost use Rattle.std.specs.Prelude.{◌≡◌};
ghost use Rattle.sh_table.specs.Tales.{ViewIsValid};
ghost use Rattle.sh_pass.specs.Busy.{Acts, Ends};

use crate::by_hand::BusyState;
use crate::keeping::KeepsHeap;
use crate::pass::PassOn;
use sh_key::KeyLayout;
use sh_slots::Hand;
use sh_step::Action;
use std::marker::Model;

/// A pass that does one step a call, so that it can stop between any two. A `Busy` is one that borrows its heap.
///
/// A contract sees which heap it is of and what it knows, as of a `Pass`.
///
/// A busy pass that is dropped leaves for good what it has begun, and its holds. Its count on a slot stays, so that the
/// slot is never used again. A slot in its hand is on no stack. An owner that follows a stack stops at a slot that the
/// pass put and did not tie, and its leave is refused as `Waiting`. If the pass was to ring for a page, the owner never
/// hears of that page. So continue its steps until `end` gives the pass back.
#[derive(Drop)]
pub struct BusyOn<L: KeyLayout, H: KeepsHeap<L>> {
    heap: H,
    state: BusyState<L>,
}

impl<L: KeyLayout, H: KeepsHeap<L>> Model for BusyOn<L, H> {
    ghost use Rattle.sh_pass.specs.Passes.{Caller, caller_of};
    ghost use Rattle.sh_pass.specs.Busy.{IsBusy};

    ghost Value = { Caller };

    ghost view = { λ b. caller_of b.state.seated.seat };

    ghost invariant = { λ b.
        IsBusy L.layout (H.heap b.heap) b.state.seated.seat b.state.seated.held.items b.state.seated.named b.state.hand
        b.state.seated.number };
}

impl<L: KeyLayout, H: KeepsHeap<L>> PassOn<L, H> {
    /// The pass, to be driven step by step.
    pub fn begin(self) -> BusyOn<L, H>
        ensures { result ≡ self }
    {
        BusyOn {
            heap: self.heap,
            state: BusyState {
                seated: self.seated,
                hand: Hand::Idle,
            },
        }
    }
}

impl<L: KeyLayout, H: KeepsHeap<L>> BusyOn<L, H> {
    /// Does one step: true if the action is of one of the kinds Enter, Mark, Drop, Finish, Put, Tie, Ring and RingTie,
    /// and its condition holds. Otherwise it does nothing and returns false.
    pub fn act(&mut self, action: &Action) -> bool
        ensures acts { Acts L.layout action.now self.old.view result self.new.view }
        ensures same { self.new.heap ≡ self.old.heap }
        ensures stands { ViewIsValid L.layout self.new.view }
    {
        let heap = self.heap.kept();
        self.state.act(&heap.table, action)
    }

    /// The pass again, if it has nothing begun. Otherwise the busy pass comes back as it was.
    pub fn end(self) -> Result<PassOn<L, H>, BusyOn<L, H>>
        ensures { Ends self result }
    {
        let BusyOn { heap, state } = self;
        let BusyState { seated, hand } = state;
        match hand {
            Hand::Idle => Ok(PassOn { heap, seated }),
            hand => Err(BusyOn {
                heap,
                state: BusyState { seated, hand },
            }),
        }
    }
}
