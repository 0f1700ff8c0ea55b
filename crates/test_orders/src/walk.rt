//! Walks all orders of a program's steps.
use crate::always::assert_always;
use crate::facts::{Fact, are_so};
use crate::moment::Moment;
use crate::program::Program;
use crate::settle::assert_settles;
use crate::state_text::told;
use sh_core::World;
use sh_key::Tiny;
use std::alloc::Global;
use std::collections::BTreeMap;
use std::collections::btree_map::Entry;
use std::process::Abort;
use std::test::Fail;

// A state, given by one order that leads to it.
#[derive(Drop)]
struct State {
    // The numbers of the passes, one for each step in order.
    order: Vec<u32>,
    // The number of orders that lead to it.
    orders: u64,
}

/// A state in which no pass has a step left.
#[derive(Drop)]
pub struct End {
    /// The heap.
    pub world: World<Tiny>,
    /// The number of orders that lead to it.
    pub orders: u64,
}

/// The result of a walk.
#[derive(Drop)]
pub struct Walked {
    /// The number of states that were met. States after the same number of steps are counted once each.
    pub states: u64,
    /// The end states.
    pub ends: Vec<End>,
}

impl Walked {
    /// The number of orders.
    pub fn orders(&self) -> u64 {
        self.orders_with(&[])
    }

    /// The number of orders that lead to an end state in which all of these facts hold.
    pub fn orders_with(&self, facts: &[Fact]) -> u64 {
        let mut orders = 0u64;
        for end in &self.ends {
            if are_so(facts, &end.world) {
                orders = orders.saturating_add(end.orders);
            }
        }
        orders
    }
}

// The fixed input of a walk.
#[derive(Drop)]
struct Walker<'p> {
    alloc: Global,
    program: &'p Program,
    opening: World<Tiny>,
}

impl Walker<'_> {
    // Puts the state after a further step of the pass among the next ones, and returns whether there is a further step.
    fn step(
        &self,
        rt: &impl Abort,
        state: &State,
        pass: u32,
        next: &mut BTreeMap<String, State>,
    ) -> Result<bool, Fail> {
        let mut moment = Moment::after(self.alloc, self.program, state.order.as_slice())?;
        if !moment.go_on(self.program, pass)? {
            return Ok(false);
        }
        let text = told(self.alloc, self.program, self.opening.words(), &moment)?;
        match next.entry(text)? {
            Entry::Occupied(mut seen) => {
                let seen = seen.get_mut();
                seen.orders = seen.orders.saturating_add(state.orders);
            }
            Entry::Vacant(new) => {
                assert_always(rt, self.alloc, &moment.world)?;
                let mut order = state.order.clone()?;
                order.push(pass)?;
                new.insert(State {
                    order,
                    orders: state.orders,
                });
            }
        }
        Ok(true)
    }

    // Puts the states after one further step among the next ones, and returns whether there are any.
    fn go_on(
        &self,
        rt: &impl Abort,
        state: &State,
        next: &mut BTreeMap<String, State>,
    ) -> Result<bool, Fail> {
        let mut goes_on = false;
        for pass in 0..self.program.shape.passes() {
            goes_on = self.step(rt, state, pass, next)? || goes_on;
        }
        Ok(goes_on)
    }

    // Asserts that the end state settles, and returns it.
    fn end(&self, rt: &impl Abort, state: &State) -> Result<End, Fail> {
        let order = state.order.as_slice();
        let settling = Moment::after(self.alloc, self.program, order)?;
        assert_settles(rt, self.alloc, settling.world)?;
        let moment = Moment::after(self.alloc, self.program, order)?;
        Ok(End {
            world: moment.world,
            orders: state.orders,
        })
    }

    // The states after one further step than these. Those that have none are end states.
    fn next_states(
        &self,
        rt: &impl Abort,
        states: &BTreeMap<String, State>,
        ends: &mut Vec<End>,
    ) -> Result<BTreeMap<String, State>, Fail> {
        let mut next = BTreeMap::new(self.alloc);
        for state in states.values() {
            if !self.go_on(rt, state, &mut next)? {
                ends.push(self.end(rt, state)?)?;
            }
        }
        Ok(next)
    }
}

/// Walks all orders in which the passes can do their steps, one number of steps after the other. If two orders of one
/// length lead to the same state, the walk continues from it only once.
pub fn walk(rt: &impl Abort, alloc: Global, program: &Program) -> Result<Walked, Fail> {
    let opening = World::new(alloc, program.shape)?;
    let walker = Walker {
        alloc,
        program,
        opening,
    };
    let first = State {
        order: Vec::new(alloc),
        orders: 1,
    };
    let mut states = BTreeMap::new(alloc);
    states.insert(String::new(alloc), first)?;
    let mut walked = Walked {
        states: 0,
        ends: Vec::new(alloc),
    };
    // No order is longer than all events together.
    for _ in 0..=program.then.events().len() {
        walked.states = walked.states.saturating_add(states.len() as u64);
        states = walker.next_states(rt, &states, &mut walked.ends)?;
    }
    assert!(rt; states.is_empty(), "the last states are ends");
    Ok(walked)
}
