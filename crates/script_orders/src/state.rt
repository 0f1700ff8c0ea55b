//! States, each by one order that leads to it.
ghost use Rattle.std.specs.Prelude.{◌≡◌, ◌++◌, ◌<◌, [], Some, None, MatchOption, OnOk, IfOk, length, map, slice_get};
ghost use Rattle.std.specs.Prelude.{replicate, vec_items};
ghost use Rattle.sh_key.specs.Layout.{Layout};
ghost use Rattle.std.specs.Rc.{rc_value};
ghost use Rattle.script_orders.specs.Bytes.{counted, state_bytes};
ghost use Rattle.script_orders.specs.Lanes.{did, nothing};
ghost use Rattle.script_orders.specs.Orders.{is_of, lines_within};
ghost use Rattle.script_orders.specs.Reached.{IsReached, lanes_of};
ghost use Rattle.script_orders.specs.States.{Follows, all_left};

use crate::changes::Change;
use crate::found::Program;
use crate::lane::{Lane, new_lanes, share_lanes};
use crate::orders::Orders;
use sh_step::Event;
use std::alloc::{AllocError, Global};
use std::rc::Rc;

// The bytes of a state, with its four blocks of memory and its place by its mark.
const STATE_BYTES: u64 = 256;

/// A state.
#[derive(Drop)]
pub struct State {
    /// One order that leads to it, as the numbers of its lines, with those that were skipped.
    pub order: Vec<usize>,
    /// The passes of the steps that were done, in order.
    pub passes: Vec<u32>,
    /// What each pass did. States share the lanes of passes that did the same.
    pub lanes: Vec<Rc<Lane>>,
    /// The words of the heap that are not as the lines begin.
    pub changes: Vec<Change>,
    /// How many orders lead to it.
    pub orders: Orders,
}

// Whether the line of this number is one of the pass's.
fn is_of(lines: &[Event], pass: u32, number: usize) -> bool
    ensures { result ≡ is_of lines.now pass number }
{
    match lines.get(number) {
        Some(event) => event.pass == pass,
        None => false,
    }
}

/// Adds the numbers of the pass's lines from one number on and before another.
pub fn push_lines(
    order: &mut Vec<usize>,
    lines: &[Event],
    pass: u32,
    from: usize,
    to: usize,
) -> Result<(), AllocError>
    ensures { OnOk result (order.new.items ≡ order.old.items ++ lines_within lines.now pass from to) }
{
    for number in from..to {
        if is_of(lines, pass, number) {
            order.push(number)?;
        }
    }
    Ok(())
}

impl State {
    /// The state in which the lines begin.
    pub fn first(alloc: Global, program: &Program<'_>) -> Result<State, AllocError>
        ensures reached { IfOk result (λ state. (layout : Layout) → IsReached layout program.now state) }
        ensures orders { IfOk result (λ state. state.orders.count ≡ 1) }
        ensures begins { IfOk result (λ state. state.order.items ≡ []) }
        ensures lanes { IfOk result (λ state. lanes_of state ≡ replicate program.now.shape.passes nothing) }
    {
        Ok(State {
            order: Vec::new(alloc),
            passes: Vec::new(alloc),
            lanes: new_lanes(alloc, program.shape.passes())?,
            changes: Vec::new(alloc),
            orders: Orders::ONE,
        })
    }

    /// The state once the pass did one more line. `lane` is what it has done then, and `changes` is what the line left.
    pub fn after(
        &self,
        alloc: Global,
        lines: &[Event],
        pass: u32,
        lane: Rc<Lane>,
        changes: Vec<Change>,
    ) -> Result<State, AllocError>
        requires { pass < length self.now.lanes.items }
        ensures { IfOk result (Follows lines.now pass (did (rc_value lane)) changes.items self.now) }
    {
        let mut order = Vec::from_slice(alloc, self.order.as_slice())?;
        let mut passes = Vec::from_slice(alloc, self.passes.as_slice())?;
        let mut lanes = share_lanes(alloc, self.lanes.as_slice())?;
        let behind = self.lanes[pass as usize].behind;
        push_lines(&mut order, lines, pass, behind, lane.behind)?;
        lanes[pass as usize] = lane;
        passes.push(pass)?;
        Ok(State {
            order,
            passes,
            lanes,
            changes,
            orders: self.orders,
        })
    }

    /// What a pass did.
    pub fn lane(&self, pass: u32) -> Option<&Lane>
        ensures { MatchOption result (slice_get (lanes_of self.now) pass ≡ None)
            (λ lane. slice_get (lanes_of self.now) pass ≡ Some (did lane.now)) }
    {
        match self.lanes.get(pass as usize) {
            Some(lane) => Some(lane.as_ref()),
            None => None,
        }
    }

    /// How many bytes it takes at most, the lanes that it shares with others too.
    pub fn bytes(&self) -> u64
        ensures { result ≡ counted (state_bytes self.now) }
    {
        let order = 12u64.saturating_mul(self.order.len() as u64);
        let changes = 16u64.saturating_mul(self.changes.len() as u64);
        let mut bytes = STATE_BYTES.saturating_add(order).saturating_add(changes);
        for lane in &self.lanes {
            bytes = bytes.saturating_add(lane.bytes()).saturating_add(8);
        }
        bytes
    }

    /// The order, and then the lines that the passes have left.
    pub fn whole_order(
        &self,
        alloc: Global,
        lines: &[Event],
        passes: u32,
    ) -> Result<Vec<usize>, AllocError>
        ensures { IfOk result (λ order. order.items ≡ self.now.order.items
            ++ all_left lines.now (lanes_of self.now) passes) }
    {
        let mut order = Vec::from_slice(alloc, self.order.as_slice())?;
        for pass in 0..passes {
            if let Some(lane) = self.lane(pass) {
                push_lines(&mut order, lines, pass, lane.behind, lines.len())?;
            }
        }
        Ok(order)
    }

    /// The reply lines of each pass.
    pub fn replies(&self, alloc: Global) -> Result<Vec<Vec<u8>>, AllocError>
        ensures { IfOk result (λ replies. map vec_items replies.items ≡ map (λ d. d.replies) (lanes_of self.now)) }
    {
        let mut replies = Vec::new(alloc);
        for lane in &self.lanes {
            replies.push(Vec::from_slice(alloc, lane.replies.as_slice())?)?;
        }
        Ok(replies)
    }
}
