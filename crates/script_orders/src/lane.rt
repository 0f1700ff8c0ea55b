//! What a pass did so far.
ghost use Rattle.std.specs.Prelude.{◌≡◌, ◌+◌, ◌++◌, ◌<◌, OnOk, IfOk, map, replicate};
ghost use Rattle.script_orders.specs.Bytes.{counted, lane_bytes};
ghost use Rattle.script_orders.specs.Lanes.{did, nothing, and_then};
ghost use Rattle.script_orders.specs.Orders.{reply_line};

use script_models::event_line::push_event;
use sh_core::Outcome;
use sh_step::Event;
use std::alloc::{AllocError, Global};
use std::rc::Rc;

// The bytes of a step, and those of a lane with its three blocks of memory.
const STEP_BYTES: u64 = 16;

const LANE_BYTES: u64 = 120;

/// A step of a pass that was done.
#[derive(Clone, Copy, Debug, PartialEq, Eq)]
pub struct Step {
    /// The number of its line, from 0.
    pub line: usize,
    /// What it found, as far as it matters to the pass.
    pub seen: u64,
}

/// What a pass did so far.
#[derive(Drop, PartialEq, Eq)]
pub struct Lane {
    /// Its next line is the first one of it from here on whose condition holds.
    pub behind: usize,
    /// Its steps that were done, in order. They determine all of its own part that a condition or a reply depends on.
    pub story: Vec<Step>,
    /// Its reply lines, in order.
    pub replies: Vec<u8>,
}

// Adds the line of what came of an event, if it is a reply.
fn push_reply(out: &mut Vec<u8>, event: &Event, outcome: &Outcome) -> Result<(), AllocError>
    ensures { OnOk result (out.new.items ≡ out.old.items ++ reply_line event.now outcome.now) }
{
    match outcome {
        Outcome::Replied(_) => push_event(out, None, event.pass, event.action.kind(), outcome),
        Outcome::Moved | Outcome::Skipped => Ok(()),
    }
}

impl Lane {
    /// A pass that did nothing yet.
    pub fn new(alloc: Global) -> Lane
        ensures { did result ≡ nothing }
    {
        Lane {
            behind: 0,
            story: Vec::new(alloc),
            replies: Vec::new(alloc),
        }
    }

    /// The same again.
    pub fn copy(&self, alloc: Global) -> Result<Lane, AllocError>
        ensures { IfOk result (λ lane. did lane ≡ did self.now) }
    {
        Ok(Lane {
            behind: self.behind,
            story: Vec::from_slice(alloc, self.story.as_slice())?,
            replies: Vec::from_slice(alloc, self.replies.as_slice())?,
        })
    }

    /// How many bytes it takes; 0 if the pass did nothing, since all states share that one.
    pub fn bytes(&self) -> u64
        ensures { result ≡ counted (lane_bytes (did self.now)) }
    {
        if self.story.is_empty() {
            return 0;
        }
        let story = STEP_BYTES.saturating_mul(self.story.len() as u64);
        story
            .saturating_add(self.replies.len() as u64)
            .saturating_add(LANE_BYTES)
    }

    /// What the pass did once it did this line too, which found this and of which this came.
    pub fn after(
        &self,
        alloc: Global,
        line: usize,
        seen: u64,
        event: &Event,
        outcome: &Outcome,
    ) -> Result<Lane, AllocError>
        requires { line < usize.MAX }
        ensures { IfOk result (λ lane.
            did lane ≡ and_then (did self.now) line seen (reply_line event.now outcome.now)) }
    {
        let mut lane = self.copy(alloc)?;
        lane.behind = line + 1;
        lane.story.push(Step { line, seen })?;
        push_reply(&mut lane.replies, event, outcome)?;
        Ok(lane)
    }
}

/// The lanes of this number of passes that did nothing yet.
pub fn new_lanes(alloc: Global, passes: u32) -> Result<Vec<Rc<Lane>>, AllocError>
    ensures { IfOk result (λ lanes. map (λ lane. did lane.value) lanes.items ≡ replicate passes nothing) }
{
    let lane = Rc::new(alloc, Lane::new(alloc))?;
    let mut lanes = Vec::new(alloc);
    for _ in 0..passes {
        lanes.push(lane.clone()?)?;
    }
    Ok(lanes)
}

/// The same lane, shared.
pub fn share_lane(lane: &Rc<Lane>) -> Result<Rc<Lane>, AllocError>
    ensures { IfOk result (λ copy. did copy.value ≡ did lane.now.value) }
{
    lane.clone()
}

/// The same lanes, shared.
pub fn share_lanes(alloc: Global, lanes: &[Rc<Lane>]) -> Result<Vec<Rc<Lane>>, AllocError>
    ensures { IfOk result (λ copies. map (λ lane. did lane.value) copies.items
        ≡ map (λ lane. did lane.value) lanes.now) }
{
    let mut copies = Vec::new(alloc);
    for lane in lanes {
        copies.push(lane.clone()?)?;
    }
    Ok(copies)
}
