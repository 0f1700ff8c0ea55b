//! What a pass is between its turns.
ghost use Rattle.std.specs.Prelude.{◌≤◌};

use crate::moments::Moments;
use crate::pass::LonePass;
use crate::{by_hand, owning};
use history_timed::Span;
use std::alloc::Global;
use tool_judge::record::Record;

/// What a pass has left to do by hand.
#[derive(Clone, Copy, Debug, PartialEq, Eq)]
pub enum Task {
    /// It entered the slot of this key to remove it. It learns whether there is a value when it marks.
    Removing(u64, Span),
    /// The result on this key is known, and the remaining steps have yet to run.
    Ending(u64),
}

/// A pass: one that owns no shard, one that owns a shard, or one that stopped in the middle of a call.
#[derive(Drop)]
pub enum Actor<P: LonePass> {
    /// It owns no shard.
    Lone(P),
    /// It owns a shard.
    Owner(P::Owner),
    /// It runs step by step, by hand.
    Stopped(P::Stopped, Task),
    /// It takes its turn. No actor is in this state between turns.
    Moving,
}

impl<P: LonePass> Actor<P> {
    /// Whether it runs step by step, by hand.
    pub fn is_stopped(&self) -> bool {
        match self {
            Actor::Stopped(_, _) => true,
            _ => false,
        }
    }

    /// Whether it owns a shard.
    pub fn is_owner(&self) -> bool {
        match self {
            Actor::Owner(_) => true,
            _ => false,
        }
    }

    /// The pass, if it owns no shard and has begun nothing.
    pub fn into_lone(self) -> Option<P> {
        match self {
            Actor::Lone(lone) => Some(lone),
            _ => None,
        }
    }

    /// Does the next step of what it began by hand, and returns the actor after it.
    pub fn gone_on(self, record: &mut Record, moments: &Moments) -> Self {
        match self {
            Actor::Stopped(stopped, task) => by_hand::go_on::<P>(stopped, task, record, moments),
            actor => actor,
        }
    }

    /// Tries to leave its shard, and returns the actor after that.
    pub fn left(self, record: &mut Record) -> Self {
        match self {
            Actor::Owner(owner) => owning::leave::<P>(owner, record),
            actor => actor,
        }
    }

    /// Fills a shard that nobody owns with values of `len` words, and returns the actor after that.
    pub fn filled(
        self,
        alloc: Global,
        record: &mut Record,
        moments: &Moments,
        shard: u64,
        len: usize,
    ) -> Self
        requires { len ≤ 16 }
    {
        match self {
            Actor::Lone(lone) => owning::fill(alloc, lone, record, moments, shard, len),
            actor => actor,
        }
    }
}
