//! A pass with its record.
ghost use Rattle.std.specs.Prelude.{◌≤◌};

use crate::actor::{Actor, Task};
use crate::board::Board;
use crate::moments::Moments;
use crate::pass::LonePass;
use crate::plan::Plan;
use crate::turn::Turn;
use crate::{by_hand, keys, owning, turn, using};
use std::alloc::Global;
use std::mem;
use std::sync::Wait;
use tool_judge::counts::Count;
use tool_judge::dice::Dice;
use tool_judge::record::Record;

// The greatest number of steps of a call by hand, with its end.
const STEPS_BY_HAND: u32 = 9;

/// A pass that takes turns.
#[derive(Drop)]
pub struct Worker<P: LonePass> {
    actor: Actor<P>,
    record: Record,
    shards: u64,
    // The shard that it tried to adopt last. An owner owns this one.
    shard: u64,
    // The shard that it filled as its owner at the end of the round.
    filled: Option<u64>,
    alloc: Global,
}

impl<C: Drop, P: LonePass<Receipt = C>> Worker<P> {
    /// A pass that has done nothing, in a round of this plan.
    pub fn new(alloc: Global, lone: P, number: u32, plan: &Plan) -> Self {
        Worker {
            actor: Actor::Lone(lone),
            record: Record::new(alloc, number, plan.tells_ends),
            shards: u64::from(plan.shards),
            shard: 0,
            filled: None,
            alloc,
        }
    }

    /// Its record.
    pub fn record(&self) -> &Record {
        &self.record
    }

    // The turn of a pass that owns no shard.
    fn lone_turn<R: Wait>(
        &mut self,
        mut lone: P,
        board: &Board<'_, R, C>,
        dice: &mut Dice,
    ) -> Actor<P> {
        match turn::of_lone(dice) {
            Turn::Adopt => {
                self.shard = dice.below(self.shards.max(1));
                owning::adopt(self.alloc, lone, &mut self.record, self.shard)
            }
            Turn::Begin => by_hand::begin(lone, &mut self.record, board, dice),
            turn => {
                let record = &mut self.record;
                let key = board.look(&mut lone, record, dice.word());
                keys::take_turn::<P, _>(&mut lone, record, &board.moments, dice, turn, key);
                Actor::Lone(lone)
            }
        }
    }

    // The turn of an owner.
    fn owner_turn<R: Wait>(
        &mut self,
        mut owner: P::Owner,
        board: &Board<'_, R, C>,
        dice: &mut Dice,
    ) -> Actor<P> {
        match turn::of_owner(dice) {
            Turn::Leave => owning::leave::<P>(owner, &mut self.record),
            Turn::Insert => {
                owning::insert::<R, C, P>(&mut owner, &mut self.record, board, dice);
                Actor::Owner(owner)
            }
            Turn::Collect => {
                P::collect(&mut owner);
                Actor::Owner(owner)
            }
            Turn::Prepare => {
                owning::prepare::<P>(&mut owner, &mut self.record, dice);
                Actor::Owner(owner)
            }
            turn => {
                let record = &mut self.record;
                let key = board.look(&mut owner, record, dice.word());
                keys::take_turn::<P, _>(&mut owner, record, &board.moments, dice, turn, key);
                Actor::Owner(owner)
            }
        }
    }

    // Takes the actor out. It is `Moving` until another one is put there.
    fn moving(&mut self) -> Actor<P> {
        mem::replace(&mut self.actor, Actor::Moving)
    }

    // Puts the actor back.
    fn put(&mut self, actor: Actor<P>) {
        self.actor = actor;
    }

    // The turn of a pass that stopped in the middle: it does nothing, or does its next step.
    fn stopped_turn(
        &mut self,
        stopped: P::Stopped,
        task: Task,
        moments: &Moments,
        dice: &mut Dice,
    ) -> Actor<P> {
        if dice.once_in(2) {
            self.record.counts.one(Count::Stands);
            return Actor::Stopped(stopped, task);
        }
        by_hand::go_on::<P>(stopped, task, &mut self.record, moments)
    }

    // The actor after its turn.
    fn turned<R: Wait>(
        &mut self,
        actor: Actor<P>,
        board: &Board<'_, R, C>,
        dice: &mut Dice,
    ) -> Actor<P> {
        match actor {
            Actor::Lone(lone) => self.lone_turn(lone, board, dice),
            Actor::Owner(owner) => self.owner_turn(owner, board, dice),
            Actor::Stopped(stopped, task) => self.stopped_turn(stopped, task, &board.moments, dice),
            Actor::Moving => Actor::Moving,
        }
    }

    /// Takes a turn.
    pub fn turn<R: Wait>(&mut self, board: &Board<'_, R, C>, dice: &mut Dice) {
        let actor = self.moving();
        let turned = self.turned(actor, board, dice);
        self.put(turned);
    }

    // Does the next step of what it began by hand.
    fn go_on(&mut self, moments: &Moments) {
        let gone_on = self.moving().gone_on(&mut self.record, moments);
        self.put(gone_on);
    }

    /// Ends what it began by hand.
    pub fn end_by_hand(&mut self, moments: &Moments) {
        for _ in 0..STEPS_BY_HAND {
            self.go_on(moments);
        }
        if self.actor.is_stopped() {
            self.record.endless();
        }
    }

    /// Walks over all live keys, if it has begun nothing by hand.
    pub fn walk(&mut self, moments: &Moments) {
        match &mut self.actor {
            Actor::Lone(lone) => using::walk(self.alloc, lone, &mut self.record, moments),
            Actor::Owner(owner) => using::walk(self.alloc, owner, &mut self.record, moments),
            _ => {}
        }
    }

    // Releases one of its holds.
    fn release(&mut self, moments: &Moments, number: u64) {
        match &mut self.actor {
            Actor::Lone(lone) => using::release(lone, &mut self.record, moments, number),
            Actor::Owner(owner) => using::release(owner, &mut self.record, moments, number),
            _ => {}
        }
    }

    /// Releases about two thirds of its holds.
    pub fn release_most(&mut self, moments: &Moments, dice: &mut Dice) {
        for number in (0..self.record.holds()).rev() {
            if !dice.once_in(3) {
                self.release(moments, number);
            }
        }
    }

    /// Leaves its shard, if it has one. No pass has a call open, so a refusal to leave is a fault.
    pub fn retire(&mut self) {
        let left = self.moving().left(&mut self.record);
        self.put(left);
        if self.actor.is_owner() {
            self.record.waits();
        }
    }

    /// Fills its shard with values of `len` words, if it has one.
    pub fn fill_own(&mut self, moments: &Moments, len: usize)
        requires { len ≤ 16 }
    {
        if let Actor::Owner(owner) = &mut self.actor {
            owning::fill_own::<P>(owner, &mut self.record, moments, len);
            self.filled = Some(self.shard);
        }
    }

    /// Whether it filled this shard as its owner.
    pub fn has_filled(&self, shard: u64) -> bool {
        self.filled == Some(shard)
    }

    /// Fills a shard that nobody owns with values of `len` words.
    pub fn fill(&mut self, moments: &Moments, shard: u64, len: usize)
        requires { len ≤ 16 }
    {
        let actor = self.moving();
        let filled = actor.filled(self.alloc, &mut self.record, moments, shard, len);
        self.put(filled);
    }

    /// The pass, if it owns nothing and has begun nothing, with its record.
    pub fn finish(self) -> (Option<P>, Record) {
        let Worker {
            actor,
            record,
            shards: _,
            shard: _,
            filled: _,
            alloc: _,
        } = self;
        (actor.into_lone(), record)
    }
}
