//! Heaps that grow: the callers of one, and a round on a new one.
ghost use Rattle.std.specs.Prelude.{◌≡◌, Some};

use crate::home::{GrownHomeReceipt, Home};
use crate::lone::met;
use crate::opened::unopened;
use sh_chunk::Chunked;
use sh_core::Accounts;
use sh_grown::{Caller, Growing, GrowingShare, NotTold, chunk_shape};
use sh_shape::{SEGMENT_PAGES, SLOT_PLACES, Shape};
use sh_step::Action;
use sh_value::{Hold, Refusal, Value, WORDS_MAX};
use std::alloc::Global;
use std::marker::{Brand, PhantomData};
use std::sync::Wait;
use std::thread::Threads;
use tool_judge::dice::Dice;
use tool_judge::fault::{Fault, Wrong};
use tool_rounds::pass::{LonePass, PageName};
use tool_rounds::plan::Plan;
use tool_rounds::round;
use tool_rounds::round::Outcome;
use tool_rounds::user::{Met, User};

/// A caller of the growing heap that `H` names, whether it owns shards or not.
#[derive(Drop)]
pub struct Grower<H: Home> {
    caller: Caller,
    growing: GrowingShare,
    alloc: Global,
    home: PhantomData<H>,
    ghost at_home: { H.growing ≡ Some caller.growing },
}

impl<H: Home + Send> User for Grower<H> {
    type Receipt = GrownHomeReceipt<H>;

    fn get(&mut self, key: u64) -> Result<Hold, Refusal> {
        self.caller.get(key)
    }

    // A caller has no guards. It gets the key, and reads into the value.
    fn guard(&mut self, key: u64, value: &mut Value) -> Result<Hold, Refusal> {
        let hold = self.caller.get(key)?;
        self.caller.read_into(hold, value)?;
        Ok(hold)
    }

    fn read(&mut self, hold: Hold) -> Result<Value, Refusal> {
        self.caller.read(hold)
    }

    fn look(&mut self, key: u64) -> Result<Value, Refusal> {
        self.caller.look(key)
    }

    fn with(&mut self, key: u64) -> Result<Value, Refusal> {
        let mut value = Value::empty();
        self.caller.look_into(key, &mut value)?;
        Ok(value)
    }

    fn take(&mut self, key: u64) -> Result<Value, Refusal> {
        let mut value = Value::empty();
        self.caller.take_into(key, WORDS_MAX, &mut value)?;
        Ok(value)
    }

    fn next_live(&mut self, from: u64) -> Result<Option<Met>, Refusal> {
        Ok(self.caller.next_live(from, u64::MAX)?.map(met))
    }

    fn remove(&mut self, key: u64) -> Result<(), Refusal> {
        self.caller.remove(key)
    }

    fn release(&mut self, hold: Hold) -> Result<(), Refusal> {
        self.caller.release(hold)
    }

    fn get_ended(&mut self, key: u64, words: &mut Value) -> (Result<Hold, Refusal>, Option<u64>) {
        self.caller.get_ended(key, words)
    }

    fn remove_ended(&mut self, key: u64, words: &mut Value) -> (Result<(), Refusal>, Option<u64>) {
        self.caller.remove_ended(key, words)
    }

    fn release_ended(
        &mut self,
        hold: Hold,
        words: &mut Value,
    ) -> (Result<(), Refusal>, Option<u64>) {
        self.caller.release_ended(hold, words)
    }

    fn receipt(&mut self) -> GrownHomeReceipt<H> {
        GrownHomeReceipt::new(self.caller.receipt())
    }

    fn heed(&mut self, told: GrownHomeReceipt<H>) -> Result<(), Refusal> {
        self.caller.heed(told.into_receipt())
    }
}

impl<H: Home + Send> LonePass for Grower<H> {
    type Layout = Chunked;

    type Owner = Self;

    // No call of a caller is made by hand.
    type Stopped = Self;

    type Whole = GrowingShare;

    fn split(key: u64) -> (u32, u64) {
        let (chunk, within) = Chunked::split(key);
        (u32::from(chunk), within)
    }

    // It adopts shards as it inserts.
    fn adopt(self, _alloc: Global, _shard: u64) -> Result<Self, (Self, Refusal)> {
        Ok(self)
    }

    // A caller that owns no shard and finds none free has no room either, so a round counts it as full.
    fn insert(owner: &mut Self, value: &Value) -> Result<u64, Refusal> {
        match owner.caller.insert(owner.alloc, value) {
            Err(Refusal::NoShard) => Err(Refusal::Full),
            answer => answer,
        }
    }

    fn collect(owner: &mut Self) {
        owner.caller.collect();
    }

    fn prepare(_owner: &mut Self, _class: u32) -> Result<(), Refusal> {
        Ok(())
    }

    fn leave(owner: Self) -> Result<Self, (Self, Refusal)> {
        let mut grower = owner;
        match grower.caller.leave() {
            Ok(()) => Ok(grower),
            Err(refusal) => Err((grower, refusal)),
        }
    }

    fn begin(self) -> Result<Self, Self> {
        Err(self)
    }

    fn act(_stopped: &mut Self, _action: &Action) -> bool {
        false
    }

    fn end(stopped: Self) -> Result<Self, Self> {
        Ok(stopped)
    }

    // The other gives its passes back to the pools of the chunks.
    fn join(self, other: Self) -> Self {
        other.caller.give_back();
        self
    }

    fn whole(self) -> Result<GrowingShare, Fault> {
        let Grower {
            caller,
            growing,
            alloc,
            home: _,
        } = self;
        caller.give_back();
        match growing.heap().gather(alloc) {
            Ok(()) => Ok(growing),
            Err(NotTold::Memory) => Err(Fault::Memory),
            Err(_) => Err(Fault::Wrong(Wrong::Apart)),
        }
    }

    fn accounts(whole: &mut GrowingShare, name: PageName) -> Option<Accounts> {
        let chunk = whole.heap().chunk(name.chunk as usize)?;
        chunk.accounts(name.shard, name.page).ok()
    }
}

// A new heap that grows. Its first chunk has the shards and segments of the plan: those with room for as many values of
// one word as they have slots.
fn opened(alloc: Global, plan: &Plan) -> Result<GrowingShare, Refusal> {
    let values = u64::from(plan.segments) * u64::from(SEGMENT_PAGES * SLOT_PLACES);
    let chunks = plan.chunks as usize;
    GrowingShare::open_for(alloc, plan.shards, values, 1, plan.all_passes(), chunks)
}

// The shapes of all chunks that the heap may have.
fn shapes(alloc: Global, plan: &Plan, growing: &Growing) -> Result<Vec<Shape>, Refusal> {
    let passes = growing.passes();
    let mut shapes = Vec::new(alloc);
    shapes.push(Shape::large(plan.shards, plan.segments, passes)?)?;
    for number in 1..growing.chunks_allowed() {
        shapes.push(chunk_shape(number as u8, passes))?;
    }
    Ok(shapes)
}

// All callers of the growing heap that `H` names.
fn callers<H: Home>(alloc: Global, growing: &GrowingShare) -> Result<Vec<Grower<H>>, Refusal>
    requires { H.growing ≡ Some growing.now }
{
    let mut growers = Vec::new(alloc);
    for _ in 0..growing.heap().passes() {
        growers.push(Grower {
            caller: growing.claim(alloc)?,
            growing: growing.share()?,
            alloc,
            home: PhantomData,
        })?;
    }
    Ok(growers)
}

// The shapes of all chunks of the growing heap that `H` names, and its callers.
fn begun<H: Home>(
    alloc: Global,
    plan: &Plan,
    growing: &GrowingShare,
) -> Result<(Vec<Shape>, Vec<Grower<H>>), Refusal>
    requires { H.growing ≡ Some growing.now }
{
    let shapes = shapes(alloc, plan, growing.heap())?;
    let growers = callers(alloc, growing)?;
    Ok((shapes, growers))
}

// A round on the growing heap that `H` names.
fn worked<H: Home + Send, R: Threads + Wait + Sync>(
    rt: &R,
    alloc: Global,
    plan: &Plan,
    growing: &GrowingShare,
    dice: &mut Dice,
) -> Outcome
    requires { H.growing ≡ Some growing.now }
{
    let begun: Result<(Vec<Shape>, Vec<Grower<H>>), Refusal> = begun(alloc, plan, growing);
    match begun {
        Ok((shapes, growers)) => round::play(rt, alloc, plan, shapes.as_slice(), growers, dice),
        Err(refusal) => Outcome::unbegun(alloc, unopened(refusal)),
    }
}

/// Plays a round on a new heap that grows.
pub fn play<R: Threads + Wait + Sync>(
    rt: &R,
    alloc: Global,
    plan: &Plan,
    dice: &mut Dice,
) -> Outcome {
    match opened(alloc, plan) {
        Ok(growing) => worked::<Brand, R>(rt, alloc, plan, &growing, dice),
        Err(refusal) => Outcome::unbegun(alloc, unopened(refusal)),
    }
}
