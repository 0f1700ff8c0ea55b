//! Rounds on models: the heaps of a run, one of whose rounds may have a heap with a defect.
use crate::rounds::callers::ModelCaller;
use crate::rounds::defect::Defect;
use crate::rounds::model::Model;
use crate::rounds::passes::ModelPass;
use sh_shape::Shape;
use std::alloc::Global;
use std::sync::atomic::{AtomicU64, Ordering};
use std::sync::{Mutex, Wait};
use std::thread::Threads;
use tool_judge::dice::Dice;
use tool_judge::fault::{Call, Fault, Wrong};
use tool_rounds::plan::Plan;
use tool_rounds::program::Heaps;
use tool_rounds::round::{Outcome, play};

/// Models for a run. The round of this number has a heap with a defect.
#[derive(Drop)]
pub struct Models {
    pub defect: Defect,
    pub broken_round: u64,
    /// How many rounds were played.
    pub rounds: AtomicU64,
}

// The passes of a model.
fn passes<'a, R: Wait>(
    rt: &'a R,
    alloc: Global,
    model: &'a Mutex<Model>,
    defect: Defect,
    count: u32,
) -> Result<Vec<ModelPass<'a, R>>, Fault> {
    let mut passes = Vec::new(alloc);
    for _ in 0..count {
        if passes.push(ModelPass::new(rt, model, defect)).is_err() {
            return Err(Fault::Memory);
        }
    }
    Ok(passes)
}

// The plan for a heap of one shard, or for one whose chunks have one shard each, and the shape of that.
fn small(plan: &Plan) -> Result<(Plan, Shape), Fault> {
    let plan = Plan {
        shards: 1,
        segments: 1,
        ..*plan
    };
    match Shape::new(1, 1, plan.all_passes()) {
        Ok(shape) => Ok((plan, shape)),
        Err(refusal) => Err(Fault::Wrong(Wrong::Refused(0, Call::Open, refusal))),
    }
}

/// Plays a round on a model with this defect.
pub fn played<R: Threads + Wait + Sync>(
    rt: &R,
    alloc: Global,
    plan: &Plan,
    defect: Defect,
    dice: &mut Dice,
) -> Outcome {
    let (plan, shape) = match small(plan) {
        Ok(small) => small,
        Err(fault) => return Outcome::unbegun(alloc, fault),
    };
    let model = Mutex::new(Model::new(alloc, defect));
    match passes(rt, alloc, &model, defect, plan.all_passes()) {
        Ok(passes) => play(rt, alloc, &plan, &[shape], passes, dice),
        Err(fault) => Outcome::unbegun(alloc, fault),
    }
}

// The callers of a heap of two chunks.
fn callers<'a, R: Wait>(
    rt: &'a R,
    alloc: Global,
    first: &'a Mutex<Model>,
    second: &'a Mutex<Model>,
    defect: Defect,
    count: u32,
) -> Result<Vec<ModelCaller<'a, R>>, Fault> {
    let mut callers = Vec::new(alloc);
    for _ in 0..count {
        let caller = ModelCaller::new(rt, first, second, defect);
        if callers.push(caller).is_err() {
            return Err(Fault::Memory);
        }
    }
    Ok(callers)
}

/// Plays a round on a heap that grows from one chunk to two, each a model. The second one has this defect.
pub fn grown<R: Threads + Wait + Sync>(
    rt: &R,
    alloc: Global,
    plan: &Plan,
    defect: Defect,
    dice: &mut Dice,
) -> Outcome {
    let (plan, shape) = match small(plan) {
        Ok(small) => small,
        Err(fault) => return Outcome::unbegun(alloc, fault),
    };
    let first = Mutex::new(Model::new(alloc, Defect::Sound));
    let second = Mutex::new(Model::new(alloc, defect));
    match callers(rt, alloc, &first, &second, defect, plan.all_passes()) {
        Ok(callers) => play(rt, alloc, &plan, &[shape, shape], callers, dice),
        Err(fault) => Outcome::unbegun(alloc, fault),
    }
}

impl Heaps for Models {
    fn play<R: Threads + Wait + Sync>(
        &self,
        rt: &R,
        alloc: Global,
        round: u64,
        plan: &Plan,
        dice: &mut Dice,
    ) -> Outcome {
        self.rounds.fetch_add(1, Ordering::SeqCst);
        let defect = if round == self.broken_round {
            self.defect
        } else {
            Defect::Sound
        };
        played(rt, alloc, plan, defect, dice)
    }
}
