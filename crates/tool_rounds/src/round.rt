//! A round: threads work on a heap of its own, until all passes are joined and all results judged.
use crate::board::Board;
use crate::history::History;
use crate::pass::LonePass;
use crate::plan::Plan;
use crate::worker::Worker;
use crate::{crew, ending};
use sh_shape::Shape;
use std::alloc::Global;
use std::sync::Wait;
use std::thread;
use std::thread::Threads;
use tool_judge::counts::Counts;
use tool_judge::dice::Dice;
use tool_judge::fault::Fault;

/// What came of a round.
#[derive(Drop)]
pub struct Outcome {
    /// How often each result was returned, or the fault that was found.
    pub counts: Result<Counts, Fault>,
    /// What all calls returned, up to the fault.
    pub history: History,
}

impl Outcome {
    /// The outcome of a round that could not begin.
    pub fn unbegun(alloc: Global, fault: Fault) -> Outcome {
        Outcome {
            counts: Err(fault),
            history: History::empty(alloc),
        }
    }
}

// The passes, which have done nothing.
fn workers<C: Drop, P: LonePass<Receipt = C>>(
    alloc: Global,
    plan: &Plan,
    lones: Vec<P>,
) -> Result<Vec<Worker<P>>, Fault> {
    let mut workers = Vec::new(alloc);
    let mut number = 0u32;
    for lone in lones {
        let worker = Worker::new(alloc, lone, number, plan);
        if workers.push(worker).is_err() {
            return Err(Fault::Memory);
        }
        number = number.wrapping_add(1);
    }
    Ok(workers)
}

// Runs all workers, those of each thread in that thread. They share the board.
fn work<C: Drop + Send, P: LonePass<Receipt = C> + Send, R: Threads + Wait + Sync>(
    rt: &R,
    plan: &Plan,
    workers: &mut [Worker<P>],
    board: &Board<'_, R, C>,
    seed: u64,
) {
    let steps = plan.steps;
    thread::for_each_chunk_mut(
        rt,
        workers,
        plan.passes.max(1) as usize,
        &|start: usize, part: &mut [Worker<P>]| {
            let mut dice = Dice::new(seed.wrapping_add(start as u64));
            crew::run(part, board, &mut dice, steps);
        },
    );
}

/// Plays a round with all passes of a heap, and returns what came of it. The heap must be new: nothing was inserted,
/// and no shard has an owner. The shapes are those of all chunks that it may have: one, if it does not grow.
pub fn play<C: Drop + Send, P: LonePass<Receipt = C> + Send, R: Threads + Wait + Sync>(
    rt: &R,
    alloc: Global,
    plan: &Plan,
    shapes: &[Shape],
    lones: Vec<P>,
    dice: &mut Dice,
) -> Outcome {
    let board: Board<'_, R, C> = match Board::new(rt, alloc) {
        Ok(board) => board,
        Err(_) => return Outcome::unbegun(alloc, Fault::Memory),
    };
    let mut workers = match workers(alloc, plan, lones) {
        Ok(workers) => workers,
        Err(fault) => return Outcome::unbegun(alloc, fault),
    };
    work(rt, plan, workers.as_mut_slice(), &board, dice.word());
    ending::ended(alloc, plan, shapes, &board.moments, workers, dice)
}
