//! The end of a round: it ends all that was begun, fills all shards, and joins all passes.
//!
//! An adoption files all pages of a shard again, so it may hide that a page was lost. So in every second round the
//! owners of that moment fill their shards, before they leave. The other shards are adopted, filled and left.
ghost use Rattle.std.specs.Prelude.{◌≤◌};

use crate::ends::Ends;
use crate::history::History;
use crate::judging::Judge;
use crate::moments::Moments;
use crate::pass::LonePass;
use crate::plan::Plan;
use crate::round::Outcome;
use crate::worker::Worker;
use sh_shape::{Shape, class_of};
use std::alloc::Global;
use tool_judge::counts::Counts;
use tool_judge::dice::Dice;
use tool_judge::end::End;
use tool_judge::fault::{Fault, Wrong};
use tool_judge::line::Line;
use tool_judge::record::Record;
use tool_judge::walk::Walk;

// Ends what was begun by hand, and releases most holds.
fn settle<C: Drop, P: LonePass<Receipt = C>>(
    workers: &mut [Worker<P>],
    moments: &Moments,
    dice: &mut Dice,
) {
    for worker in workers.iter_mut() {
        worker.end_by_hand(moments);
    }
    for worker in workers.iter_mut() {
        worker.release_most(moments, dice);
    }
}

// Each owner fills its shard with values of `len` words.
fn fill_owned<C: Drop, P: LonePass<Receipt = C>>(
    workers: &mut [Worker<P>],
    moments: &Moments,
    len: usize,
)
    requires { len ≤ 16 }
{
    for worker in workers.iter_mut() {
        worker.fill_own(moments, len);
    }
}

// Each owner leaves its shard.
fn retire<C: Drop, P: LonePass<Receipt = C>>(workers: &mut [Worker<P>]) {
    for worker in workers.iter_mut() {
        worker.retire();
    }
}

// The first pass adopts each shard that was not filled, and fills it with values of `len` words. Nobody owns a shard.
fn fill_others<C: Drop, P: LonePass<Receipt = C>>(
    workers: &mut [Worker<P>],
    moments: &Moments,
    shards: u32,
    len: usize,
)
    requires { len ≤ 16 }
{
    for shard in 0..u64::from(shards) {
        let is_filled = workers.iter().any(|worker| worker.has_filled(shard));
        if let (false, Some(worker)) = (is_filled, workers.first_mut()) {
            worker.fill(moments, shard, len);
        }
    }
}

// Fills each shard with values of one random length, and returns their class. Then nobody owns a shard.
fn fill<C: Drop, P: LonePass<Receipt = C>>(
    workers: &mut [Worker<P>],
    moments: &Moments,
    shards: u32,
    dice: &mut Dice,
) -> u32 {
    let len = dice.below(17) as usize;
    if dice.once_in(2) {
        fill_owned(workers, moments, len);
    }
    retire(workers);
    fill_others(workers, moments, shards, len);
    retire(workers);
    class_of(len).unwrap_or(0)
}

// Adds the log, the walks, the ends and the counts of a pass to those of the others. A fault of the pass is a fault of the round.
fn take_in(
    record: Record,
    counts: &mut Counts,
    lines: &mut Vec<Line>,
    walks: &mut Vec<Walk>,
    ends: &mut Vec<End>,
) -> Result<(), Fault> {
    let fault = record.fault();
    counts.take_in(&record.counts);
    let (mut told, mut walked, mut ended) = record.into_parts();
    lines.append(&mut told)?;
    walks.append(&mut walked)?;
    ends.append(&mut ended)?;
    match fault {
        Some(fault) => Err(fault),
        None => Ok(()),
    }
}

// The passes joined so far: the one that carries the tales of all, the lines of all their logs, and the first fault.
#[derive(Drop)]
struct Gathered<P: LonePass> {
    carrier: Option<P>,
    counts: Counts,
    lines: Vec<Line>,
    walks: Vec<Walk>,
    ends: Vec<End>,
    fault: Option<Fault>,
}

// The carrier joined with one more pass, or that pass if it is the first.
fn joined<P: LonePass>(carrier: Option<P>, lone: P) -> P {
    match carrier {
        Some(carrier) => carrier.join(lone),
        None => lone,
    }
}

impl<C: Drop, P: LonePass<Receipt = C>> Gathered<P> {
    // Notes a fault. The first one stays.
    fn note(&mut self, done: Result<(), Fault>) {
        if let (Err(fault), None) = (done, self.fault) {
            self.fault = Some(fault);
        }
    }

    // Joins one more pass. A worker that still owns a shard or has begun a call gives no pass, which is a fault.
    fn meet(&mut self, lone: Option<P>) -> Result<(), Fault> {
        let Some(lone) = lone else {
            return Err(Fault::Wrong(Wrong::Apart));
        };
        self.carrier = Some(joined(self.carrier.take(), lone));
        Ok(())
    }

    // Adds one more worker: its log, its counts and its pass.
    fn gather(&mut self, worker: Worker<P>) {
        let (lone, record) = worker.finish();
        let taken = take_in(
            record,
            &mut self.counts,
            &mut self.lines,
            &mut self.walks,
            &mut self.ends,
        );
        let met = self.meet(lone);
        self.note(taken);
        self.note(met);
    }
}

// Joins all passes. All lines are gathered, also if a pass found a fault.
fn gather_all<C: Drop, P: LonePass<Receipt = C>>(
    alloc: Global,
    workers: Vec<Worker<P>>,
) -> Gathered<P> {
    let mut gathered = Gathered {
        carrier: None,
        counts: Counts::new(),
        lines: Vec::new(alloc),
        walks: Vec::new(alloc),
        ends: Vec::new(alloc),
        fault: None,
    };
    for worker in workers {
        gathered.gather(worker);
    }
    gathered
}

/// Ends a round on a heap whose chunks have these shapes, and returns what came of it.
pub fn ended<C: Drop, P: LonePass<Receipt = C>>(
    alloc: Global,
    plan: &Plan,
    shapes: &[Shape],
    moments: &Moments,
    mut workers: Vec<Worker<P>>,
    dice: &mut Dice,
) -> Outcome {
    settle(workers.as_mut_slice(), moments, dice);
    let class = fill(workers.as_mut_slice(), moments, plan.shards, dice);
    let Gathered {
        carrier,
        mut counts,
        mut lines,
        walks,
        ends,
        fault,
    } = gather_all(alloc, workers);
    let passes = plan.all_passes();
    let judged = match (fault, carrier) {
        (Some(fault), _) => Err(fault),
        (None, Some(carrier)) => {
            let judge = Judge {
                alloc,
                passes,
                shapes,
                class,
            };
            let ends = Ends::new(plan.tells_ends, ends);
            judge.verdict(carrier, &mut lines, walks.as_slice(), ends, &mut counts)
        }
        (None, None) => Err(Fault::Wrong(Wrong::Apart)),
    };
    Outcome {
        counts: judged.map(|_| counts),
        history: History::of::<P::Layout>(alloc, passes, lines),
    }
}
