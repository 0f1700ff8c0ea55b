//! Workloads of owners: insert, remove, and both in turn.
ghost use Rattle.std.specs.Prelude.{◌≡◌, ◌<◌, IfOk, length};

use crate::gate::Gate;
use crate::lots::{Job, Lot, filled_lots, insert_each, remove_each, share, standing};
use crate::parting::taken;
use crate::work;
use crate::work::Work;
use sh_key::KeyLayout;
use sh_pass::Pass;
use sh_shard::Shard;
use sh_value::{Refusal, Value};
use std::alloc::{AllocError, Global};
use std::rt::Clock;
use std::thread::Threads;
use std::time::Instant;
use tool_load::demand::Demand;
use tool_load::fault::Fault;
use tool_load::options::{MOST_VALUES, Options};
use tool_load::outcome::{NOTHING, Outcome};
use tool_load::samples::Samples;
use tool_load::workload::Workload;

// The number of values that are inserted and then removed together.
const BATCH: usize = 1000;

// Inserts a value for each key, and removes them. One of the two is measured.
fn one_batch<L: KeyLayout>(
    rt: &impl Clock,
    lot: &mut Lot<'_, L>,
    samples: &Samples,
    keys: &mut [u64],
    workload: Workload,
) -> Result<Outcome, Fault>
    ensures operations { IfOk result (λ outcome. outcome.operations ≡ length keys.old) }
    ensures standing { IfOk result (λ outcome. outcome.standing ≡ 0) }
{
    let start = Instant::now(rt)?;
    let sum = insert_each(&mut lot.owner, samples, keys)?;
    let middle = Instant::now(rt)?;
    remove_each(&mut lot.owner, keys)?;
    let end = Instant::now(rt)?;
    let spent = match workload {
        Workload::Remove => end.duration_since(middle),
        _ => middle.duration_since(start),
    };
    Ok(Outcome::of(spent, keys.len(), sum))
}

// The measured operations, in batches.
fn batches<L: KeyLayout>(
    rt: &impl Clock,
    lot: &mut Lot<'_, L>,
    samples: &Samples,
    operations: usize,
    workload: Workload,
) -> Result<Outcome, Fault>
    ensures { IfOk result (λ outcome. outcome.operations ≡ operations) }
{
    let mut keys = [0u64; BATCH];
    one_batch(rt, lot, samples, &mut keys, workload)?;
    let mut outcome = NOTHING;
    for _batch in 0..operations / BATCH {
        outcome = outcome.then(one_batch(rt, lot, samples, &mut keys, workload)?);
    }
    let rest = &mut keys[..operations % BATCH];
    Ok(outcome.then(one_batch(rt, lot, samples, rest, workload)?))
}

// Inserts `operations` values, and removes none.
fn fill<L: KeyLayout>(
    rt: &impl Clock,
    alloc: Global,
    lot: &mut Lot<'_, L>,
    samples: &Samples,
    operations: usize,
) -> Result<Outcome, Fault>
    ensures { IfOk result (λ outcome. outcome.operations ≡ operations) }
{
    let mut keys = vec![in alloc; 0u64; operations]?;
    let start = Instant::now(rt)?;
    let sum = insert_each(&mut lot.owner, samples, keys.as_mut_slice())?;
    Ok(Outcome::of(start.elapsed(rt)?, operations, sum))
}

// Removes the value of the key, inserts this one, and returns its key.
fn churn_one<L: KeyLayout>(
    owner: &mut Shard<'_, L>,
    key: u64,
    value: &Value,
) -> Result<u64, Refusal> {
    owner.remove(key)?;
    owner.insert(value)
}

// Goes through the places, and at each one removes the value and inserts another of its length.
fn churn_each<L: KeyLayout>(
    lot: &mut Lot<'_, L>,
    samples: &Samples,
    turns: usize,
) -> Result<u64, Refusal> {
    let mut sum = 0u64;
    for place in lot.order.iter().take(turns) {
        if let Some(key) = lot.keys.get_mut(*place) {
            *key = churn_one(&mut lot.owner, *key, samples.at(*place))?;
            sum = sum.wrapping_add(*key);
        }
    }
    Ok(sum)
}

// The measured operations: rounds through all places, and a last one through some.
fn churn_rounds<L: KeyLayout>(
    lot: &mut Lot<'_, L>,
    samples: &Samples,
    operations: usize,
) -> Result<u64, Refusal> {
    let places = lot.order.len();
    if places == 0 {
        return Ok(0);
    }
    let mut sum = 0u64;
    for _round in 0..operations / places {
        sum = sum.wrapping_add(churn_each(lot, samples, places)?);
    }
    Ok(sum.wrapping_add(churn_each(lot, samples, operations % places)?))
}

fn churn<L: KeyLayout>(
    rt: &impl Clock,
    lot: &mut Lot<'_, L>,
    samples: &Samples,
    operations: usize,
) -> Result<Outcome, Fault>
    ensures { IfOk result (λ outcome. outcome.operations ≡ operations) }
{
    churn_each(lot, samples, BATCH)?;
    let start = Instant::now(rt)?;
    let sum = churn_rounds(lot, samples, operations)?;
    Ok(Outcome::of(start.elapsed(rt)?, operations, sum))
}

fn measure_lot<L: KeyLayout>(
    rt: &impl Clock,
    alloc: Global,
    options: &Options,
    lot: &mut Lot<'_, L>,
    samples: &Samples,
    operations: usize,
) -> Result<Outcome, Fault>
    ensures { IfOk result (λ outcome. outcome.operations ≡ operations) }
{
    let mut outcome = match options.workload {
        Workload::Churn => churn(rt, lot, samples, operations)?,
        Workload::Fill => fill(rt, alloc, lot, samples, operations)?,
        workload => batches(rt, lot, samples, operations, workload)?,
    };
    outcome.standing = standing(lot, samples)?;
    Ok(outcome)
}

// Measures the shards of one thread, one after the other.
fn measure_lots<L: KeyLayout>(
    rt: &impl Clock,
    alloc: Global,
    options: &Options,
    lots: &mut [Lot<'_, L>],
    samples: &Samples,
) -> Result<Outcome, Fault> {
    let parts = lots.len();
    let mut outcome = NOTHING;
    for (number, lot) in lots.iter_mut().enumerate() {
        let operations = share(options.operations, parts, number);
        outcome = outcome.then(measure_lot(rt, alloc, options, lot, samples, operations)?);
    }
    Ok(outcome)
}

// What one thread of owners does, with these values.
fn work<L: KeyLayout>(
    rt: &impl Clock,
    alloc: Global,
    gate: &Gate,
    options: &Options,
    job: Job<'_, L>,
    samples: &Samples,
) -> Result<Outcome, Fault> {
    let mut lots = filled_lots(alloc, job, samples, options.live)?;
    gate.pass()?;
    measure_lots(rt, alloc, options, lots.as_mut_slice(), samples)
}

impl<L: KeyLayout> Work for Job<'_, L> {
    fn run<C: Clock>(
        self,
        rt: &C,
        alloc: Global,
        gate: &Gate,
        options: &Options,
    ) -> Result<Outcome, Fault> {
        let samples = Samples::new(alloc, options.lengths)?;
        work(rt, alloc, gate, options, self, &samples)
    }
}

// The jobs of the threads, each with passes for `shards` shards.
fn jobs<'a, L: KeyLayout>(
    alloc: Global,
    passes: &mut Vec<Pass<'a, L>>,
    threads: usize,
    shards: usize,
) -> Result<Vec<Job<'a, L>>, AllocError> {
    let mut jobs = Vec::new(alloc);
    for thread in 0..threads {
        jobs.push(Job {
            passes: taken(alloc, passes, shards)?,
            first_shard: (thread as u64).wrapping_mul(shards as u64),
        })?;
    }
    Ok(jobs)
}

/// What the workloads need.
pub fn demand(options: &Options) -> Demand {
    let (filled, more) = match options.workload {
        Workload::Churn => (0, 0),
        Workload::Fill => (options.operations.min(MOST_VALUES as usize), 0),
        _ => (0, BATCH),
    };
    Demand {
        owners: options.threads,
        others: 0,
        passes: options.passes,
        lengths: options.lengths,
        values: options.live + filled,
        more,
    }
}

/// Measures owners, each in a thread of its own with `shards` shards.
pub fn measure<L: KeyLayout + Send + Sync, R: Threads + Clock + Sync>(
    rt: &R,
    alloc: Global,
    options: &Options,
    passes: &mut Vec<Pass<'_, L>>,
    shards: usize,
) -> Result<Outcome, Fault> {
    let jobs = jobs(alloc, passes, options.threads, shards)?;
    work::measure(rt, alloc, options, options.threads, jobs)
}
