//! Workloads in which a shard changes hands: adopt and leave.
ghost use Rattle.std.specs.Prelude.{◌≡◌, IfOk};

use crate::gate::Gate;
use crate::lots::{insert_each, remove_each};
use crate::owners::{adopted, filled, left};
use crate::work;
use crate::work::Work;
use sh_key::KeyLayout;
use sh_pass::Pass;
use sh_shard::Shard;
use std::alloc::{AllocError, Global};
use std::rt::Clock;
use std::thread::Threads;
use std::time::{Duration, Instant};
use tool_load::demand::Demand;
use tool_load::fault::Fault;
use tool_load::options::Options;
use tool_load::outcome::{NOTHING, Outcome};
use tool_load::samples::Samples;
use tool_load::workload::Workload;

// What a thread begins with: its pass, and the shard that it adopts again and again.
#[derive(Drop)]
struct Job<'a, L: KeyLayout> {
    pass: Pass<'a, L>,
    shard: u64,
}

// The values that an owner inserts before it leaves, and their keys.
#[derive(Drop)]
struct Batch {
    samples: Samples,
    keys: Vec<u64>,
}

// The moments at which a shard is handed over.
#[derive(Clone, Copy)]
struct Moments {
    // It is about to be adopted.
    begin: Instant,
    // It was adopted.
    adopted: Instant,
    // It is about to be left.
    used: Instant,
}

impl Moments {
    // The time that adopting or leaving took, if the shard was left at `end`.
    fn spent(&self, end: Instant, workload: Workload) -> Duration {
        match workload {
            Workload::Adopt => self.adopted.duration_since(self.begin),
            _ => end.duration_since(self.used),
        }
    }
}

fn batch_for(alloc: Global, options: &Options) -> Result<Batch, Fault> {
    let samples = Samples::new(alloc, options.lengths)?;
    let keys = vec![in alloc; 0u64; options.freed]?;
    Ok(Batch { samples, keys })
}

// The owner inserts the values of the batch and removes them, so that their slots are its own.
fn use_shard<L: KeyLayout>(
    rt: &impl Clock,
    owner: &mut Shard<'_, L>,
    batch: &mut Batch,
    begin: Instant,
) -> Result<Moments, Fault> {
    let adopted = Instant::now(rt)?;
    insert_each(owner, &batch.samples, batch.keys.as_mut_slice())?;
    remove_each(owner, batch.keys.as_slice())?;
    let used = Instant::now(rt)?;
    Ok(Moments {
        begin,
        adopted,
        used,
    })
}

// The pass, which was an owner until now, and the time that adopting or leaving took.
fn timed<'a, L: KeyLayout>(
    rt: &impl Clock,
    pass: Pass<'a, L>,
    moments: Moments,
    workload: Workload,
) -> Result<(Pass<'a, L>, Duration), Fault> {
    let end = Instant::now(rt)?;
    Ok((pass, moments.spent(end, workload)))
}

// The owner uses its shard, whose adoption began at `begin`, and leaves it.
fn use_and_leave<'a, L: KeyLayout>(
    rt: &impl Clock,
    mut owner: Shard<'a, L>,
    batch: &mut Batch,
    begin: Instant,
    workload: Workload,
) -> Result<(Pass<'a, L>, Duration), Fault> {
    let moments = use_shard(rt, &mut owner, batch, begin)?;
    timed(rt, left(owner)?, moments, workload)
}

// The pass adopts the shard, uses it and leaves it. Adopting or leaving is measured.
fn hand_over<'a, L: KeyLayout>(
    rt: &impl Clock,
    alloc: Global,
    job: Job<'a, L>,
    batch: &mut Batch,
    workload: Workload,
) -> Result<(Job<'a, L>, Outcome), Fault>
    ensures { IfOk result (λ done. done.1.operations ≡ 1) }
{
    let begin = Instant::now(rt)?;
    let Job { pass, shard } = job;
    let owner = adopted(alloc, pass, shard)?;
    let (pass, spent) = use_and_leave(rt, owner, batch, begin, workload)?;
    Ok((Job { pass, shard }, Outcome::of(spent, 1, 0)))
}

// Fills the shard with the live values, one for each key, and leaves it.
fn fill<'a, L: KeyLayout>(
    alloc: Global,
    samples: &Samples,
    job: Job<'a, L>,
    keys: &mut [u64],
) -> Result<Job<'a, L>, Fault> {
    let Job { pass, shard } = job;
    let owner = filled(alloc, pass, shard, samples, keys)?;
    let pass = left(owner)?;
    Ok(Job { pass, shard })
}

// Inserts `values` live values, and returns the job.
fn filled_with<'a, L: KeyLayout>(
    alloc: Global,
    samples: &Samples,
    job: Job<'a, L>,
    values: usize,
) -> Result<Job<'a, L>, Fault> {
    let mut live = vec![in alloc; 0u64; values]?;
    fill(alloc, samples, job, live.as_mut_slice())
}

// Inserts the live values, adopts and leaves the shard once, and returns the job.
fn prepared<'a, L: KeyLayout>(
    rt: &impl Clock,
    alloc: Global,
    options: &Options,
    job: Job<'a, L>,
    batch: &mut Batch,
) -> Result<Job<'a, L>, Fault> {
    let job = filled_with(alloc, &batch.samples, job, options.live)?;
    let (job, _warm) = hand_over(rt, alloc, job, batch, options.workload)?;
    Ok(job)
}

// The measured operations: the shard changes hands, over and over.
fn turns<L: KeyLayout>(
    rt: &impl Clock,
    alloc: Global,
    options: &Options,
    job: Job<'_, L>,
    batch: &mut Batch,
) -> Result<Outcome, Fault>
    ensures { IfOk result (λ outcome. outcome.operations ≡ options.now.operations) }
{
    let mut job = job;
    let mut outcome = NOTHING;
    for _turn in 0..options.operations {
        let (next, done) = hand_over(rt, alloc, job, batch, options.workload)?;
        job = next;
        outcome = outcome.then(done);
    }
    Ok(outcome)
}

// What one thread does: it prepares its shard, and measures after all threads have done so.
fn work_with<L: KeyLayout>(
    rt: &impl Clock,
    alloc: Global,
    gate: &Gate,
    options: &Options,
    job: Job<'_, L>,
    batch: &mut Batch,
) -> Result<Outcome, Fault>
    ensures { IfOk result (λ outcome. outcome.operations ≡ options.now.operations) }
{
    let job = prepared(rt, alloc, options, job, batch)?;
    gate.pass()?;
    turns(rt, alloc, options, job, batch)
}

// What one thread does, with a batch of its own.
fn work<L: KeyLayout>(
    rt: &impl Clock,
    alloc: Global,
    gate: &Gate,
    options: &Options,
    job: Job<'_, L>,
) -> Result<Outcome, Fault>
    ensures { IfOk result (λ outcome. outcome.operations ≡ options.now.operations) }
{
    let mut batch = batch_for(alloc, options)?;
    work_with(rt, alloc, gate, options, job, &mut batch)
}

impl<L: KeyLayout> Work for Job<'_, L> {
    fn run<C: Clock>(
        self,
        rt: &C,
        alloc: Global,
        gate: &Gate,
        options: &Options,
    ) -> Result<Outcome, Fault> {
        work(rt, alloc, gate, options, self)
    }
}

// A job for each thread, with the shard of the thread's number.
fn jobs<'a, L: KeyLayout>(
    alloc: Global,
    passes: &mut Vec<Pass<'a, L>>,
    threads: usize,
) -> Result<Vec<Job<'a, L>>, AllocError> {
    let mut jobs = Vec::new(alloc);
    for thread in 0..threads {
        if let Some(pass) = passes.pop() {
            jobs.push(Job {
                pass,
                shard: thread as u64,
            })?;
        }
    }
    Ok(jobs)
}

/// What the workloads need.
pub fn demand(options: &Options) -> Demand {
    Demand {
        owners: options.threads,
        others: 0,
        passes: options.passes,
        lengths: options.lengths,
        values: options.live + options.freed,
        more: 0,
    }
}

/// Measures shards that change hands, one in each thread.
pub fn measure<L: KeyLayout + Send + Sync, R: Threads + Clock + Sync>(
    rt: &R,
    alloc: Global,
    options: &Options,
    passes: &mut Vec<Pass<'_, L>>,
) -> Result<Outcome, Fault> {
    let jobs = jobs(alloc, passes, options.threads)?;
    work::measure(rt, alloc, options, options.threads, jobs)
}
