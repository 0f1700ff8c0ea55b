//! The workload of producers and consumers: an owner inserts, and a pass in another thread removes.
ghost use Rattle.std.specs.Prelude.{◌≡◌, IfOk};

use crate::gate::{Gate, LOOKS};
use crate::owners::adopted;
use crate::ring::Ring;
use crate::work;
use crate::work::Work;
use sh_key::KeyLayout;
use sh_pass::Pass;
use sh_shard::Shard;
use sh_value::{Refusal, Value};
use std::alloc::{AllocError, Global};
use std::rt::Clock;
use std::thread::Threads;
use std::time::Instant;
use tool_load::demand::Demand;
use tool_load::fault::Fault;
use tool_load::options::Options;
use tool_load::outcome::Outcome;
use tool_load::samples::Samples;

// The least number of values that a producer's shard has room for: a few times those that are on their way.
const ROOM: usize = 4096;

// The role of a thread of a pair.
#[derive(Clone, Copy)]
enum Side {
    // It owns the shard with this number, and inserts.
    Producer(u64),
    // It removes.
    Consumer,
}

// What a thread of a pair begins with.
#[derive(Drop)]
struct Job<'a, 'r, L: KeyLayout> {
    pass: Pass<'a, L>,
    ring: &'r Ring,
    side: Side,
}

// Inserts a value. If the shard is full, waits until a slot is freed.
fn insert_in_time<L: KeyLayout>(owner: &mut Shard<'_, L>, value: &Value) -> Result<u64, Fault> {
    for _look in 0..LOOKS {
        match owner.insert(value) {
            Ok(key) => return Ok(key),
            Err(Refusal::Full) => {}
            Err(refusal) => return Err(Fault::Refused(refusal)),
        }
    }
    Err(Fault::Late)
}

fn produce<L: KeyLayout>(
    owner: &mut Shard<'_, L>,
    ring: &Ring,
    samples: &Samples,
    operations: usize,
) -> Result<(), Fault> {
    for number in 0..operations {
        let key = insert_in_time(owner, samples.at(number))?;
        ring.put(number, key)?;
    }
    Ok(())
}

fn consume<L: KeyLayout>(
    pass: &mut Pass<'_, L>,
    ring: &Ring,
    operations: usize,
) -> Result<(), Fault> {
    for number in 0..operations {
        let key = ring.take(number)?;
        pass.remove(key)?;
    }
    Ok(())
}

// The measured operations of a producer.
fn produce_timed<L: KeyLayout>(
    rt: &impl Clock,
    owner: &mut Shard<'_, L>,
    ring: &Ring,
    samples: &Samples,
    operations: usize,
) -> Result<Outcome, Fault>
    ensures { IfOk result (λ outcome. outcome.operations ≡ operations) }
{
    let start = Instant::now(rt)?;
    produce(owner, ring, samples, operations)?;
    Ok(Outcome::of(start.elapsed(rt)?, operations, 0))
}

// What a producer does.
fn produce_all<L: KeyLayout>(
    rt: &impl Clock,
    alloc: Global,
    gate: &Gate,
    options: &Options,
    owner: &mut Shard<'_, L>,
    ring: &Ring,
) -> Result<Outcome, Fault>
    ensures { IfOk result (λ outcome. outcome.operations ≡ options.now.operations) }
{
    let samples = Samples::new(alloc, options.lengths)?;
    gate.pass()?;
    produce_timed(rt, owner, ring, &samples, options.operations)
}

// What a consumer does.
fn consume_all<L: KeyLayout>(
    rt: &impl Clock,
    gate: &Gate,
    options: &Options,
    pass: &mut Pass<'_, L>,
    ring: &Ring,
) -> Result<Outcome, Fault>
    ensures { IfOk result (λ outcome. outcome.operations ≡ 0) }
{
    gate.pass()?;
    let start = Instant::now(rt)?;
    consume(pass, ring, options.operations)?;
    Ok(Outcome::of(start.elapsed(rt)?, 0, 0))
}

// What the thread of a producer does.
fn be_producer<L: KeyLayout>(
    rt: &impl Clock,
    alloc: Global,
    gate: &Gate,
    options: &Options,
    pass: Pass<'_, L>,
    ring: &Ring,
    shard: u64,
) -> Result<Outcome, Fault>
    ensures { IfOk result (λ outcome. outcome.operations ≡ options.now.operations) }
{
    let mut owner = adopted(alloc, pass, shard)?;
    produce_all(rt, alloc, gate, options, &mut owner, ring)
}

impl<L: KeyLayout> Work for Job<'_, '_, L> {
    fn run<C: Clock>(
        self,
        rt: &C,
        alloc: Global,
        gate: &Gate,
        options: &Options,
    ) -> Result<Outcome, Fault> {
        let Job {
            mut pass,
            ring,
            side,
        } = self;
        match side {
            Side::Producer(shard) => be_producer(rt, alloc, gate, options, pass, ring, shard),
            Side::Consumer => consume_all(rt, gate, options, &mut pass, ring),
        }
    }
}

// The jobs of each pair: one for its producer and one for its consumer.
fn jobs<'a, 'r, L: KeyLayout>(
    alloc: Global,
    passes: &mut Vec<Pass<'a, L>>,
    rings: &'r [Ring],
) -> Result<Vec<Job<'a, 'r, L>>, AllocError> {
    let mut jobs = Vec::new(alloc);
    for (pair, ring) in rings.iter().enumerate() {
        for side in [Side::Producer(pair as u64), Side::Consumer] {
            if let Some(pass) = passes.pop() {
                jobs.push(Job { pass, ring, side })?;
            }
        }
    }
    Ok(jobs)
}

fn rings(alloc: Global, pairs: usize) -> Result<Vec<Ring>, AllocError> {
    let mut rings = Vec::new(alloc);
    for _pair in 0..pairs {
        rings.push(Ring::new(alloc)?)?;
    }
    Ok(rings)
}

/// What the workload needs.
pub fn demand(options: &Options) -> Demand {
    Demand {
        owners: options.threads,
        others: options.threads,
        passes: options.passes,
        lengths: options.lengths,
        values: ROOM,
        more: 0,
    }
}

// Measures pairs of threads, with a ring for each pair.
fn measure_rings<L: KeyLayout + Send + Sync, R: Threads + Clock + Sync>(
    rt: &R,
    alloc: Global,
    options: &Options,
    passes: &mut Vec<Pass<'_, L>>,
    rings: &[Ring],
) -> Result<Outcome, Fault> {
    let jobs = jobs(alloc, passes, rings)?;
    work::measure(rt, alloc, options, 2 * options.threads, jobs)
}

/// Measures pairs of threads, one of which inserts and the other removes.
pub fn measure<L: KeyLayout + Send + Sync, R: Threads + Clock + Sync>(
    rt: &R,
    alloc: Global,
    options: &Options,
    passes: &mut Vec<Pass<'_, L>>,
) -> Result<Outcome, Fault> {
    let rings = rings(alloc, options.threads)?;
    measure_rings(rt, alloc, options, passes, rings.as_slice())
}
