//! Workloads of passes that own nothing, each in a thread of its own: the keys that they go through, and the checks
//! afterwards.
use crate::gate::Gate;
use crate::lots::{Job, Lot, filled_lots, standing};
use crate::parting::taken;
use crate::rounds::go_through;
use crate::work;
use crate::work::Work;
use sh_key::KeyLayout;
use sh_pass::Pass;
use std::alloc::{AllocError, Global};
use std::rt::Clock;
use std::thread::Threads;
use tool_load::demand::Demand;
use tool_load::fault::Fault;
use tool_load::options::Options;
use tool_load::outcome::Outcome;
use tool_load::samples::Samples;

// What a thread begins with: its pass, and the keys that it goes through, over and over.
#[derive(Drop)]
struct User<'a, 'w, L: KeyLayout> {
    pass: Pass<'a, L>,
    walk: &'w [u64],
}

impl<L: KeyLayout> Work for User<'_, '_, L> {
    fn run<C: Clock>(
        self,
        rt: &C,
        _alloc: Global,
        gate: &Gate,
        options: &Options,
    ) -> Result<Outcome, Fault> {
        let User { mut pass, walk } = self;
        go_through(rt, gate, options, walk, &mut pass)
    }
}

// The keys of all lots, each once, in the order in which the passes go through them.
fn walk_of<L: KeyLayout>(alloc: Global, lots: &[Lot<'_, L>]) -> Result<Vec<u64>, AllocError> {
    let mut walk = Vec::new(alloc);
    for lot in lots {
        for place in lot.order.as_slice() {
            if let Some(key) = lot.keys.get(*place) {
                walk.push(*key)?;
            }
        }
    }
    Ok(walk)
}

// A round through few keys goes through them again and again, until it is as long as this.
const SHORTEST_WALK: usize = 1000;

fn lengthen(walk: &mut Vec<u64>) -> Result<(), AllocError> {
    let missing = SHORTEST_WALK.saturating_sub(walk.len());
    for place in 0..missing {
        if let Some(key) = walk.get(place).copied() {
            walk.push(key)?;
        }
    }
    Ok(())
}

// The walk through all lots, repeated if their keys are few.
fn long_walk<L: KeyLayout>(alloc: Global, lots: &[Lot<'_, L>]) -> Result<Vec<u64>, AllocError> {
    let mut walk = walk_of(alloc, lots)?;
    lengthen(&mut walk)?;
    Ok(walk)
}

// The number of values of all lots that are as they were inserted.
fn all_standing<L: KeyLayout>(lots: &mut [Lot<'_, L>], samples: &Samples) -> Result<u64, Fault> {
    let mut found = 0u64;
    for lot in lots.iter_mut() {
        found = found.saturating_add(standing(lot, samples)?);
    }
    Ok(found)
}

/// What the workloads need.
pub fn demand(options: &Options) -> Demand {
    Demand {
        owners: 1,
        others: options.threads,
        passes: options.passes,
        lengths: options.lengths,
        values: options.live,
        more: 0,
    }
}

// The lots of the owners of `shards` shards, which take the last passes.
fn owned_lots<'a, L: KeyLayout>(
    alloc: Global,
    options: &Options,
    passes: &mut Vec<Pass<'a, L>>,
    shards: usize,
    samples: &Samples,
) -> Result<Vec<Lot<'a, L>>, Fault> {
    let owners = Job {
        passes: taken(alloc, passes, shards)?,
        first_shard: 0,
    };
    filled_lots(alloc, owners, samples, options.live)
}

// One user for each of `threads` threads. They take the last passes, and go through the keys of the walk.
fn users<'a, 'w, L: KeyLayout>(
    alloc: Global,
    passes: &mut Vec<Pass<'a, L>>,
    threads: usize,
    walk: &'w [u64],
) -> Result<Vec<User<'a, 'w, L>>, AllocError> {
    let mut users = Vec::new(alloc);
    for _thread in 0..threads {
        if let Some(pass) = passes.pop() {
            users.push(User { pass, walk })?;
        }
    }
    Ok(users)
}

// Measures users of the keys of the walk, each in a thread of its own.
fn measure_walk<L: KeyLayout + Send + Sync, R: Threads + Clock + Sync>(
    rt: &R,
    alloc: Global,
    options: &Options,
    passes: &mut Vec<Pass<'_, L>>,
    walk: &[u64],
) -> Result<Outcome, Fault> {
    let users = users(alloc, passes, options.threads, walk)?;
    work::measure(rt, alloc, options, options.threads, users)
}

// Measures users of the values of the lots, and then counts the values that are as they were inserted.
fn measure_lots<L: KeyLayout + Send + Sync, R: Threads + Clock + Sync>(
    rt: &R,
    alloc: Global,
    options: &Options,
    passes: &mut Vec<Pass<'_, L>>,
    lots: &mut [Lot<'_, L>],
    samples: &Samples,
) -> Result<Outcome, Fault> {
    let walk = long_walk(alloc, lots)?;
    let mut outcome = measure_walk(rt, alloc, options, passes, walk.as_slice())?;
    outcome.standing = all_standing(lots, samples)?;
    Ok(outcome)
}

/// Measures passes that use the values of one owner thread, which is idle meanwhile. The last passes become owners of
/// `shards` shards, and those before them use the values.
pub fn measure<L: KeyLayout + Send + Sync, R: Threads + Clock + Sync>(
    rt: &R,
    alloc: Global,
    options: &Options,
    passes: &mut Vec<Pass<'_, L>>,
    shards: usize,
) -> Result<Outcome, Fault> {
    let samples = Samples::new(alloc, options.lengths)?;
    let mut lots = owned_lots(alloc, options, passes, shards, &samples)?;
    measure_lots(rt, alloc, options, passes, lots.as_mut_slice(), &samples)
}
