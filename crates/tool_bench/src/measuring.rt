//! Measures a workload on a heap of its own.
use crate::owners::passes_of;
use crate::{adopting, getting, handing, inserting};
use sh_key::{Deep, KeyLayout, Tagged, Wide};
use sh_pass::{Heap, Pass};
use std::alloc::Global;
use std::rt::Clock;
use std::thread::Threads;
use tool_load::demand::Demand;
use tool_load::fault::Fault;
use tool_load::layout::Layout;
use tool_load::options::Options;
use tool_load::outcome::Outcome;
use tool_load::plan::{Plan, plan_for};
use tool_load::workload::Workload;

// How the threads of a workload work.
#[derive(Clone, Copy, PartialEq, Eq)]
enum Manner {
    // They use values that one owner keeps.
    Getting,
    // They own shards.
    Inserting,
    // One of two inserts, and the other one removes.
    Handing,
    // Their shards change hands.
    Adopting,
}

fn manner_of(workload: Workload) -> Manner {
    match workload {
        Workload::Get
        | Workload::Read
        | Workload::ReadInto
        | Workload::GetGuard
        | Workload::ReadGuard
        | Workload::Look
        | Workload::Heed => Manner::Getting,
        Workload::Insert | Workload::Fill | Workload::Remove | Workload::Churn => Manner::Inserting,
        Workload::Hand => Manner::Handing,
        Workload::Adopt | Workload::Leave => Manner::Adopting,
    }
}

fn demand(options: &Options) -> Demand {
    match manner_of(options.workload) {
        Manner::Getting => getting::demand(options),
        Manner::Inserting => inserting::demand(options),
        Manner::Handing => handing::demand(options),
        Manner::Adopting => adopting::demand(options),
    }
}

// Whether a thread may have more than one shard.
fn may_have_more(workload: Workload) -> bool {
    match manner_of(workload) {
        Manner::Getting | Manner::Inserting => true,
        Manner::Handing | Manner::Adopting => false,
    }
}

// The size of the heap. `TooMany` if a thread needs more shards than it may have.
fn plan<L: KeyLayout>(options: &Options) -> Result<Plan, Fault> {
    let plan = plan_for::<L>(&demand(options))?;
    if plan.shards > 1 && !may_have_more(options.workload) {
        return Err(Fault::TooMany);
    }
    Ok(plan)
}

// Measures with these passes. Each thread of owners has `shards` shards.
fn measure_passes<L: KeyLayout + Send + Sync, R: Threads + Clock + Sync>(
    rt: &R,
    alloc: Global,
    options: &Options,
    passes: &mut Vec<Pass<'_, L>>,
    shards: usize,
) -> Result<Outcome, Fault> {
    match manner_of(options.workload) {
        Manner::Getting => getting::measure(rt, alloc, options, passes, shards),
        Manner::Inserting => inserting::measure(rt, alloc, options, passes, shards),
        Manner::Handing => handing::measure(rt, alloc, options, passes),
        Manner::Adopting => adopting::measure(rt, alloc, options, passes),
    }
}

// Measures on a heap of this layout.
fn measure_on<L: KeyLayout + Send + Sync, R: Threads + Clock + Sync>(
    rt: &R,
    alloc: Global,
    options: &Options,
) -> Result<Outcome, Fault> {
    let plan = plan::<L>(options)?;
    let (heap, seats) = Heap::<L>::open(alloc, plan.shape)?;
    let mut passes = passes_of(alloc, &heap, seats)?;
    measure_passes(rt, alloc, options, &mut passes, plan.shards)
}

/// Measures the workload of the options. Returns `TooMany` if the values do not fit one heap, or if they do not fit the
/// one shard of a thread that may have only one.
pub fn measure<R: Threads + Clock + Sync>(
    rt: &R,
    alloc: Global,
    options: &Options,
) -> Result<Outcome, Fault> {
    match options.layout {
        Layout::Wide => measure_on::<Wide, R>(rt, alloc, options),
        Layout::Tagged => measure_on::<Tagged, R>(rt, alloc, options),
        Layout::Deep => measure_on::<Deep, R>(rt, alloc, options),
    }
}
