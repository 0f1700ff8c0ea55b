//! Tests of rounds on heaps that grow: keys of several chunks, and pages of a later one.
use crate::assertions::{agree, holds};
use crate::rounds::defect::Defect;
use crate::rounds::has_no_order;
use crate::rounds::heaps::grown;
use std::alloc::Global;
use std::sync::Wait;
use std::test::Fail;
use std::thread::Threads;
use tool_judge::counts::{Count, Counts};
use tool_judge::dice::Dice;
use tool_judge::fault::{Fault, Wrong};
use tool_rounds::plan::{Layout, Plan};

// The plan of a round with this number of threads, of callers of each and of turns of each.
fn plan(threads: u32, passes: u32, steps: u64) -> Plan {
    Plan {
        layout: Layout::Growing,
        threads,
        passes,
        shards: 1,
        segments: 1,
        chunks: 2,
        steps,
        tells_ends: false,
    }
}

// The counts of a round of one thread with three callers, on a heap whose second chunk has this defect, or the fault
// that it finds.
fn counts_of<R: Threads + Wait + Sync>(
    rt: &R,
    alloc: Global,
    defect: Defect,
) -> Result<Counts, Fault> {
    grown(rt, alloc, &plan(1, 3, 1_500), defect, &mut Dice::new(3)).counts
}

// Of 16 threads that take one turn each some adopt, and others do not. With the same dice all would, or none. (A caller
// is never refused, and one may adopt once more as the round ends.)
#[test]
fn each_thread_has_dice_of_its_own(rt: HostRuntime) -> Result<(), Fail> {
    let plan = plan(16, 1, 1);
    let Ok(counts) = grown(&rt, rt.alloc(), &plan, Defect::Sound, &mut Dice::new(8)).counts else {
        return Err(Fail::from("a fault"));
    };
    let adoptions = counts.of(Count::Adoptions);
    holds(&rt, 1 < adoptions && adoptions < 16);
    Ok(())
}

// The pages of both chunks are summed: 8 each. No call is made by hand. (A slot of the model has the same key in both
// chunks, up to the chunk's number. So a judge that dropped it would find two inserts under one key.)
#[test]
fn a_right_heap_that_grows_passes(rt: HostRuntime) -> Result<(), Fail> {
    let Ok(counts) = counts_of(&rt, rt.alloc(), Defect::Sound) else {
        return Err(Fail::from("a fault"));
    };
    agree(&rt, counts.of(Count::Pages), 16);
    agree(&rt, counts.of(Count::Begun), 0);
    Ok(())
}

#[test]
fn wrong_sums_of_a_later_chunk_are_found(rt: HostRuntime) {
    let fault = counts_of(&rt, rt.alloc(), Defect::WrongSums).err();
    agree(&rt, fault, Some(Fault::Wrong(Wrong::Accounts(1, 0, 0))));
}

#[test]
fn a_key_of_a_later_chunk_that_a_walk_misses_is_found(rt: HostRuntime) {
    let fault = counts_of(&rt, rt.alloc(), Defect::PassedOver).err();
    holds(
        &rt,
        matches!(fault, Some(Fault::Wrong(Wrong::Missed(_, key))) if key >> 40 == 1),
    );
}

#[test]
fn room_in_a_later_chunk_is_found(rt: HostRuntime) {
    let fault = counts_of(&rt, rt.alloc(), Defect::FullEarly).err();
    agree(&rt, fault, Some(Fault::Wrong(Wrong::Room(1, 0, 7))));
}

#[test]
fn a_late_gone_of_a_later_chunk_is_found(rt: HostRuntime) {
    let fault = counts_of(&rt, rt.alloc(), Defect::LateGone).err();
    holds(&rt, has_no_order(fault));
}

#[test]
fn a_key_without_its_chunk_is_found(rt: HostRuntime) {
    let fault = counts_of(&rt, rt.alloc(), Defect::KeyOfNoChunk).err();
    holds(&rt, has_no_order(fault));
}
