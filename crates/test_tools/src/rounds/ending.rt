//! Tests of rounds whose calls report which keys they ended: each wrong report is found.
use crate::assertions::{agree, holds};
use crate::rounds::defect::Defect;
use crate::rounds::heaps::{grown, played};
use std::alloc::Global;
use std::sync::Wait;
use std::test::Fail;
use std::thread::Threads;
use tool_judge::counts::{Count, Counts};
use tool_judge::dice::Dice;
use tool_judge::fault::{Fault, Wrong};
use tool_rounds::plan::{Layout, Plan};

// A round of one thread with three passes, whose calls report ends.
const PLAN: Plan = Plan {
    layout: Layout::Tiny,
    threads: 1,
    passes: 3,
    shards: 1,
    segments: 1,
    chunks: 1,
    steps: 1_500,
    tells_ends: true,
};

// The counts of a round, or the fault that it finds.
fn counts_of<R: Threads + Wait + Sync>(
    rt: &R,
    alloc: Global,
    defect: Defect,
) -> Result<Counts, Fault> {
    played(rt, alloc, &PLAN, defect, &mut Dice::new(3)).counts
}

// The fault that a round finds.
fn found<R: Threads + Wait + Sync>(rt: &R, alloc: Global, defect: Defect) -> Option<Fault> {
    counts_of(rt, alloc, defect).err()
}

#[test]
fn a_right_heap_that_tells_ends_passes(rt: HostRuntime) -> Result<(), Fail> {
    let Ok(counts) = counts_of(&rt, rt.alloc(), Defect::Sound) else {
        return Err(Fail::from("a fault"));
    };
    holds(&rt, counts.of(Count::Ends) > 0);
    Ok(())
}

#[test]
fn an_end_that_is_told_twice_is_found(rt: HostRuntime) {
    let fault = found(&rt, rt.alloc(), Defect::EndsTwice);
    holds(
        &rt,
        matches!(fault, Some(Fault::Wrong(Wrong::EndedTwice(_)))),
    );
}

#[test]
fn an_end_that_nobody_tells_is_found(rt: HostRuntime) {
    let fault = found(&rt, rt.alloc(), Defect::EndsUntold);
    holds(&rt, matches!(fault, Some(Fault::Wrong(Wrong::NotEnded(_)))));
}

#[test]
fn another_key_that_is_told_is_found(rt: HostRuntime) {
    let fault = found(&rt, rt.alloc(), Defect::EndsAnother);
    holds(
        &rt,
        matches!(fault, Some(Fault::Wrong(Wrong::EndedEarly(_)))),
    );
}

#[test]
fn an_end_while_others_hold_the_key_is_found(rt: HostRuntime) {
    let fault = found(&rt, rt.alloc(), Defect::EndsWhileHeld);
    holds(
        &rt,
        matches!(fault, Some(Fault::Wrong(Wrong::EndedEarly(_)))),
    );
}

#[test]
fn the_words_of_the_next_value_are_found(rt: HostRuntime) {
    let fault = found(&rt, rt.alloc(), Defect::EndsAsNext);
    holds(
        &rt,
        matches!(fault, Some(Fault::Wrong(Wrong::EndedAsAnother(_)))),
    );
}

// The fault that a round finds on a heap whose second chunk has this defect.
fn found_grown<R: Threads + Wait + Sync>(rt: &R, alloc: Global, defect: Defect) -> Option<Fault> {
    let plan = Plan {
        layout: Layout::Growing,
        chunks: 2,
        ..PLAN
    };
    grown(rt, alloc, &plan, defect, &mut Dice::new(3))
        .counts
        .err()
}

#[test]
fn an_end_in_a_later_chunk_that_nobody_tells_is_found(rt: HostRuntime) {
    agree(&rt, found_grown(&rt, rt.alloc(), Defect::Sound), None);
    let fault = found_grown(&rt, rt.alloc(), Defect::EndsUntold);
    holds(
        &rt,
        matches!(fault, Some(Fault::Wrong(Wrong::NotEnded(key))) if key >> 40 == 1),
    );
}
