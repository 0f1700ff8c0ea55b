//! Tests of the rounds of the stress program, on heaps that are right or have one defect: what a round finds, what a
//! run reports, and what history it leaves.
mod callers;
mod defect;
mod ending;
mod growing;
mod heaps;
mod model;
mod passes;
mod plans;
mod runs;

use crate::assertions::{agree, holds};
use defect::Defect;
use heaps::played;
use history_timed::Span;
use std::alloc::Global;
use std::sync::Wait;
use std::test::Fail;
use std::thread::Threads;
use tool_judge::counts::{Count, Counts};
use tool_judge::dice::Dice;
use tool_judge::fault::{Call, Fault, Wrong};
use tool_rounds::moments::Moments;
use tool_rounds::plan::{Layout, Plan};
use tool_rounds::round::Outcome;

// A round of one thread with this number of passes and of turns, by these dice.
fn round_by<R: Threads + Wait + Sync>(
    rt: &R,
    alloc: Global,
    defect: Defect,
    passes: u32,
    steps: u64,
    dice: &mut Dice,
) -> Outcome {
    let plan = Plan {
        layout: Layout::Tiny,
        threads: 1,
        passes,
        shards: 1,
        segments: 1,
        chunks: 1,
        steps,
        tells_ends: false,
    };
    played(rt, alloc, &plan, defect, dice)
}

// A round of 1,500 turns, by the dice of one seed.
fn round_of<R: Threads + Wait + Sync>(
    rt: &R,
    alloc: Global,
    defect: Defect,
    passes: u32,
) -> Outcome {
    round_by(rt, alloc, defect, passes, 1_500, &mut Dice::new(3))
}

// The counts of a round of this number of passes, or the fault that it finds.
fn counts_of<R: Threads + Wait + Sync>(
    rt: &R,
    alloc: Global,
    defect: Defect,
    passes: u32,
) -> Result<Counts, Fault> {
    let Outcome { counts, history: _ } = round_of(rt, alloc, defect, passes);
    counts
}

// The fault that a round of three passes finds.
fn found<R: Threads + Wait + Sync>(rt: &R, alloc: Global, defect: Defect) -> Option<Fault> {
    counts_of(rt, alloc, defect, 3).err()
}

// Whether a round finds no order of the answers on a key.
fn has_no_order(fault: Option<Fault>) -> bool {
    matches!(fault, Some(Fault::Wrong(Wrong::NoOrder(_))))
}

#[test]
fn a_right_heap_passes(rt: HostRuntime) {
    for passes in 1..4u32 {
        let counts = counts_of(&rt, rt.alloc(), Defect::Sound, passes);
        agree(&rt, (passes, counts.err()), (passes, None));
    }
}

// A run on a right heap does each kind of call, and each is counted.
#[test]
fn a_round_does_all_that_it_judges(rt: HostRuntime) -> Result<(), Fail> {
    let Ok(counts) = counts_of(&rt, rt.alloc(), Defect::Sound, 3) else {
        return Err(Fail::from("a fault"));
    };
    for count in [
        Count::Inserts,
        Count::Fulls,
        Count::Gets,
        Count::Gones,
        Count::Reads,
        Count::Looks,
        Count::Removes,
        Count::Releases,
        Count::Adoptions,
        Count::Leaves,
        Count::Begun,
        Count::Marks,
        Count::Keys,
        Count::Pages,
    ] {
        agree(&rt, (count, counts.of(count) > 0), (count, true));
    }
    Ok(())
}

#[test]
fn a_torn_value_is_found(rt: HostRuntime) {
    let fault = found(&rt, rt.alloc(), Defect::Torn);
    holds(&rt, matches!(fault, Some(Fault::Wrong(Wrong::Torn(_, _)))));
}

#[test]
fn a_value_that_changes_is_found(rt: HostRuntime) {
    let fault = found(&rt, rt.alloc(), Defect::Changing);
    holds(
        &rt,
        matches!(fault, Some(Fault::Wrong(Wrong::Changed(_, _)))),
    );
}

#[test]
fn a_lost_value_is_found(rt: HostRuntime) {
    holds(&rt, has_no_order(found(&rt, rt.alloc(), Defect::Lost)));
}

#[test]
fn a_late_gone_is_found(rt: HostRuntime) {
    holds(&rt, has_no_order(found(&rt, rt.alloc(), Defect::LateGone)));
}

#[test]
fn a_key_used_again_is_found(rt: HostRuntime) {
    holds(
        &rt,
        has_no_order(found(&rt, rt.alloc(), Defect::KeyUsedAgain)),
    );
}

#[test]
fn two_removers_are_found(rt: HostRuntime) {
    holds(
        &rt,
        has_no_order(found(&rt, rt.alloc(), Defect::TwoRemovers)),
    );
}

#[test]
fn a_get_after_the_removal_is_found(rt: HostRuntime) {
    holds(
        &rt,
        has_no_order(found(&rt, rt.alloc(), Defect::GotAfterRemoval)),
    );
}

#[test]
fn a_look_that_loads_once_is_found(rt: HostRuntime) {
    holds(&rt, has_no_order(found(&rt, rt.alloc(), Defect::LooksOnce)));
}

#[test]
fn a_look_that_loads_another_word_is_found(rt: HostRuntime) {
    holds(
        &rt,
        has_no_order(found(&rt, rt.alloc(), Defect::LooksElsewhere)),
    );
}

#[test]
fn gone_before_the_insert_is_found(rt: HostRuntime) {
    holds(
        &rt,
        has_no_order(found(&rt, rt.alloc(), Defect::GoneBeforeInsert)),
    );
}

#[test]
fn a_value_before_the_insert_is_found(rt: HostRuntime) {
    holds(
        &rt,
        has_no_order(found(&rt, rt.alloc(), Defect::SeenBeforeInsert)),
    );
}

// With one pass a key is crowded only if it has as many holds as it may have.
#[test]
fn crowded_without_a_holder_is_found(rt: HostRuntime) {
    let counts = counts_of(&rt, rt.alloc(), Defect::Crowded, 1);
    holds(&rt, has_no_order(counts.err()));
}

#[test]
fn a_key_that_a_walk_misses_is_found(rt: HostRuntime) {
    let fault = found(&rt, rt.alloc(), Defect::PassedOver);
    holds(
        &rt,
        matches!(fault, Some(Fault::Wrong(Wrong::Missed(_, _)))),
    );
}

#[test]
fn a_walk_that_goes_back_is_found(rt: HostRuntime) {
    let fault = found(&rt, rt.alloc(), Defect::StaysBehind);
    holds(
        &rt,
        matches!(fault, Some(Fault::Wrong(Wrong::WentBack(_, _)))),
    );
}

#[test]
fn wrong_sums_are_found(rt: HostRuntime) {
    let fault = found(&rt, rt.alloc(), Defect::WrongSums);
    agree(&rt, fault, Some(Fault::Wrong(Wrong::Accounts(0, 0, 0))));
}

#[test]
fn room_in_a_full_shard_is_found(rt: HostRuntime) {
    let fault = found(&rt, rt.alloc(), Defect::FullEarly);
    agree(&rt, fault, Some(Fault::Wrong(Wrong::Room(0, 0, 7))));
}

#[test]
fn a_refused_read_is_found(rt: HostRuntime) {
    let fault = found(&rt, rt.alloc(), Defect::NotHeld);
    let is_wanted = matches!(fault, Some(Fault::Wrong(Wrong::Refused(_, Call::Read, _))));
    holds(&rt, is_wanted);
}

#[test]
fn a_key_that_is_called_bad_is_found(rt: HostRuntime) {
    let fault = found(&rt, rt.alloc(), Defect::BadKey);
    let is_wanted = matches!(fault, Some(Fault::Wrong(Wrong::Refused(_, Call::Get, _))));
    holds(&rt, is_wanted);
}

// With one pass the owner is the one that fills the shards at the end.
#[test]
fn an_owner_that_cannot_leave_is_found(rt: HostRuntime) {
    let counts = counts_of(&rt, rt.alloc(), Defect::Waiting, 1);
    agree(&rt, counts.err(), Some(Fault::Wrong(Wrong::Waits(0))));
}

#[test]
fn a_call_that_does_not_begin_is_found(rt: HostRuntime) {
    let fault = found(&rt, rt.alloc(), Defect::Unbegun);
    holds(
        &rt,
        matches!(fault, Some(Fault::Wrong(Wrong::Unbegun(_, Call::Get)))),
    );
}

#[test]
fn a_call_that_does_not_end_is_found(rt: HostRuntime) {
    let fault = found(&rt, rt.alloc(), Defect::Endless);
    holds(&rt, matches!(fault, Some(Fault::Wrong(Wrong::Endless(_)))));
}

#[test]
fn a_take_that_does_not_remove_is_found(rt: HostRuntime) {
    holds(&rt, has_no_order(found(&rt, rt.alloc(), Defect::NotTaken)));
}

#[test]
fn a_read_that_keeps_its_hold_is_found(rt: HostRuntime) {
    let fault = found(&rt, rt.alloc(), Defect::ReadKeepsHold);
    holds(
        &rt,
        matches!(fault, Some(Fault::Wrong(Wrong::Accounts(0, 0, _)))),
    );
}

// Only a round at whose end an owner fills its shard can find this.
#[test]
fn room_that_is_found_by_an_adoption_alone_is_found(rt: HostRuntime) {
    let mut dice = Dice::new(5);
    let mut rooms = 0u32;
    for _ in 0..200u32 {
        let outcome = round_by(&rt, rt.alloc(), Defect::LostRing, 3, 300, &mut dice);
        if matches!(outcome.counts, Err(Fault::Wrong(Wrong::Room(0, 0, _)))) {
            rooms = rooms.saturating_add(1);
        }
    }
    holds(&rt, 0 < rooms && rooms < 200);
}

#[test]
fn a_refused_receipt_is_found(rt: HostRuntime) {
    let fault = found(&rt, rt.alloc(), Defect::Unheeded);
    let is_wanted = matches!(fault, Some(Fault::Wrong(Wrong::Refused(_, Call::Heed, _))));
    holds(&rt, is_wanted);
}

#[test]
fn passes_that_do_not_meet_are_found(rt: HostRuntime) {
    let fault = found(&rt, rt.alloc(), Defect::Apart);
    agree(&rt, fault, Some(Fault::Wrong(Wrong::Apart)));
}

// No moment is given twice, and a call ends at the next one.
#[test]
fn moments_follow_each_other(rt: HostRuntime) {
    let moments = Moments::new();
    let begin = moments.next();
    agree(
        &rt,
        Some(moments.since(begin)),
        Span::new(begin, begin.wrapping_add(1)),
    );
    agree(&rt, moments.next(), begin.wrapping_add(2));
}
