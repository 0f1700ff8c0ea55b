//! Tests of runs of the stress program: when a run ends, what it reports, and which history it leaves.
use crate::assertions::{agree, holds};
use crate::rounds::defect::Defect;
use crate::rounds::heaps::Models;
use crate::rounds::round_of;
use history_lines::{Fault, Verdict, judge};
use std::alloc::Global;
use std::rt::Files;
use std::sync::Wait;
use std::sync::atomic::{AtomicU64, Ordering};
use std::test::Fail;
use std::thread::Threads;
use tool_judge::counts::Count;
use tool_rounds::program;
use tool_rounds::round::Outcome;

// What a run of four rounds leaves: its status, how many rounds it played, its output and its report.
#[derive(Drop)]
struct Ended {
    status: u8,
    rounds: u64,
    output: Vec<u8>,
    errors: Vec<u8>,
}

const WORDS: [&str; 7] = [
    "tool_stress",
    "--threads",
    "1",
    "--rounds",
    "4",
    "--steps",
    "600",
];

// A run whose second round has a heap with this defect.
fn ran<R: Threads + Wait + Sync + Files>(rt: &R, alloc: Global, defect: Defect) -> Ended {
    let models = Models {
        defect,
        broken_round: 1,
        rounds: AtomicU64::new(0),
    };
    let mut output = Vec::new(alloc);
    let mut errors = Vec::new(alloc);
    let status = program::run(rt, alloc, &models, &WORDS, &mut output, &mut errors);
    Ended {
        status,
        rounds: models.rounds.load(Ordering::SeqCst),
        output,
        errors,
    }
}

// What is said of a history.
fn verdict(alloc: Global, history: &[u8]) -> Result<Verdict, Fault> {
    let mut input = history;
    judge(alloc, &mut input)
}

#[test]
fn a_run_without_a_fault_plays_all_rounds(rt: HostRuntime) {
    let run = ran(&rt, rt.alloc(), Defect::Sound);
    agree(&rt, (run.status, run.rounds), (0, 4));
    holds(
        &rt,
        run.output.as_slice().starts_with("rounds 4\n".as_bytes()),
    );
    holds(&rt, run.errors.is_empty());
}

#[test]
fn a_run_ends_with_its_first_fault(rt: HostRuntime) {
    let run = ran(&rt, rt.alloc(), Defect::WrongSums);
    agree(&rt, (run.status, run.rounds), (1, 2));
    let report = "tool_stress: seed 1, round 1: the accounts of page 0.0 of chunk 0 are wrong\n";
    holds(&rt, run.errors.as_slice() == report.as_bytes());
    holds(&rt, run.output.is_empty());
}

// A get after the removal is a fault of one key, whose history another judge refuses too.
#[test]
fn a_run_with_a_fault_leaves_the_history_of_its_key(rt: HostRuntime) {
    let run = ran(&rt, rt.alloc(), Defect::GotAfterRemoval);
    agree(&rt, (run.status, run.rounds), (1, 2));
    let said = verdict(rt.alloc(), run.output.as_slice());
    holds(&rt, matches!(said, Ok(Verdict::Broken(_, _))));
}

// The history of a round is legal for another judge too, and has each answer that was judged. Its header has two
// numbers for each of the three passes, and the holds that a key of the layout may have.
#[test]
fn the_history_of_a_round_is_legal(rt: HostRuntime) -> Result<(), Fail> {
    let Outcome { counts, history } = round_of(&rt, rt.alloc(), Defect::Sound, 3);
    let Ok(counts) = counts else {
        return Err(Fail::from("a fault"));
    };
    let mut text = Vec::new(rt.alloc());
    history.in_order(rt.alloc())?.write(None, &mut text)?;
    holds(&rt, text.as_slice().starts_with("history 6 4\n".as_bytes()));
    let said = verdict(rt.alloc(), text.as_slice());
    let Ok(Verdict::Legal(entries, _)) = said else {
        return Err(Fail::from("the history is not legal"));
    };
    agree(&rt, entries, counts.of(Count::Entries));
    Ok(())
}
