//! Tests of what a command line asks of the bench, by examples: each option's default and its bounds, and each name.
mod plans;

use crate::assertions::agree;
use clap::error::ErrorKind;
use std::alloc::Global;
use std::process::Abort;
use std::test::Fail;
use tool_load::command_line::options_of;
use tool_load::layout::Layout;
use tool_load::options::Options;
use tool_load::samples::Lengths;
use tool_load::workload::Workload;

// What `tool_bench get` and two words more ask for.
fn asked(rt: &impl Abort, alloc: Global, option: &str, number: &str) -> Options {
    let Ok(options) = options_of(alloc, &["tool_bench", "get", option, number]) else {
        panic!(rt; "{option} {number} is refused")
    };
    options
}

// Why a command line is refused.
fn refused(rt: &impl Abort, alloc: Global, words: &[&str]) -> ErrorKind {
    match options_of(alloc, words) {
        Ok(_) => panic!(rt; "the words are taken"),
        Err(error) => error.kind(),
    }
}

#[test]
fn each_option_has_a_default(rt: HostRuntime) -> Result<(), Fail> {
    let options = options_of(rt.alloc(), &["tool_bench", "get"])?;
    agree(&rt, options.workload, Workload::Get);
    agree(&rt, options.layout, Layout::Wide);
    agree(&rt, options.threads, 1);
    agree(&rt, options.operations, 1_000);
    agree(&rt, options.lengths, Lengths::Each(1));
    agree(&rt, options.live, 1);
    agree(&rt, options.freed, 0);
    agree(&rt, options.passes, 1);
    Ok(())
}

#[test]
fn each_workload_has_its_name(rt: HostRuntime) -> Result<(), Fail> {
    let table = [
        ("get", Workload::Get),
        ("read", Workload::Read),
        ("read-into", Workload::ReadInto),
        ("get-guard", Workload::GetGuard),
        ("read-guard", Workload::ReadGuard),
        ("look", Workload::Look),
        ("insert", Workload::Insert),
        ("fill", Workload::Fill),
        ("remove", Workload::Remove),
        ("churn", Workload::Churn),
        ("hand", Workload::Hand),
        ("adopt", Workload::Adopt),
        ("leave", Workload::Leave),
        ("heed", Workload::Heed),
    ];
    for (name, workload) in table {
        let options = options_of(rt.alloc(), &["tool_bench", name])?;
        agree(&rt, (name, options.workload), (name, workload));
    }
    Ok(())
}

#[test]
fn each_layout_has_its_name(rt: HostRuntime) {
    for (name, layout) in [
        ("wide", Layout::Wide),
        ("tagged", Layout::Tagged),
        ("deep", Layout::Deep),
    ] {
        let options = asked(&rt, rt.alloc(), "--layout", name);
        agree(&rt, (name, options.layout), (name, layout));
    }
}

#[test]
fn each_number_is_its_own(rt: HostRuntime) -> Result<(), Fail> {
    let words = [
        "tool_bench",
        "leave",
        "--threads",
        "2",
        "--operations",
        "3",
        "--words",
        "4",
        "--live",
        "5",
        "--freed",
        "6",
        "--passes",
        "7",
    ];
    let options = options_of(rt.alloc(), &words)?;
    agree(&rt, options.threads, 2);
    agree(&rt, options.operations, 3);
    agree(&rt, options.lengths, Lengths::Each(4));
    agree(&rt, options.live, 5);
    agree(&rt, options.freed, 6);
    agree(&rt, options.passes, 7);
    Ok(())
}

// The least and the most number of each option are taken.
#[test]
fn numbers_reach_both_bounds(rt: HostRuntime) {
    let alloc = rt.alloc();
    agree(&rt, asked(&rt, alloc, "--threads", "1").threads, 1);
    agree(&rt, asked(&rt, alloc, "--threads", "16").threads, 16);
    agree(&rt, asked(&rt, alloc, "--operations", "1").operations, 1);
    agree(
        &rt,
        asked(&rt, alloc, "--operations", "1000000000").operations,
        1_000_000_000,
    );
    agree(
        &rt,
        asked(&rt, alloc, "--words", "0").lengths,
        Lengths::Each(0),
    );
    agree(
        &rt,
        asked(&rt, alloc, "--words", "16").lengths,
        Lengths::Each(16),
    );
    agree(&rt, asked(&rt, alloc, "--live", "1").live, 1);
    agree(
        &rt,
        asked(&rt, alloc, "--live", "10000000").live,
        10_000_000,
    );
    agree(&rt, asked(&rt, alloc, "--freed", "0").freed, 0);
    agree(
        &rt,
        asked(&rt, alloc, "--freed", "10000000").freed,
        10_000_000,
    );
    agree(&rt, asked(&rt, alloc, "--passes", "1").passes, 1);
    agree(&rt, asked(&rt, alloc, "--passes", "64").passes, 64);
}

#[test]
fn numbers_beyond_a_bound_are_refused(rt: HostRuntime) {
    let table = [
        ("--threads", "0"),
        ("--threads", "17"),
        ("--operations", "0"),
        ("--operations", "1000000001"),
        ("--words", "17"),
        ("--live", "0"),
        ("--live", "10000001"),
        ("--freed", "10000001"),
        ("--passes", "0"),
        ("--passes", "65"),
    ];
    for (option, number) in table {
        let kind = refused(&rt, rt.alloc(), &["tool_bench", "get", option, number]);
        agree(
            &rt,
            (option, number, kind),
            (option, number, ErrorKind::ValueValidation),
        );
    }
}

#[test]
fn mixed_values_take_the_place_of_a_length(rt: HostRuntime) -> Result<(), Fail> {
    let options = options_of(rt.alloc(), &["tool_bench", "insert", "--mixed"])?;
    agree(&rt, options.lengths, Lengths::Mixed);
    let options = options_of(
        rt.alloc(),
        &["tool_bench", "insert", "--words", "3", "--mixed"],
    )?;
    agree(&rt, options.lengths, Lengths::Mixed);
    Ok(())
}

#[test]
fn other_words_are_refused(rt: HostRuntime) {
    let alloc = rt.alloc();
    agree(
        &rt,
        refused(&rt, alloc, &["tool_bench"]),
        ErrorKind::MissingRequiredArgument,
    );
    agree(
        &rt,
        refused(&rt, alloc, &["tool_bench", "table"]),
        ErrorKind::InvalidValue,
    );
    agree(
        &rt,
        refused(&rt, alloc, &["tool_bench", "get", "--layout", "tiny"]),
        ErrorKind::InvalidValue,
    );
    agree(
        &rt,
        refused(&rt, alloc, &["tool_bench", "get", "--speed", "1"]),
        ErrorKind::UnknownArgument,
    );
    agree(
        &rt,
        refused(&rt, alloc, &["tool_bench", "--help"]),
        ErrorKind::DisplayHelp,
    );
    agree(
        &rt,
        refused(&rt, alloc, &["tool_bench", "--version"]),
        ErrorKind::DisplayVersion,
    );
}
