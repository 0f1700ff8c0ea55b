//! The command line.
ghost use Rattle.std.specs.Prelude.{◌≡◌, ◌≤◌, Some, IfOk, IfErr, codes, map};
ghost use Rattle.clap.specs.Words.{app_of, first_value, found_of, kind_of, one_text, rule_of};
ghost use Rattle.tool_load.specs.BenchLine.{IsRefused, LineSays, bench_app, bench_line, layout_rule, mixed_rule};
ghost use Rattle.tool_load.specs.BenchLine.{number_rule, with_numbers, workload_rule};
ghost use Rattle.tool_load.specs.CommandLine.{ReadsLengths, ReadsNumber, ReadsNumbers};
ghost use Rattle.tool_load.specs.Names.{layout_name, workload_name};
ghost use Rattle.tool_load.specs.declared.layout.Layout.{Layout as AnyLayout};
ghost use Rattle.tool_load.specs.declared.workload.Workload.{Workload as AnyWorkload};

use crate::layout::{Layout, layout_named};
use crate::options::{MOST_VALUES, Options};
use crate::samples::Lengths;
use crate::workload::{Workload, workload_named};
use crate::{layout, workload};
use clap::builder::ValueParser;
use clap::{Arg, ArgAction, ArgMatches, Command, Error};
use std::alloc::{AllocError, Global};

/// The end of the help.
const AFTER_HELP: &str =
    "The counts are written to the standard output, the times to the standard error.

Exit status:
  0  the workload was measured, or help or the version was asked for
  2  the command line is wrong
  3  the workload could not be measured";

// An option that is a number from `least` to `most`.
fn number_option<'a>(
    alloc: Global,
    id: &'a str,
    least: u64,
    most: u64,
    usual: &'a str,
    help: &'a str,
) -> Arg<'a>
    ensures { rule_of result ≡ number_rule id.now least most usual.now }
{
    Arg::new(alloc, id)
        .long(id)
        .action(ArgAction::Set)
        .value_parser(ValueParser::Unsigned(least, most))
        .default_value(usual)
        .help(help)
}

// The command with each option that is a number.
fn with_numbers<'a>(alloc: Global, command: Command<'a>) -> Result<Command<'a>, AllocError>
    ensures { IfOk result (λ c. app_of c ≡ with_numbers (app_of command.entry)) }
{
    command
        .arg(number_option(
            alloc,
            "threads",
            1,
            16,
            "1",
            "Threads; in hand, pairs of threads",
        ))?
        .arg(number_option(
            alloc,
            "operations",
            1,
            1_000_000_000,
            "1000",
            "Operations of each thread",
        ))?
        .arg(number_option(alloc, "words", 0, 16, "1", "Words of each value"))?
        .arg(number_option(alloc, "live", 1, MOST_VALUES, "1", "Values that stand"))?
        .arg(number_option(
            alloc,
            "freed",
            0,
            MOST_VALUES,
            "0",
            "Slots that a leaver puts back",
        ))?
        .arg(number_option(
            alloc,
            "passes",
            1,
            64,
            "1",
            "Passes that the heap has at least",
        ))
}

// The workload, which is required.
fn workload_argument<'a>(alloc: Global, workloads: &'a [&'a str]) -> Arg<'a>
    ensures { rule_of result ≡ workload_rule workloads.entry }
{
    Arg::new(alloc, "workload")
        .required(true)
        .action(ArgAction::Set)
        .value_parser(workloads)
        .help("What the threads do")
}

// The layout of the keys.
fn layout_argument<'a>(alloc: Global, layouts: &'a [&'a str]) -> Arg<'a>
    ensures { rule_of result ≡ layout_rule layouts.entry }
{
    Arg::new(alloc, "layout")
        .long("layout")
        .action(ArgAction::Set)
        .value_parser(layouts)
        .default_value("wide")
        .help("The layout of the keys")
}

// The flag for values of all lengths.
fn mixed_argument<'a>(alloc: Global) -> Arg<'a>
    ensures { rule_of result ≡ mixed_rule }
{
    Arg::new(alloc, "mixed")
        .long("mixed")
        .action(ArgAction::SetTrue)
        .help("Values of 1 to 16 words, in place of --words")
}

// The program, with no argument yet.
fn program<'a>(alloc: Global) -> Command<'a>
    ensures { app_of result ≡ bench_app }
{
    Command::new(alloc, "tool_bench")
        .about("Measures calls of the sharded heap")
        .version("0.2.0")
        .after_help(AFTER_HELP)
}

fn command<'a>(
    alloc: Global,
    workloads: &'a [&'a str],
    layouts: &'a [&'a str],
) -> Result<Command<'a>, AllocError>
    ensures { IfOk result (λ c. app_of c ≡ bench_line workloads.entry layouts.entry) }
{
    let chosen = program(alloc)
        .arg(workload_argument(alloc, workloads))?
        .arg(layout_argument(alloc, layouts))?
        .arg(mixed_argument(alloc))?;
    with_numbers(alloc, chosen)
}

// The number of an option, which has a default and is within these bounds.
fn number(matches: &ArgMatches<'_>, id: &str, most: u64) -> usize
    ensures within { result ≤ most }
    ensures reads { ReadsNumber (one_text (found_of matches.now) id.now) most result }
{
    matches.get_one::<u64>(id).unwrap_or(0).min(most) as usize
}

fn lengths(matches: &ArgMatches<'_>) -> Lengths
    ensures { ReadsLengths (one_text (found_of matches.now) (codes "mixed"))
        (one_text (found_of matches.now) (codes "words")) result }
{
    if matches.get_flag("mixed") {
        Lengths::Mixed
    } else {
        Lengths::Each(number(matches, "words", 16))
    }
}

// The workload that is named. A parse that succeeds has one of the names, so the last two branches are never taken.
fn workload_of(matches: &ArgMatches<'_>) -> Workload
    ensures { (w : AnyWorkload) → first_value (found_of matches.now) (codes "workload") ≡ Some (workload_name w)
        → result ≡ w }
{
    match matches.get_str("workload") {
        Some(word) => match workload_named(word) {
            Some(workload) => workload,
            None => Workload::Get,
        },
        None => Workload::Get,
    }
}

// The layout that is named, or the usual one.
fn layout_of(matches: &ArgMatches<'_>) -> Layout
    ensures { (l : AnyLayout) → first_value (found_of matches.now) (codes "layout") ≡ Some (layout_name l)
        → result ≡ l }
{
    match matches.get_str("layout") {
        Some(word) => match layout_named(word) {
            Some(layout) => layout,
            None => Layout::Wide,
        },
        None => Layout::Wide,
    }
}

fn chosen(matches: &ArgMatches<'_>, workload: Workload, layout: Layout) -> Options
    ensures numbers { ReadsNumbers (one_text (found_of matches.now)) result }
    ensures workload { result.workload ≡ workload }
    ensures layout { result.layout ≡ layout }
{
    Options {
        workload,
        layout,
        threads: number(matches, "threads", 16),
        operations: number(matches, "operations", 1_000_000_000),
        lengths: lengths(matches),
        live: number(matches, "live", MOST_VALUES),
        freed: number(matches, "freed", MOST_VALUES),
        passes: number(matches, "passes", 64),
    }
}

/// Reads the options of a command line, whose first word is the program's name. An error is clap's: its own for words
/// that its rules refuse, for `--help` and for `--version`, and `OutOfMemory`.
///
/// The workload is required. By default the layout is `wide`, one thread does 1,000 operations, values have one word,
/// one is live, none is freed, and the heap has at least one pass. There are from 1 to 16 threads, 1 to 1,000,000,000
/// operations, and 0 to 16 words. From 1 to 10,000,000 values are live, and 0 to 10,000,000 are freed. There are 1 to
/// 64 passes.
pub fn options_of<'a>(alloc: Global, words: &'a [&'a str]) -> Result<Options, Error>
    ensures ok { IfOk result (λ options. LineSays (map (λ w. w.now) words.entry.now) options) }
    ensures err { IfErr result (λ e. IsRefused (map (λ w. w.now) words.entry.now) (kind_of e)) }
{
    let workloads = [
        workload::name(Workload::Get),
        workload::name(Workload::Read),
        workload::name(Workload::ReadInto),
        workload::name(Workload::GetGuard),
        workload::name(Workload::ReadGuard),
        workload::name(Workload::Look),
        workload::name(Workload::Insert),
        workload::name(Workload::Fill),
        workload::name(Workload::Remove),
        workload::name(Workload::Churn),
        workload::name(Workload::Hand),
        workload::name(Workload::Adopt),
        workload::name(Workload::Leave),
        workload::name(Workload::Heed),
    ];
    let layouts = [
        layout::name(Layout::Wide),
        layout::name(Layout::Tagged),
        layout::name(Layout::Deep),
    ];
    let matches = command(alloc, workloads.as_slice(), layouts.as_slice())?.try_get_matches_from(
        words,
    )?;
    Ok(chosen(&matches, workload_of(&matches), layout_of(&matches)))
}
