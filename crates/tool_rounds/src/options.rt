//! The command line.
use crate::plan::{LAYOUT_NAMES, Layout, layout_named};
use clap::builder::ValueParser;
use clap::{Arg, ArgAction, ArgMatches, Command, Error};
use std::alloc::{AllocError, Global};

/// What the command line asks for.
#[derive(Clone, Copy, Debug, PartialEq, Eq)]
pub struct Options<'a> {
    /// The number of threads.
    pub threads: u32,
    /// The number of passes of each thread.
    pub passes: u32,
    /// The number of turns that each thread takes in a round.
    pub steps: u64,
    /// The number of rounds.
    pub rounds: u64,
    /// The seed of all choices.
    pub seed: u64,
    /// The layout of each round, or `None` for each layout in turn.
    pub layout: Option<Layout>,
    /// The file for the history of the last round, or of the key on which a fault was found.
    pub record: Option<&'a str>,
}

/// The end of the help.
const AFTER_HELP: &str =
    "Without --layout every second round has the layout tiny, and the others have wide, deep,
tagged and growing in turn. A growing heap has 2 to 5 chunks, the first one of one or two
shards of 8 pages.

Example:
  tool_stress --threads 4 --rounds 1000 --seed 7
  tool_stress --layout growing --rounds 100
  tool_stress --rounds 1 --record round.history && tool_history < round.history

If a fault is found, the history of its key is written to the standard output, or into
the file of --record.

Exit status:
  0  nothing was found, or help or the version was asked for
  1  something wrong was found
  2  the command line is wrong
  3  memory was refused, or a write failed";

// An option that is a number from `least` to `most`.
#[derive(Clone, Copy)]
struct Number {
    name: &'static str,
    least: u64,
    most: u64,
    usual: &'static str,
    help: &'static str,
}

const NUMBERS: [Number; 5] = [
    Number {
        name: "threads",
        least: 1,
        most: 16,
        usual: "4",
        help: "How many threads",
    },
    Number {
        name: "passes",
        least: 1,
        most: 4,
        usual: "2",
        help: "How many passes each thread has",
    },
    Number {
        name: "steps",
        least: 0,
        most: u64::MAX,
        usual: "2000",
        help: "How many turns each thread takes in a round",
    },
    Number {
        name: "rounds",
        least: 0,
        most: u64::MAX,
        usual: "100",
        help: "How many rounds, each on a heap of its own",
    },
    Number {
        name: "seed",
        least: 0,
        most: u64::MAX,
        usual: "1",
        help: "The seed of all choices",
    },
];

// An option of this name that has a value.
fn valued<'a>(alloc: Global, name: &'a str) -> Arg<'a> {
    Arg::new(alloc, name).long(name).action(ArgAction::Set)
}

fn number_option<'a>(alloc: Global, number: Number) -> Arg<'a> {
    let range = ValueParser::Unsigned(number.least, number.most);
    valued(alloc, number.name)
        .value_parser(range)
        .default_value(number.usual)
        .help(number.help)
}

// The program, with no option yet.
fn program<'a>(alloc: Global) -> Command<'a> {
    Command::new(alloc, "tool_stress")
        .about("Works on heaps of the library in many threads, and judges what they answered")
        .version("0.2.0")
        .after_help(AFTER_HELP)
}

fn layout_option<'a>(alloc: Global) -> Arg<'a> {
    valued(alloc, "layout")
        .value_parser(LAYOUT_NAMES)
        .help("The layout of the heaps' keys, or heaps that grow")
}

fn record_option<'a>(alloc: Global) -> Arg<'a> {
    valued(alloc, "record").value_name("FILE").help(
        "Writes the history of the last round into FILE, for tool_history",
    )
}

fn command<'a>(alloc: Global) -> Result<Command<'a>, AllocError> {
    let mut command = program(alloc);
    for number in NUMBERS {
        command = command.arg(number_option(alloc, number))?;
    }
    command.arg(layout_option(alloc))?.arg(record_option(alloc))
}

fn few(matches: &ArgMatches<'_>, name: &str, usual: u32) -> u32 {
    matches.get_one::<u32>(name).unwrap_or(usual)
}

fn many(matches: &ArgMatches<'_>, name: &str, usual: u64) -> u64 {
    matches.get_one::<u64>(name).unwrap_or(usual)
}

fn layout_of(matches: &ArgMatches<'_>) -> Option<Layout> {
    layout_named(matches.get_str("layout")?)
}

fn options_of<'a>(matches: &ArgMatches<'a>) -> Options<'a> {
    Options {
        threads: few(matches, "threads", 4),
        passes: few(matches, "passes", 2),
        steps: many(matches, "steps", 2000),
        rounds: many(matches, "rounds", 100),
        seed: many(matches, "seed", 1),
        layout: layout_of(matches),
        record: matches.get_str("record"),
    }
}

/// Reads the options of a command line, whose first word is the program's name. An error is clap's.
pub fn read_options<'a>(alloc: Global, words: &'a [&'a str]) -> Result<Options<'a>, Error> {
    let matches = command(alloc)?.try_get_matches_from(words)?;
    Ok(options_of(&matches))
}
