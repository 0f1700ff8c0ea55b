//! The command line.
ghost use Rattle.std.specs.Prelude.{◌≤◌, IfOk};

use clap::builder::ValueParser;
use clap::{Arg, ArgAction, ArgMatches, Command, Error};
use std::alloc::{AllocError, Global};

/// The greatest number of values that can be asked for: a heap of either layout has room for them.
pub const MOST_VALUES: u64 = 10_000_000;

/// The layouts that a large heap may have.
#[derive(Clone, Copy, Debug, PartialEq, Eq)]
pub enum Layout {
    /// 64 shards for each thread, which goes from one to the next.
    Wide,
    /// One shard for each thread, which keeps it.
    Deep,
}

/// What the command line asks for.
#[derive(Clone, Copy, Debug, PartialEq, Eq)]
pub struct Options {
    /// The layout of the heap.
    pub layout: Layout,
    /// The number of values that are inserted.
    pub values: usize,
}

/// The end of the help.
const AFTER_HELP: &str = "Example:
  tool_large wide --values 1000000

Exit status:
  0  all counts are as they should be, or help or the version was asked for
  1  a count is wrong, or the heap refused a call
  2  the command line is wrong
  3  memory was refused, or a write failed";

fn layout_argument<'a>(alloc: Global, layouts: &'a [&'a str]) -> Arg<'a> {
    Arg::new(alloc, "layout")
        .required(true)
        .action(ArgAction::Set)
        .value_parser(layouts)
        .help("The layout of the heap: wide has 256 shards, 64 for each thread, and deep has 4")
}

fn values_option<'a>(alloc: Global) -> Arg<'a> {
    Arg::new(alloc, "values")
        .long("values")
        .action(ArgAction::Set)
        .value_parser(ValueParser::Unsigned(1, MOST_VALUES))
        .default_value("20000")
        .help("How many values, of one word each")
}

fn command<'a>(alloc: Global, layouts: &'a [&'a str]) -> Result<Command<'a>, AllocError> {
    Command::new(alloc, "tool_large")
        .about("Fills a large heap from four threads, reads it, empties it and fills it again")
        .version("0.2.0")
        .after_help(AFTER_HELP)
        .arg(layout_argument(alloc, layouts))?
        .arg(values_option(alloc))
}

// The layout that is named. A parse that succeeds has one of the two names.
fn layout_of(matches: &ArgMatches<'_>) -> Layout {
    match matches.get_str("layout") {
        Some("deep") => Layout::Deep,
        _ => Layout::Wide,
    }
}

/// Reads the options of a command line, whose first word is the program's name. An error is clap's.
pub fn options_of<'a>(alloc: Global, words: &'a [&'a str]) -> Result<Options, Error>
    ensures { IfOk result (λ options. options.values ≤ 10000000) }
{
    let layouts = ["wide", "deep"];
    let matches = command(alloc, layouts.as_slice())?.try_get_matches_from(words)?;
    Ok(Options {
        layout: layout_of(&matches),
        values: matches
            .get_one::<u64>("values")
            .unwrap_or(1)
            .min(MOST_VALUES) as usize,
    })
}
