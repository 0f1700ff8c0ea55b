//! The command line.
use clap::builder::ValueParser;
use clap::{Arg, ArgAction, Command, Error};
use std::alloc::{AllocError, Global};

/// What the command line asks for.
#[derive(Clone, Copy, Debug, PartialEq, Eq)]
pub struct Options {
    /// Whether every finding is printed.
    pub all: bool,
    /// The key whose lines and findings are printed, if it is one key.
    pub key: Option<u64>,
}

/// The end of the help.
const AFTER_HELP: &str =
    "The first line is `history PASSES HOLDS_MAX`, and each further line one answer, as
`[BEGIN END] PASS ENTRY KEY [LENGTH WORD ..]`, with ENTRY one of Insert, Got, Seen,
Gone, Crowded, Removed and Released. All lines have times or none has. Without times their
order is judged. With times some order that keeps to them is looked for; END is `-`
if the call never ended. docs/HISTORIES.md says more.

Examples, of files in the folder examples/histories/:
  tool_history < legal.history
  tool_history --key 4096 < after_removal.history

Exit status:
  0  the history is legal, or help or the version was asked for
  1  the history is not legal
  2  the command line or a line of the history is wrong
  3  memory was refused, or a read or a write failed
  4  the lines have times, and whether an order of them is legal was not decided";

fn all_flag<'a>(alloc: Global) -> Arg<'a> {
    Arg::new(alloc, "all")
        .long("all")
        .action(ArgAction::SetTrue)
        .help(
            "Prints every line that is not allowed, with its text and that of the line it clashes with",
        )
}

fn key_option<'a>(alloc: Global) -> Arg<'a> {
    Arg::new(alloc, "key")
        .long("key")
        .action(ArgAction::Set)
        .value_parser(ValueParser::Unsigned(0, u64::MAX))
        .help("Prints the lines on this key, and every one that is not allowed")
}

fn command<'a>(alloc: Global) -> Result<Command<'a>, AllocError> {
    Command::new(alloc, "tool_history")
        .about(
            "Judges a recorded history of a map whose keys are never used again, from the standard input",
        )
        .version("0.2.0")
        .after_help(AFTER_HELP)
        .arg(all_flag(alloc))?
        .arg(key_option(alloc))
}

/// What a command line asks for, whose first word is the program's name. An error is clap's.
pub fn options_of(alloc: Global, words: &[&str]) -> Result<Options, Error> {
    let matches = command(alloc)?.try_get_matches_from(words)?;
    Ok(Options {
        all: matches.get_flag("all"),
        key: matches.get_one::<u64>("key"),
    })
}
