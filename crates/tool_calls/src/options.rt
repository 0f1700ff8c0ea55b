//! The command line.
use clap::{Command, Error};
use std::alloc::{AllocError, Global};

/// The end of the help.
const AFTER_HELP: &str =
    "A script is text: `version 3`, a line for the heap, and a line for each call.
  heap LAYOUT SHARDS SEGMENTS PASSES            LAYOUT is tiny, wide, tagged or deep
  growing OWNERS VALUES WORDS PASSES CHUNKS     each of OWNERS threads has room for VALUES values of WORDS words

Calls of pass a, where R is the name of an insert, or # and a key:
  a insert NAME w ..   a get R   a read R   a look R   a take R   a remove R   a release R
  a adopt S   a leave   a collect   a prepare WORDS   a next PLACE   a hold PLACE   a walk

docs/SCRIPTS.md says what each call returns.

Exit status:
  0  the script was run, or help or the version was asked for
  2  the command line or the script is wrong
  3  memory was refused, or a read or a write failed";

fn command<'a>(alloc: Global) -> Command<'a> {
    Command::new(alloc, "tool_calls")
        .about("Runs a script of calls of the library from the standard input, line by line")
        .version("0.2.0")
        .after_help(AFTER_HELP)
}

/// Succeeds if the command line has no word but the program's name. An error is clap's.
pub fn check_words(alloc: Global, words: &[&str]) -> Result<(), Error> {
    command(alloc).try_get_matches_from(words)?;
    Ok(())
}
