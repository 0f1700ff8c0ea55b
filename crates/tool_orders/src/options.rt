//! The command line.
use clap::builder::ValueParser;
use clap::{Arg, ArgAction, Command, Error};
use std::alloc::{AllocError, Global};

/// What the command line asks for.
#[derive(Drop)]
pub struct Options<'a> {
    /// Whether what the pages have at the end belongs to an outcome.
    pub accounts: bool,
    /// How many states may be met.
    pub limit: u64,
    /// How many bytes what is kept may take.
    pub bytes: u64,
    /// The number of the outcome, from 1, whose witness is printed in place of the outcomes.
    pub witness: Option<u64>,
    /// The file with the outcomes that are expected.
    pub expect: Option<&'a str>,
}

/// The end of the help.
const AFTER_HELP: &str =
    "The lines of the script up to a comment line `; explore` are done in their order. Of the lines after it each pass
does its own in their order, and the passes interleave in every way. A line whose condition does not hold is skipped.
A comment `; where REPLY` looks only at outcomes with that reply, and `; never REPLY` says that none of them has it.
After a line `version 3` a line may also be a call, which is short for the steps of its longest way.
docs/SCRIPTS.md says how to write a script of steps, and docs/ORDERS.md what is printed here.

Example, of files in the folder examples/orders/:
  tool_orders --accounts --expect two_removers.orders < two_removers.script

Exit status:
  0  the outcomes were printed, and are those that are expected; or help or the version was asked for
  1  they are not those that are expected: the first difference is named; or an outcome has a reply of `; never`
  2  the command line, the script or the file of outcomes is wrong, there is no such outcome, or a limit was passed
  3  memory was refused, or a read or a write failed";

fn accounts_flag<'a>(alloc: Global) -> Arg<'a> {
    Arg::new(alloc, "accounts")
        .long("accounts")
        .action(ArgAction::SetTrue)
        .help("Adds what the pages have at the end to each outcome")
}

fn limit_option<'a>(alloc: Global) -> Arg<'a> {
    Arg::new(alloc, "limit")
        .long("limit")
        .action(ArgAction::Set)
        .value_parser(ValueParser::Unsigned(1, u64::MAX))
        .default_value("200000")
        .help("How many states may be met")
}

fn bytes_option<'a>(alloc: Global) -> Arg<'a> {
    Arg::new(alloc, "bytes")
        .long("bytes")
        .action(ArgAction::Set)
        .value_parser(ValueParser::Unsigned(1, u64::MAX))
        .default_value("1000000000")
        .help("How many bytes the states and outcomes that are kept may take")
}

fn witness_option<'a>(alloc: Global) -> Arg<'a> {
    Arg::new(alloc, "witness")
        .long("witness")
        .action(ArgAction::Set)
        .value_parser(ValueParser::Unsigned(1, u64::MAX))
        .help("Prints an order that leads to the outcome of this number, as a script of mode steps")
}

fn expect_option<'a>(alloc: Global) -> Arg<'a> {
    Arg::new(alloc, "expect")
        .long("expect")
        .action(ArgAction::Set)
        .help("Compares the outcomes with those of a file")
}

fn command<'a>(alloc: Global) -> Result<Command<'a>, AllocError> {
    Command::new(alloc, "tool_orders")
        .about(
            "Does a script of steps from the standard input in every order, and prints each outcome",
        )
        .version("0.2.0")
        .after_help(AFTER_HELP)
        .arg(accounts_flag(alloc))?
        .arg(limit_option(alloc))?
        .arg(bytes_option(alloc))?
        .arg(witness_option(alloc))?
        .arg(expect_option(alloc))
}

/// What a command line asks for, whose first word is the program's name. An error is clap's.
pub fn options_of<'a>(alloc: Global, words: &'a [&'a str]) -> Result<Options<'a>, Error> {
    let matches = command(alloc)?.try_get_matches_from(words)?;
    Ok(Options {
        accounts: matches.get_flag("accounts"),
        limit: matches.get_one::<u64>("limit").unwrap_or(1),
        bytes: matches.get_one::<u64>("bytes").unwrap_or(1),
        witness: matches.get_one::<u64>("witness"),
        expect: matches.get_str("expect"),
    })
}
