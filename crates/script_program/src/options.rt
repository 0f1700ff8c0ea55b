//! The command line: a mode, and whether accounts are wanted.
ghost use Rattle.std.specs.Prelude.{◌≡◌, IfOk, IfErr, IfSome, IfNone, map};
ghost use Rattle.clap.specs.Words.{app_of, kind_of, rule_of};
ghost use Rattle.script_program.specs.Options.{IsNoMode, IsRefused, CommandSays, command_line, mode_name};
ghost use Rattle.script_program.specs.Options.{accounts_rule, mode_rule, program_app};

use clap::{Arg, ArgAction, Command, Error};
use script_output::Mode;
use std::alloc::{AllocError, Global};

/// The modes, in the order in which help lists them.
const MODES: [Mode; 4] = [Mode::Plain, Mode::Heap, Mode::Steps, Mode::Threads];

/// How a mode is written.
fn name(mode: Mode) -> &'static str
    ensures { result.now ≡ mode_name mode }
{
    match mode {
        Mode::Plain => "plain",
        Mode::Heap => "heap",
        Mode::Steps => "steps",
        Mode::Threads => "threads",
    }
}

/// The mode that is written as this word.
fn mode_named(word: &str) -> Option<Mode>
    ensures some { IfSome result (λ mode. word.now ≡ mode_name mode) }
    ensures none { IfNone result (IsNoMode word.now) }
{
    match word {
        "plain" => Some(Mode::Plain),
        "heap" => Some(Mode::Heap),
        "steps" => Some(Mode::Steps),
        "threads" => Some(Mode::Threads),
        _ => None,
    }
}

/// The end of the help.
const AFTER_HELP: &str = "Modes:
  plain    calls, one after the other, on a plain map
  heap     calls, one after the other, on the running heap, in one thread
  threads  calls on the running heap, those of each pass in a thread of its own
  steps    single atomic steps, in the order of the script, on the model of the heap

A script is text: a line that says how large the heap is, and then a line for each call or step.
docs/SCRIPTS.md says how to write one, and gives the usual reason of each fault and refusal.

Example, of files in the folder examples/:
  shardheap heap --accounts < freed.script

Exit status:
  0  the script was run, or help or the version was asked for
  2  the command line or the script is wrong
  3  memory was refused, or a read or a write failed";

// The mode, which is required.
fn mode_argument<'a>(alloc: Global, modes: &'a [&'a str]) -> Arg<'a>
    ensures { rule_of result ≡ mode_rule modes.entry }
{
    Arg::new(alloc, "mode")
        .required(true)
        .action(ArgAction::Set)
        .value_parser(modes)
        .help("What runs the script")
}

// The flag for accounts.
fn accounts_argument<'a>(alloc: Global) -> Arg<'a>
    ensures { rule_of result ≡ accounts_rule }
{
    Arg::new(alloc, "accounts")
        .long("accounts")
        .action(ArgAction::SetTrue)
        .help("Adds a line on each page with a class, where the mode has pages")
}

// The program, with no argument yet.
fn program<'a>(alloc: Global) -> Command<'a>
    ensures { app_of result ≡ program_app }
{
    Command::new(alloc, "shardheap")
        .about("Runs a script of the sharded heap from the standard input")
        .version("0.2.0")
        .after_help(AFTER_HELP)
}

fn command<'a>(alloc: Global, modes: &'a [&'a str]) -> Result<Command<'a>, AllocError>
    ensures { IfOk result (λ c. app_of c ≡ command_line modes.entry) }
{
    program(alloc)
        .arg(mode_argument(alloc, modes))?
        .arg(accounts_argument(alloc))
}

/// The mode and the flag `--accounts` of a command line, whose first word is the program's name. An error is clap's:
/// its own for words that its rules refuse, for `--help` and for `--version`, and `OutOfMemory`.
pub fn options<'a>(alloc: Global, words: &'a [&'a str]) -> Result<(Mode, bool), Error>
    ensures ok { IfOk result (λ r. CommandSays (map (λ w. w.now) words.entry.now) r.0 r.1) }
    ensures err { IfErr result (λ e. IsRefused (map (λ w. w.now) words.entry.now) (kind_of e)) }
{
    let modes = [
        name(MODES[0]),
        name(MODES[1]),
        name(MODES[2]),
        name(MODES[3]),
    ];
    let matches = command(alloc, modes.as_slice())?.try_get_matches_from(words)?;
    // A parse that succeeds has a word for the mode, since it is required, and the word is one of these.
    let word = matches.get_str("mode").unwrap_or("");
    match mode_named(word) {
        Some(mode) => Ok((mode, matches.get_flag("accounts"))),
        None => unreachable!(),
    }
}
