//! The history of a round, in the lines that `tool_history` reads.
ghost use Rattle.std.specs.Prelude.{◌≤◌, length};

use history_timed::{Call, Said};
use sh_history::Entry;
use sh_key::KeyLayout;
use sh_value::Value;
use std::alloc::{AllocError, Global};
use std::io;
use std::io::Write;
use tool_judge::fault::{Fault, Wrong};
use tool_judge::judge::add_calls;
use tool_judge::line::Line;

/// The answers of a round, with their times, and the numbers that a judge needs.
#[derive(Drop)]
pub struct History {
    /// How many passes there are.
    pub passes: u32,
    /// How many holds a key may have.
    pub guard_max: u32,
    /// The answers of all passes, those of each pass in the order of their calls.
    pub lines: Vec<Line>,
    calls: Vec<Call>,
}

/// The key that a fault is about, if it is about one.
pub fn key_of(fault: Fault) -> Option<u64> {
    match fault {
        Fault::Wrong(Wrong::Torn(_, key) | Wrong::Changed(_, key)) => Some(key),
        Fault::Wrong(Wrong::NoOrder(key) | Wrong::NoKey(key)) => Some(key),
        Fault::Wrong(Wrong::Missed(_, key) | Wrong::WentBack(_, key)) => Some(key),
        Fault::Wrong(Wrong::EndedTwice(key) | Wrong::EndedEarly(key)) => Some(key),
        Fault::Wrong(Wrong::EndedAsAnother(key) | Wrong::NotEnded(key)) => Some(key),
        _ => None,
    }
}

// How many lines at the front are about the first line's key.
fn of_one_key(lines: &[Line]) -> usize
    ensures { result ≤ length lines.now }
{
    let Some(first) = lines.first() else {
        return 0;
    };
    lines
        .iter()
        .position(|line| line.key != first.key)
        .unwrap_or(lines.len())
}

// The calls of all these lines, which are sorted by their keys.
fn all_calls(alloc: Global, lines: &[Line]) -> Result<Vec<Call>, AllocError> {
    let mut calls = Vec::new(alloc);
    let mut rest = lines;
    for _ in 0..lines.len() {
        let (of_key, others) = rest.split_at(of_one_key(rest));
        add_calls(&mut calls, of_key)?;
        rest = others;
    }
    Ok(calls)
}

// The word of an answer, and its value, if it was read.
fn words_of(said: &Said) -> (&'static str, Option<&Value>) {
    match said {
        Said::Unread(_, _) => ("Got", None),
        Said::Known(entry) => match entry {
            Entry::Insert(_, _, value) => ("Insert", Some(value)),
            Entry::Got(_, _, value) => ("Got", Some(value)),
            Entry::Seen(_, _, value) => ("Seen", Some(value)),
            Entry::Gone(_, _) => ("Gone", None),
            Entry::Crowded(_, _) => ("Crowded", None),
            Entry::Removed(_, _) => ("Removed", None),
            Entry::Released(_, _) => ("Released", None),
        },
    }
}

fn write_value<W: Write>(value: &Value, output: &mut W) -> io::Result<()> {
    write!(output, " {}", value.words().len())?;
    for word in value.words() {
        write!(output, " {word}")?;
    }
    Ok(())
}

// Whose call it is. A take gets and removes a key in one call, and the calls of one pass may not overlap. So each pass
// has a second number, by which it removes.
fn pass_of(call: &Call, passes: u32) -> u64 {
    let second = if call.said.removes(call.said.key()) {
        passes
    } else {
        0
    };
    u64::from(call.said.pass()) + u64::from(second)
}

fn write_call<W: Write>(call: &Call, pass: u64, output: &mut W) -> io::Result<()> {
    write!(output, "{} ", call.times.begin())?;
    match call.times.end() {
        Some(end) => write!(output, "{end}")?,
        None => write!(output, "-")?,
    }
    let (word, value) = words_of(&call.said);
    write!(output, " {pass} {word} {}", call.said.key())?;
    if let Some(value) = value {
        write_value(value, output)?;
    }
    writeln!(output)
}

impl History {
    /// The history of a round in which nothing was called.
    pub fn empty(alloc: Global) -> History {
        History {
            passes: 0,
            guard_max: 0,
            lines: Vec::new(alloc),
            calls: Vec::new(alloc),
        }
    }

    /// The history of these lines, on a heap with this many passes.
    pub fn of<L: KeyLayout>(alloc: Global, passes: u32, lines: Vec<Line>) -> History {
        History {
            passes,
            guard_max: L::GUARD_MAX,
            lines,
            calls: Vec::new(alloc),
        }
    }

    /// The answers as calls, in the order in which they began.
    pub fn in_order(mut self, alloc: Global) -> Result<History, AllocError> {
        self.lines.sort_by_key(|line| line.key)?;
        self.calls = all_calls(alloc, self.lines.as_slice())?;
        self.calls.sort_by_key(|call| call.times.begin())?;
        Ok(self)
    }

    /// Writes the calls, or only those on one key.
    pub fn write<W: Write>(&self, key: Option<u64>, output: &mut W) -> io::Result<()> {
        let numbers = 2 * u64::from(self.passes);
        writeln!(output, "history {numbers} {}", self.guard_max)?;
        for call in &self.calls {
            if key.is_none_or(|key| call.said.key() == key) {
                write_call(call, pass_of(call, self.passes), output)?;
            }
        }
        Ok(())
    }
}
