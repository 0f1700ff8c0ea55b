//! A line with a call, read from its words.
ghost use Rattle.std.specs.Prelude.{◌≡◌, map, option_map, None, IfOk, IfSome};
ghost use Rattle.sh_script.specs.Trouble.{Gives};
ghost use Rattle.sh_script.specs.Names.{binding_of, find_from};
ghost use Rattle.sh_script.specs.CallLines.{found_of, reference_of, about_of, new_name, command_of, call_of, line_of};
ghost use Rattle.sh_script.specs.CallLines.{call_added};

use crate::arguments::{next, next_pass, none, number_or_cause, only};
use crate::calls::{Call, CallLine, Reference};
use crate::fault::Cause;
use crate::names::{Binder, Bound, Found, Names};
use crate::numbers::read_numbers;
use crate::reader::ScriptBody;
use crate::trouble::Trouble;
use crate::words::is_name;
use std::alloc::Global;
use std::marker::Model;

/// The commands.
#[derive(Clone, Copy, Debug, PartialEq, Eq)]
pub enum Command {
    /// `adopt`
    Adopt,
    /// `leave`
    Leave,
    /// `insert`
    Insert,
    /// `get`
    Get,
    /// `read`
    Read,
    /// `remove`
    Remove,
    /// `release`
    Release,
    /// `post`
    Post,
    /// `wait`
    Wait,
}

#[tactic(auto, unfolding(crate::specs::CallLines::found_of))]
fn found(names: &Names<'_>, word: &[u8]) -> Result<Found, Trouble>
    ensures { Gives (λ f. f) result (found_of names.now word.now) }
{
    if !is_name(word) {
        return Err(Trouble::Because(Cause::Name));
    }
    match names.find(word) {
        Some(found) => Ok(found),
        None => Err(Trouble::Because(Cause::Unbound)),
    }
}

#[tactic(auto, unfolding(crate::specs::CallLines::reference_of))]
fn reference(names: &Names<'_>, word: &[u8]) -> Result<Reference, Trouble>
    ensures { Gives (λ r. r) result (reference_of names.now word.now) }
{
    if !word.is_empty() && word[0] == b'#' {
        return Ok(Reference::Key(number_or_cause(&word[1..])?));
    }
    let found = found(names, word)?;
    match found.by {
        Binder::Insert => Ok(Reference::Name(found.place)),
        Binder::Post => Err(Trouble::Because(Cause::Unbound)),
    }
}

#[tactic(auto, unfolding(crate::specs::CallLines::about_of))]
fn about(names: &Names<'_>, words: &[&[u8]]) -> Result<Reference, Trouble>
    ensures { Gives (λ r. r) result (about_of names.now (map (λ w. w.now) words.now)) }
{
    reference(names, only(words)?)
}

fn command_named(word: &[u8]) -> Option<Command>
    ensures { result ≡ command_of word.now }
{
    if word == b"adopt".as_slice() {
        Some(Command::Adopt)
    } else if word == b"leave".as_slice() {
        Some(Command::Leave)
    } else if word == b"insert".as_slice() {
        Some(Command::Insert)
    } else if word == b"get".as_slice() {
        Some(Command::Get)
    } else if word == b"read".as_slice() {
        Some(Command::Read)
    } else if word == b"remove".as_slice() {
        Some(Command::Remove)
    } else if word == b"release".as_slice() {
        Some(Command::Release)
    } else if word == b"post".as_slice() {
        Some(Command::Post)
    } else if word == b"wait".as_slice() {
        Some(Command::Wait)
    } else {
        None
    }
}

#[tactic(auto, unfolding(crate::specs::CallLines::new_name))]
fn new_name<'a>(names: &Names<'_>, word: &'a [u8]) -> Result<&'a [u8], Trouble>
    ensures name { Gives (λ w. w.now) result (new_name names.now word.entry.now) }
    ensures new { IfOk result (λ w. find_from 0 names.now w.now ≡ None) }
{
    if !is_name(word) {
        return Err(Trouble::Because(Cause::Name));
    }
    if names.find(word).is_some() {
        return Err(Trouble::Because(Cause::Bound));
    }
    Ok(word)
}

/// The call, and the name that it binds.
#[tactic(auto, unfolding(crate::specs::CallLines::call_of))]
fn call<'a>(
    alloc: Global,
    names: &Names<'_>,
    command: Command,
    words: &[&'a [u8]],
) -> Result<(Call, Option<Bound<'a>>), Trouble>
    ensures call { Gives (λ c. (c.0, option_map binding_of c.1)) result
        (call_of names.now command (map (λ w. w.now) words.now)) }
    ensures new { IfOk result (λ c. IfSome c.1 (λ b. find_from 0 names.now b.name.now ≡ None)) }
{
    match command {
        Command::Adopt => {
            let shard = number_or_cause(only(words)?)?;
            Ok((Call::Adopt(shard), None))
        }
        Command::Leave => {
            none(words)?;
            Ok((Call::Leave, None))
        }
        Command::Insert => {
            let (word, rest) = next(Cause::Count, words)?;
            let name = new_name(names, word)?;
            let by = Binder::Insert;
            let value = read_numbers(alloc, rest)?;
            Ok((Call::Insert(value), Some(Bound { name, by })))
        }
        Command::Get => Ok((Call::Get(about(names, words)?), None)),
        Command::Read => Ok((Call::Read(about(names, words)?), None)),
        Command::Remove => Ok((Call::Remove(about(names, words)?), None)),
        Command::Release => Ok((Call::Release(about(names, words)?), None)),
        Command::Post => {
            let name = new_name(names, only(words)?)?;
            let by = Binder::Post;
            Ok((Call::Post, Some(Bound { name, by })))
        }
        Command::Wait => {
            let found = found(names, only(words)?)?;
            Ok((Call::Wait(found.place), None))
        }
    }
}

/// The line that the words express, and the name that it binds, which is not bound yet.
#[tactic(auto, unfolding(crate::specs::CallLines::line_of))]
pub fn line<'a>(
    alloc: Global,
    passes: u32,
    names: &Names<'_>,
    words: &[&'a [u8]],
) -> Result<(CallLine, Option<Bound<'a>>), Trouble>
    ensures line { Gives (λ c. (c.0, option_map binding_of c.1)) result
        (line_of passes names.now (map (λ w. w.now) words.now)) }
    ensures new { IfOk result (λ c. IfSome c.1 (λ b. find_from 0 names.now b.name.now ≡ None)) }
{
    let (pass, rest) = next_pass(passes, words)?;
    let (word, rest) = next(Cause::Count, rest)?;
    let Some(command) = command_named(word) else {
        return Err(Trouble::Because(Cause::Command));
    };
    let (call, binds) = call(alloc, names, command, rest)?;
    Ok((CallLine { pass, call }, binds))
}

/// The calls so far, and the names that they bind. A contract sees both.
#[derive(Drop)]
pub struct CallsRead<'a> {
    names: Names<'a>,
    lines: Vec<CallLine>,
}

impl<'a> Model for CallsRead<'a> {
    ghost use Rattle.sh_script.specs.CallLines.{CallsSoFar};

    ghost Value = { CallsSoFar };

    ghost view = { λ c. record { names = c.names; lines = c.lines.items } };
}

impl<'a> CallsRead<'a> {
    ghost use Rattle.sh_script.specs.CallLines.{no_calls};

    /// No calls.
    pub fn new(alloc: Global) -> Self
        ensures { result ≡ no_calls }
    {
        CallsRead {
            names: Names::new(alloc),
            lines: Vec::new(alloc),
        }
    }

    /// The calls, in order.
    pub fn into_lines(self) -> Vec<CallLine>
        ensures { result.items ≡ self.entry.lines }
    {
        self.lines
    }
}

impl<'a> ScriptBody<'a> for CallsRead<'a> {
    ghost adds = { call_added };

    fn add(&mut self, alloc: Global, passes: u32, words: &[&'a [u8]]) -> Result<(), Trouble> {
        let (line, binds) = line(alloc, passes, &self.names, words)?;
        if let Some(bound) = binds {
            self.names.push(bound.name, bound.by)?;
        }
        self.lines.push(line)?;
        Ok(())
    }
}
