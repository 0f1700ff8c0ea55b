//! Comments that ask for something.
ghost use Rattle.std.specs.Prelude.{◌≡◌, ◌≤◌, length, drop, map};
ghost use Rattle.std.specs.List.{list_all};
ghost use Rattle.sh_script.specs.Script.{pieces_of};
ghost use Rattle.sh_script.specs.Words.{words_in};
ghost use Rattle.sh_script.specs.Trouble.{GivesScript, GivesLine};
ghost use Rattle.script_orders.specs.Comments.{lacks_blank, comment_of, is_entry, has_value, is_number, cause_of};
ghost use Rattle.script_orders.specs.Comments.{replies_of, with_reply, nothing_asked, asks, after_comment, asked_from};

use sh_script::words::{number, words};
use sh_script::{Cause, Fault, split_line};
use std::alloc::Global;

/// The replies that a script's comments name, each as its words.
#[derive(Drop)]
pub struct Asked<'t> {
    /// Those of comments `; where`: an outcome that is looked at has each of them.
    pub wheres: Vec<Vec<&'t [u8]>>,
    /// Those of comments `; never`: an outcome that is looked at is to have none of them.
    pub nevers: Vec<Vec<&'t [u8]>>,
}

/// What a line asks.
#[derive(Clone, Copy, Debug, PartialEq, Eq)]
pub enum Comment {
    /// Nothing.
    Plain,
    /// Nothing, since the blank after `;` is missing.
    LacksBlank,
    /// For outcomes with a reply alone.
    Where,
    /// That no outcome has a reply.
    Never,
}

// Whether the word begins a comment that would ask for something with a blank after `;`.
fn lacks_blank(word: &[u8]) -> bool
    ensures { result ≡ lacks_blank word.now }
{
    word == b";explore".as_slice() || word == b";where".as_slice() || word == b";never".as_slice()
}

// What the words of a line ask.
fn comment_of(words: &[&[u8]]) -> Comment
    ensures { result ≡ comment_of (map (λ w. w.now) words.now) }
{
    let Some((first, others)) = words.split_first() else {
        return Comment::Plain;
    };
    if lacks_blank(first) {
        return Comment::LacksBlank;
    }
    if *first != b";".as_slice() {
        return Comment::Plain;
    }
    match others.first() {
        Some(word) if *word == b"where".as_slice() => Comment::Where,
        Some(word) if *word == b"never".as_slice() => Comment::Never,
        _ => Comment::Plain,
    }
}

// Whether a step of this kind may decide this entry.
fn is_entry(kind: &[u8], entry: &[u8]) -> bool
    ensures { result ≡ is_entry kind.now entry.now }
{
    if kind == b"Enter".as_slice() {
        entry == b"Got".as_slice() || entry == b"Gone".as_slice() || entry == b"Crowded".as_slice()
    } else if kind == b"Mark".as_slice() {
        entry == b"Removed".as_slice() || entry == b"Gone".as_slice()
    } else if kind == b"Drop".as_slice() {
        entry == b"Released".as_slice()
    } else {
        kind == b"Publish".as_slice() && entry == b"Insert".as_slice()
    }
}

// Whether a value follows after this entry.
fn has_value(entry: &[u8]) -> bool
    ensures { result ≡ has_value entry.now }
{
    entry == b"Got".as_slice() || entry == b"Insert".as_slice()
}

// Whether each word is a number.
fn are_numbers(words: &[&[u8]]) -> bool
    ensures { result ≡ list_all is_number (map (λ w. w.now) words.now) }
{
    for word in words {
        if number(word).is_none() {
            return false;
        }
    }
    true
}

// Why no reply in a heap with this number of passes begins with these words; none if one may.
fn cause_of(passes: u32, words: &[&[u8]]) -> Option<Cause>
    ensures { result ≡ cause_of passes (map (λ w. w.now) words.now) }
{
    let [pass, kind, entry, key, value @ ..] = words else {
        return Some(Cause::Count);
    };
    let Some(pass) = number(pass) else {
        return Some(Cause::Number);
    };
    if u64::from(passes) <= pass {
        return Some(Cause::Pass);
    }
    if !is_entry(kind, entry) {
        return Some(Cause::Command);
    }
    if !value.is_empty() && !has_value(entry) {
        return Some(Cause::Count);
    }
    if number(key).is_none() || !are_numbers(value) {
        return Some(Cause::Number);
    }
    None
}

// Adds the reply that the words after the first two are, of the line of this number.
fn push_reply<'t>(
    replies: &mut Vec<Vec<&'t [u8]>>,
    alloc: Global,
    passes: u32,
    number: u64,
    words: &[&'t [u8]],
) -> Result<(), Fault>
    requires { 2 ≤ length words.now }
    ensures { GivesLine (with_reply passes (replies_of replies.old.items) (drop 2 (map (λ w. w.now) words.now))) number
        (replies_of replies.new.items) result }
{
    let reply = &words[2..];
    if let Some(cause) = cause_of(passes, reply) {
        return Err(Fault::Script(number, cause));
    }
    let Ok(reply) = Vec::from_slice(alloc, reply) else {
        return Err(Fault::Memory);
    };
    match replies.push(reply) {
        Ok(()) => Ok(()),
        Err(_) => Err(Fault::Memory),
    }
}

impl<'t> Asked<'t> {
    // Nothing.
    fn new(alloc: Global) -> Asked<'t>
        ensures { asks result ≡ nothing_asked }
    {
        Asked {
            wheres: Vec::new(alloc),
            nevers: Vec::new(alloc),
        }
    }

    // Adds what the line of this number asks.
    fn read(&mut self, alloc: Global, passes: u32, number: u64, line: &'t [u8]) -> Result<(), Fault>
        ensures { GivesLine (after_comment passes (asks self.old) (words_in line.now)) number (asks self.new) result }
    {
        let Ok(words) = words(alloc, line) else {
            return Err(Fault::Memory);
        };
        let words = words.as_slice();
        match comment_of(words) {
            Comment::Plain => Ok(()),
            Comment::LacksBlank => Err(Fault::Script(number, Cause::Command)),
            Comment::Where => push_reply(&mut self.wheres, alloc, passes, number, words),
            Comment::Never => push_reply(&mut self.nevers, alloc, passes, number, words),
        }
    }
}

/// What the comments of a script ask, in a heap with this number of passes.
///
/// A comment that begins `;explore`, `;where` or `;never`, without the blank, is the fault `Command`. The words after
/// `; where` and `; never` are a reply of mode steps, whose value may be left out.
pub fn asked_of(alloc: Global, passes: u32, text: &[u8]) -> Result<Asked<'_>, Fault>
    ensures { GivesScript asks result (asked_from passes nothing_asked 1 (pieces_of text.now)) }
{
    let mut asked = Asked::new(alloc);
    let mut rest = text;
    let mut number = 1;
    while let Some((line, more)) = split_line(rest) {
        asked.read(alloc, passes, number, line)?;
        rest = more;
        number += 1;
    }
    asked.read(alloc, passes, number, rest)?;
    Ok(asked)
}
