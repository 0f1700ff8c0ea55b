//! What a line says.
ghost use Rattle.std.specs.Prelude.{◌≡◌, ◌≤◌, map, length, []};
ghost use Rattle.std.specs.List.{list_all};
ghost use Rattle.std.specs.Int.{is_in_range};
ghost use Rattle.history_lines.specs.Line.{seen, kind_named, word_at, number_at, numbers_from, value_said, bare_said};
ghost use Rattle.history_lines.specs.Line.{said_by, has_times, end_at, times_of, timed_of, answer_of, pass_at};
ghost use Rattle.history_lines.specs.Line.{said_of, small_number, header_of, words_of};
ghost use Rattle.history_lines.specs.Line.{is_silent, header_said, answer_said, header_line, answer_line, key_answered};
ghost use Rattle.history_lines.specs.Line.{Gives};

use crate::fault::{Cause, Trouble};
use history_timed::{Said, Span};
use sh_history::Entry;
use sh_script::words::{number, words};
use sh_value::{Value, WORDS_MAX};
use std::alloc::Global;

/// An answer, and the times of its call, if the line has them.
#[derive(Drop, Debug, PartialEq, Eq)]
pub struct Answer {
    /// The times.
    pub times: Option<Span>,
    /// The answer.
    pub said: Said,
}

/// What the header says.
#[derive(Clone, Copy, Debug, PartialEq, Eq)]
pub struct Limits {
    /// How many passes there are.
    pub passes: u32,
    /// How many holds a key may have.
    pub guard_max: u32,
}

/// The entries by their names.
#[derive(Clone, Copy, Debug, PartialEq, Eq)]
pub enum Kind {
    /// `Insert`
    Insert,
    /// `Got`
    Got,
    /// `Gone`
    Gone,
    /// `Crowded`
    Crowded,
    /// `Removed`
    Removed,
    /// `Released`
    Released,
    /// `Seen`
    Seen,
}

// The most bytes of a line, without its newline.
const LINE_BYTES_MAX: usize = 512;

fn kind_named(word: &[u8]) -> Option<Kind>
    ensures { result ≡ kind_named word.now }
{
    if word == b"Insert".as_slice() {
        Some(Kind::Insert)
    } else if word == b"Got".as_slice() {
        Some(Kind::Got)
    } else if word == b"Gone".as_slice() {
        Some(Kind::Gone)
    } else if word == b"Crowded".as_slice() {
        Some(Kind::Crowded)
    } else if word == b"Removed".as_slice() {
        Some(Kind::Removed)
    } else if word == b"Released".as_slice() {
        Some(Kind::Released)
    } else if word == b"Seen".as_slice() {
        Some(Kind::Seen)
    } else {
        None
    }
}

// The next word, and those after it.
fn next<'w, 'a>(words: &'w [&'a [u8]]) -> Result<(&'a [u8], &'w [&'a [u8]]), Cause>
    ensures { seen (λ x. (x.0.now, map (λ w. w.now) x.1.now)) result ≡ word_at (map (λ w. w.now) words.entry.now) }
{
    match words.split_first() {
        Some((first, others)) => Ok((*first, others)),
        None => Err(Cause::Count),
    }
}

// The number that the next word is, and the words after it.
fn next_number<'w, 'a>(words: &'w [&'a [u8]]) -> Result<(u64, &'w [&'a [u8]]), Cause>
    ensures { seen (λ x. (x.0, map (λ w. w.now) x.1.now)) result ≡ number_at (map (λ w. w.now) words.entry.now) }
{
    let (word, rest) = next(words)?;
    match number(word) {
        Some(n) => Ok((n, rest)),
        None => Err(Cause::Number),
    }
}

// The pass that the next word is, below the number of passes, and the words after it.
fn next_pass<'w, 'a>(passes: u32, words: &'w [&'a [u8]]) -> Result<(u32, &'w [&'a [u8]]), Cause>
    ensures { seen (λ x. (x.0, map (λ w. w.now) x.1.now)) result
        ≡ pass_at passes (map (λ w. w.now) words.entry.now) }
{
    let (pass, rest) = next_number(words)?;
    if passes as u64 <= pass {
        return Err(Cause::Pass);
    }
    Ok((pass as u32, rest))
}

// The value with these words, of which there are at most 16.
fn numbers(words: &[&[u8]]) -> Result<Value, Cause>
    requires { length words.now ≤ 16 }
    ensures { result ≡ numbers_from [] (map (λ w. w.now) words.now) }
{
    let mut value = Value::empty();
    for word in words {
        match number(word) {
            Some(n) => value.push(n),
            None => return Err(Cause::Number),
        }
    }
    Ok(value)
}

// The value that the words say: how many words it has, and then its words.
#[tactic(auto, unfolding(crate::specs::Line::value_said))]
fn value(words: &[&[u8]]) -> Result<Value, Cause>
    ensures { result ≡ value_said (map (λ w. w.now) words.now) }
{
    let (length, rest) = next_number(words)?;
    if length != rest.len() as u64 || rest.len() > WORDS_MAX {
        return Err(Cause::Count);
    }
    numbers(rest)
}

// An entry that has no value.
fn bare(entry: Entry, words: &[&[u8]]) -> Result<Said, Cause>
    ensures { result ≡ bare_said entry (map (λ w. w.now) words.now) }
{
    if words.is_empty() {
        Ok(Said::Known(entry))
    } else {
        Err(Cause::Count)
    }
}

// What an answer of this kind to the pass says of the key.
#[tactic(auto, unfolding(crate::specs::Line::said_by))]
fn said_by(kind: Kind, pass: u32, key: u64, words: &[&[u8]]) -> Result<Said, Cause>
    ensures { result ≡ said_by kind pass key (map (λ w. w.now) words.now) }
{
    match kind {
        Kind::Insert => Ok(Said::Known(Entry::Insert(pass, key, value(words)?))),
        Kind::Got => {
            if words.is_empty() {
                return Ok(Said::Unread(pass, key));
            }
            Ok(Said::Known(Entry::Got(pass, key, value(words)?)))
        }
        Kind::Gone => bare(Entry::Gone(pass, key), words),
        Kind::Crowded => bare(Entry::Crowded(pass, key), words),
        Kind::Removed => bare(Entry::Removed(pass, key), words),
        Kind::Released => bare(Entry::Released(pass, key), words),
        Kind::Seen => Ok(Said::Known(Entry::Seen(pass, key, value(words)?))),
    }
}

// The pass, the entry, its key, and its value if it has one, of a map with this number of passes.
#[tactic(auto, unfolding(crate::specs::Line::said_of))]
fn said_of(passes: u32, words: &[&[u8]]) -> Result<Said, Cause>
    ensures { result ≡ said_of passes (map (λ w. w.now) words.now) }
{
    let (pass, rest) = next_pass(passes, words)?;
    let (word, rest) = next(rest)?;
    let Some(kind) = kind_named(word) else {
        return Err(Cause::Entry);
    };
    let (key, rest) = next_number(rest)?;
    said_by(kind, pass, key, rest)
}

// Whether two times come first: the second word is a number or `-`.
fn has_times(words: &[&[u8]]) -> bool
    ensures { result ≡ has_times (map (λ w. w.now) words.now) }
{
    match words {
        [_, end, ..] => *end == b"-".as_slice() || number(end).is_some(),
        _ => false,
    }
}

// When a call ended, or `None` for `-`, and the words after it.
fn next_end<'w, 'a>(words: &'w [&'a [u8]]) -> Result<(Option<u64>, &'w [&'a [u8]]), Cause>
    ensures { seen (λ x. (x.0, map (λ w. w.now) x.1.now)) result ≡ end_at (map (λ w. w.now) words.entry.now) }
{
    let (word, rest) = next(words)?;
    if word == b"-".as_slice() {
        return Ok((None, rest));
    }
    match number(word) {
        Some(end) => Ok((Some(end), rest)),
        None => Err(Cause::Number),
    }
}

// The times of a call.
fn times_of(begin: u64, end: Option<u64>) -> Result<Span, Cause>
    ensures { result ≡ times_of begin end }
{
    match end {
        None => Ok(Span::unended(begin)),
        Some(end) => match Span::new(begin, end) {
            Some(times) => Ok(times),
            None => Err(Cause::Times),
        },
    }
}

// The answer with its times.
#[tactic(auto, unfolding(crate::specs::Line::timed_of))]
fn timed_of(passes: u32, words: &[&[u8]]) -> Result<Answer, Cause>
    ensures { result ≡ timed_of passes (map (λ w. w.now) words.now) }
{
    let (begin, rest) = next_number(words)?;
    let (end, rest) = next_end(rest)?;
    let times = times_of(begin, end)?;
    let said = said_of(passes, rest)?;
    Ok(Answer {
        times: Some(times),
        said,
    })
}

// The answer that the words say, of a map with this number of passes.
fn answer_of(passes: u32, words: &[&[u8]]) -> Result<Answer, Cause>
    ensures { result ≡ answer_of passes (map (λ w. w.now) words.now) }
{
    if has_times(words) {
        return timed_of(passes, words);
    }
    let said = said_of(passes, words)?;
    Ok(Answer { times: None, said })
}

// A number of the header, below 2^32.
fn header_u32(word: &[u8]) -> Result<u32, Cause>
    ensures { result ≡ small_number word.now }
{
    let Some(n) = number(word) else {
        return Err(Cause::Header);
    };
    match u32::try_from(n) {
        Ok(n) => Ok(n),
        Err(_) => Err(Cause::Header),
    }
}

// What the words of the header say.
fn header(words: &[&[u8]]) -> Result<Limits, Cause>
    ensures { result ≡ header_of (map (λ w. w.now) words.now) }
{
    match words {
        [word, passes, guard_max] => {
            if *word != b"history".as_slice() {
                return Err(Cause::Header);
            }
            let passes = header_u32(passes)?;
            let guard_max = header_u32(guard_max)?;
            Ok(Limits { passes, guard_max })
        }
        _ => Err(Cause::Header),
    }
}

// Whether a line with these words says nothing.
fn is_silent(words: &[&[u8]]) -> bool
    ensures { result ≡ is_silent (map (λ w. w.now) words.now) }
{
    match words.first() {
        None => true,
        Some(word) => word.first() == Some(&b';'),
    }
}

// What the words of a line say before the header has come.
fn header_said(words: &[&[u8]]) -> Result<Option<Limits>, Cause>
    ensures { result ≡ header_said (map (λ w. w.now) words.now) }
{
    if is_silent(words) {
        return Ok(None);
    }
    Ok(Some(header(words)?))
}

// What the words of a line say under a header with this number of passes.
fn answer_said(passes: u32, words: &[&[u8]]) -> Result<Option<Answer>, Cause>
    ensures { result ≡ answer_said passes (map (λ w. w.now) words.now) }
{
    if is_silent(words) {
        return Ok(None);
    }
    Ok(Some(answer_of(passes, words)?))
}

fn is_text(line: &[u8]) -> bool
    ensures { result ≡ list_all (is_in_range 32 126) line.now }
{
    line.iter().all(|b| 32 <= *b && *b <= 126)
}

// The words of a line without its newline, of at most 512 bytes from 32 to 126.
fn words_of(alloc: Global, line: &[u8]) -> Result<Vec<&[u8]>, Trouble>
    ensures { Gives (λ words. map (λ w. w.now) words.items) (words_of line.now) result }
{
    if line.len() > LINE_BYTES_MAX {
        return Err(Trouble::Because(Cause::Size));
    }
    if !is_text(line) {
        return Err(Trouble::Because(Cause::Byte));
    }
    Ok(words(alloc, line)?)
}

/// What a line says before the header has come: nothing, or the header.
pub fn header_line(alloc: Global, line: &[u8]) -> Result<Option<Limits>, Trouble>
    ensures { Gives (λ l. l) (header_line line.now) result }
{
    let words = words_of(alloc, line)?;
    match header_said(words.as_slice()) {
        Ok(said) => Ok(said),
        Err(cause) => Err(Trouble::Because(cause)),
    }
}

/// What a line says under a header with this number of passes: nothing, or an answer.
pub fn answer_line(alloc: Global, passes: u32, line: &[u8]) -> Result<Option<Answer>, Trouble>
    ensures { Gives (λ s. s) (answer_line passes line.now) result }
{
    let words = words_of(alloc, line)?;
    match answer_said(passes, words.as_slice()) {
        Ok(said) => Ok(said),
        Err(cause) => Err(Trouble::Because(cause)),
    }
}

/// The key of the answer that a line says under a header with this number of passes, if it says one.
pub fn key_answered(alloc: Global, passes: u32, line: &[u8]) -> Result<Option<u64>, Trouble>
    ensures { Gives (λ k. k) (key_answered passes line.now) result }
{
    match answer_line(alloc, passes, line)? {
        Some(answer) => Ok(Some(answer.said.key())),
        None => Ok(None),
    }
}
