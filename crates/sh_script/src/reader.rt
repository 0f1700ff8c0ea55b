//! A script is read line by line, whatever its lines after the header contain.
ghost use Rattle.std.specs.Prelude.{◌≡◌, ◌<◌, ℕ, List, Result, [], ◌∷◌, IfNone, IfSome, length, map};
ghost use Rattle.std.specs.List.{list_all, position};
ghost use Rattle.std.specs.Int.{is_in_range};
ghost use Rattle.sh_script.specs.declared.trouble.Trouble.{Trouble};
ghost use Rattle.sh_script.specs.Words.{Word, is_newline};
ghost use Rattle.sh_script.specs.Trouble.{Gives, GivesNext, GivesScript, GivesLine};
ghost use Rattle.sh_script.specs.Script.{whole_line, says, after_line, ended, pieces_of, script_of};

use crate::fault::{Cause, Fault};
use crate::header::{Header, Opening, Version, read_header, read_opening};
use crate::trouble::Trouble;
use crate::words::words;
use std::alloc::Global;

/// The most bytes of a line of a script, without its newline.
pub const LINE_BYTES_MAX: usize = 512;

/// The most bytes of a script.
pub const SCRIPT_BYTES_MAX: usize = 1_048_576;

/// What the lines after the header add up to.
pub trait ScriptBody<'a>: Drop {
    // What there is after a line with these words, in a heap with this number of passes.
    ghost adds: { ℕ → Self → List Word → Result Self Trouble };

    /// Adds a line, whose pass is below the number of passes. After an error it is not used again.
    fn add(&mut self, alloc: Global, passes: u32, words: &[&'a [u8]]) -> Result<(), Trouble>
        ensures { GivesNext (adds passes self.old (map (λ w. w.now) words.now)) self.new result };
}

/// The result of the lines so far.
#[derive(Drop)]
pub struct Read<B> {
    pub opening: Opening,
    pub body: B,
}

fn is_text(line: &[u8]) -> bool
    ensures { result ≡ list_all (is_in_range 32 126) line.now }
{
    line.iter().all(|b| 32 <= *b && *b <= 126)
}

fn words_of_line(alloc: Global, line: &[u8]) -> Result<Vec<&[u8]>, Trouble>
    ensures { Gives (λ words. map (λ w. w.now) words.items) result (whole_line line.now) }
{
    if line.len() > LINE_BYTES_MAX {
        return Err(Trouble::Because(Cause::Size));
    }
    if !is_text(line) {
        return Err(Trouble::Because(Cause::Byte));
    }
    Ok(words(alloc, line)?)
}

fn read_words<'a, B: ScriptBody<'a>>(
    read: &mut Read<B>,
    alloc: Global,
    words: &[&'a [u8]],
) -> Result<(), Trouble>
    ensures { GivesNext (says B.adds read.old (map (λ w. w.now) words.now)) read.new result }
{
    let Some(first) = words.first() else {
        return Ok(());
    };
    if first.first() == Some(&b';') {
        return Ok(());
    }
    match read.opening {
        Opening::Unread => read.opening = read_opening(words)?,
        Opening::Versioned => read.opening = Opening::Headed(read_header(Version::Two, words)?),
        Opening::Headed(heading) => read.body.add(alloc, heading.shape.passes(), words)?,
    }
    Ok(())
}

fn read_line<'a, B: ScriptBody<'a>>(
    read: &mut Read<B>,
    alloc: Global,
    number: u64,
    line: &'a [u8],
) -> Result<(), Fault>
    ensures { GivesLine (after_line B.adds read.old line.entry.now) number read.new result }
{
    match words_of_line(alloc, line) {
        Ok(words) => match read_words(read, alloc, words.as_slice()) {
            Ok(()) => Ok(()),
            Err(trouble) => Err(trouble.at(number)),
        },
        Err(trouble) => Err(trouble.at(number)),
    }
}

// The header and the body, if the text may end here.
fn end<B: Drop>(read: Read<B>, number: u64, rest: &[u8]) -> Result<(Header, B), Fault>
    ensures { result ≡ ended read number rest.now }
{
    if !rest.is_empty() {
        let cause = if rest.len() > LINE_BYTES_MAX {
            Cause::Size
        } else {
            Cause::Cut
        };
        return Err(Fault::Script(number, cause));
    }
    let Read { opening, body } = read;
    match opening {
        Opening::Headed(header) => Ok((header, body)),
        Opening::Unread | Opening::Versioned => Err(Fault::Script(number, Cause::Header)),
    }
}

#[tactic(auto, using(crate::proofs::Pieces::pieces_none, crate::proofs::Pieces::pieces_some))]
/// The first line and the text after its newline, if there is a newline.
pub fn split_line(text: &[u8]) -> Option<(&[u8], &[u8])>
    ensures none { IfNone result (pieces_of text.now ≡ text.now ∷ []) }
    ensures some { IfSome result (λ p. pieces_of text.now ≡ p.0.now ∷ pieces_of p.1.now) }
    ensures shorter { IfSome result (λ p. length p.1.now < length text.now) }
{
    match newline_in(text) {
        None => None,
        Some(end) => {
            let (_, rest) = text.split_at(end + 1);
            Some((&text[..end], rest))
        }
    }
}

fn newline_in(text: &[u8]) -> Option<usize>
    ensures { result ≡ position is_newline text.now }
{
    text.iter().position(|b| *b == b'\n')
}

/// The header of a script, and what its other lines add up to, from what there is before them.
pub fn parse<'a, B: ScriptBody<'a>>(
    alloc: Global,
    text: &'a [u8],
    start: B,
) -> Result<(Header, B), Fault>
    ensures { GivesScript (λ x. x) result (script_of B.adds start text.entry.now) }
{
    if text.len() > SCRIPT_BYTES_MAX {
        return Err(Fault::Script(0, Cause::Size));
    }
    let mut read = Read {
        opening: Opening::Unread,
        body: start,
    };
    let mut rest = text;
    let mut number = 1;
    while let Some((line, more)) = split_line(rest) {
        read_line(&mut read, alloc, number, line)?;
        rest = more;
        number += 1;
    }
    end(read, number, rest)
}
