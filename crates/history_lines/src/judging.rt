//! A whole input, read to its verdict.
ghost use Rattle.std.specs.Prelude.{◌≡◌, ◌⊎◌, ℕ, List, [], Some, OnOk, IfErr, MatchResult};
ghost use Rattle.std.specs.Io.BufRead.{take_through, drop_through};
ghost use Rattle.history_lines.specs.declared.reading.Reading.{Reading as AsRead};
ghost use Rattle.history_lines.specs.Book.{Book};
ghost use Rattle.history_lines.specs.Taken.{HasTakenIn};
ghost use Rattle.history_lines.specs.Judged.{cut_of, CameOfRest, IsVerdict, IsFaultOf};

use crate::Reading;
use crate::fault::{Cause, Fault, Trouble};
use history_timed::Verdict;
use std::alloc::Global;
use std::io::{BufRead, ErrorKind};

// The next line, with its newline if it has one. At the end it has no byte.
pub(crate) fn next_line<R: BufRead>(input: &mut R, line: &mut Vec<u8>) -> Result<(), Fault>
    ensures bytes { (text : List ℕ) → R.remaining input.old ≡ Some text
        → OnOk result (line.new.items ≡ take_through 10 text) }
    ensures rest { (text : List ℕ) → R.remaining input.old ≡ Some text
        → OnOk result (R.remaining input.new ≡ Some (drop_through 10 text)) }
    ensures fault { IfErr result (λ fault. (fault ≡ Fault.Memory) ⊎ (fault ≡ Fault.Io)) }
{
    line.clear();
    match input.read_until(b'\n', line) {
        Ok(_) => Ok(()),
        Err(error) => match error.kind() {
            ErrorKind::OutOfMemory => Err(Fault::Memory),
            _ => Err(Fault::Io),
        },
    }
}

// What is wrong with a last line that has no newline.
pub(crate) fn cut(line: &[u8]) -> Cause
    ensures { result ≡ cut_of line.now }
{
    if line.len() > 512 {
        Cause::Size
    } else {
        Cause::Cut
    }
}

// The verdict when the input ends before the line of this number.
fn end(reading: &Reading, alloc: Global, number: u64) -> Result<Option<Verdict>, Fault>
    ensures { (book : Book) (now : AsRead) → HasTakenIn reading.now book → CameOfRest book number [] now result }
{
    match reading.verdict(alloc) {
        Ok(Some(verdict)) => Ok(Some(verdict)),
        Ok(None) => Err(Fault::History(number, Cause::Header)),
        Err(_) => Err(Fault::Memory),
    }
}

// Takes in a line with its newline, or ends.
fn turn(
    reading: &mut Reading,
    alloc: Global,
    number: u64,
    text: &[u8],
) -> Result<Option<Verdict>, Fault>
    ensures { (book : Book) (rest : List ℕ) → HasTakenIn reading.old book → text.now ≡ take_through 10 rest
        → CameOfRest book number rest reading.new result }
{
    let Some((last, line)) = text.split_last() else {
        return end(reading, alloc, number);
    };
    if *last != b'\n' {
        return Err(Fault::History(number, cut(text)));
    }
    match reading.line(alloc, number, line) {
        Ok(None) => Ok(None),
        Ok(Some(clash)) => Ok(Some(Verdict::Broken(number, clash))),
        Err(Trouble::Memory) => Err(Fault::Memory),
        Err(Trouble::Because(cause)) => Err(Fault::History(number, cause)),
    }
}

/// Reads a history to its end, or to the first line that is not allowed or has a fault, and judges it. Of the lines
/// `history 1 4`, `0 Insert 4096 1 7`, `0 Removed 4096` and `0 Got 4096` the verdict is `line 4: AfterRemoval, by line
/// 3`. Memory grows with the keys and the holds, and not with the lines, unless they have times.
pub fn judge<R: BufRead>(alloc: Global, input: &mut R) -> Result<Verdict, Fault>
    ensures { (text : List ℕ) → R.remaining input.old ≡ Some text
        → MatchResult result (IsVerdict text) (IsFaultOf text) }
{
    let mut reading = Reading::new(alloc);
    let mut line = Vec::new(alloc);
    for number in 1..u64::MAX {
        next_line(input, &mut line)?;
        match turn(&mut reading, alloc, number, line.as_slice()) {
            Ok(None) => {}
            Ok(Some(verdict)) => return Ok(verdict),
            Err(fault) => return Err(fault),
        }
    }
    // (no input has 2^64 - 2 lines)
    Err(Fault::Io)
}
