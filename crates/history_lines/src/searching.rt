//! A whole input, searched for each line that is not allowed.
ghost use Rattle.std.specs.Prelude.{◌≡◌, ℕ, List, Option, Some, map, OnOk, MatchResult};
ghost use Rattle.std.specs.Io.BufRead.{take_through};
ghost use Rattle.history_lines.specs.Searched.{Trail, no_trail, is_on_other, line_of, with_line, with_finding};
ghost use Rattle.history_lines.specs.Searched.{IsFound, IsFaultOfSearch};
ghost use Rattle.history_lines.specs.Searched.{HasFollowedTrail, CameOfTaken, CameOfNext, CameOfTurn, CameOfEnd};

use crate::Reading;
use crate::fault::{Cause, Fault, Trouble};
use crate::judging::{cut, next_line};
use history_audit::Clash;
use history_timed::{Finding, Verdict};
use std::alloc::{AllocError, Global};
use std::io::BufRead;

/// A line that says an answer.
#[derive(Drop, Debug)]
pub struct Recorded {
    /// Its number, counted from 1.
    pub number: u64,
    /// Its bytes, without the newline.
    pub text: Vec<u8>,
}

/// What was found in a history.
#[derive(Drop, Debug)]
pub struct Found {
    /// The lines that say an answer, in their order.
    pub lines: Vec<Recorded>,
    /// Those that are not allowed, in their order.
    pub findings: Vec<Finding>,
    /// The verdict on the lines without times that are allowed, or on all lines with times.
    pub verdict: Verdict,
}

/// A search: of all keys, or of one.
#[derive(Drop)]
pub struct Search {
    only: Option<u64>,
    reading: Reading,
    lines: Vec<Recorded>,
    findings: Vec<Finding>,
}

// Whether the line says an answer on another key than the one that is searched.
fn is_on_other(only: Option<u64>, said: Option<u64>) -> bool
    ensures { result ≡ is_on_other only said }
{
    match (only, said) {
        (Some(key), Some(said)) => said != key,
        _ => false,
    }
}

impl Search {
    /// Before the first line.
    pub fn new(alloc: Global, only: Option<u64>) -> Search
        ensures { HasFollowedTrail only result no_trail }
    {
        Search {
            only,
            reading: Reading::new(alloc),
            lines: Vec::new(alloc),
            findings: Vec::new(alloc),
        }
    }

    // Notes what came of a line: whether it clashes, and the line itself if it says an answer.
    fn note(
        &mut self,
        alloc: Global,
        number: u64,
        line: &[u8],
        said: Option<u64>,
        clash: Option<Clash>,
    ) -> Result<(), AllocError>
        ensures lines { OnOk result (map line_of self.new.lines.items
            ≡ with_line (map line_of self.old.lines.items) number line.now said) }
        ensures findings { OnOk result (self.new.findings.items
            ≡ with_finding self.old.findings.items number clash) }
        ensures reading { self.new.reading ≡ self.old.reading }
        ensures only { self.new.only ≡ self.old.only }
    {
        if let Some(clash) = clash {
            self.findings.push(Finding {
                line: number,
                clash,
            })?;
        }
        if said.is_some() {
            let text = line.to_vec(alloc)?;
            self.lines.push(Recorded { number, text })?;
        }
        Ok(())
    }

    // Takes in a line that is not passed over.
    fn take(
        &mut self,
        alloc: Global,
        number: u64,
        line: &[u8],
        said: Option<u64>,
    ) -> Result<(), Trouble>
        ensures { (only : Option ℕ) (trail : Trail) → HasFollowedTrail only self.old trail
            → CameOfTaken only trail number line.now said self.new result }
    {
        let clash = self.reading.line(alloc, number, line)?;
        self.note(alloc, number, line, said, clash)?;
        Ok(())
    }

    /// Takes in the next line, without its newline, by its number. A line with a fault is refused with the first cause.
    pub fn line(&mut self, alloc: Global, number: u64, line: &[u8]) -> Result<(), Trouble>
        ensures { (only : Option ℕ) (trail : Trail) → HasFollowedTrail only self.old trail
            → CameOfNext only trail number line.now self.new result }
    {
        let said = self.reading.key_said(alloc, line)?;
        if is_on_other(self.only, said) {
            return Ok(());
        }
        self.take(alloc, number, line, said)
    }
}

// What is found when the input ends before the line of this number.
fn end(search: Search, alloc: Global, number: u64) -> Result<Found, Fault>
    ensures { (only : Option ℕ) (trail : Trail) → HasFollowedTrail only search trail
        → CameOfEnd trail number result }
{
    let verdict = match search.reading.verdict(alloc) {
        Ok(Some(verdict)) => verdict,
        Ok(None) => return Err(Fault::History(number, Cause::Header)),
        Err(_) => return Err(Fault::Memory),
    };
    let Ok(mut clashing) = search.reading.findings(alloc) else {
        return Err(Fault::Memory);
    };
    let mut findings = search.findings;
    if findings.append(&mut clashing).is_err() {
        return Err(Fault::Memory);
    }
    Ok(Found {
        lines: search.lines,
        findings,
        verdict,
    })
}

// Takes in a line with its newline. Whether there was one.
fn turn(search: &mut Search, alloc: Global, number: u64, text: &[u8]) -> Result<bool, Fault>
    ensures { (only : Option ℕ) (trail : Trail) (rest : List ℕ) → HasFollowedTrail only search.old trail
        → text.now ≡ take_through 10 rest → CameOfTurn only trail number rest search.new result }
{
    let Some((last, line)) = text.split_last() else {
        return Ok(false);
    };
    if *last != b'\n' {
        return Err(Fault::History(number, cut(text)));
    }
    match search.line(alloc, number, line) {
        Ok(()) => Ok(true),
        Err(Trouble::Memory) => Err(Fault::Memory),
        Err(Trouble::Because(cause)) => Err(Fault::History(number, cause)),
    }
}

/// Reads a history to its end, or to the first line that has a fault, and finds each line that is not allowed. Of lines
/// without times each is judged after the allowed ones before it. With `only` a key, answers on other keys are passed
/// over. Memory grows with the lines.
pub fn find_all<R: BufRead>(alloc: Global, input: &mut R, only: Option<u64>) -> Result<Found, Fault>
    ensures { (text : List ℕ) → R.remaining input.old ≡ Some text
        → MatchResult result (IsFound only text) (IsFaultOfSearch only text) }
{
    let mut search = Search::new(alloc, only);
    let mut line = Vec::new(alloc);
    for number in 1..u64::MAX {
        next_line(input, &mut line)?;
        match turn(&mut search, alloc, number, line.as_slice()) {
            Ok(true) => {}
            Ok(false) => return end(search, alloc, number),
            Err(fault) => return Err(fault),
        }
    }
    // (no input has 2^64 - 2 lines)
    Err(Fault::Io)
}
