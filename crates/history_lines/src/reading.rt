//! A history that is read line by line.
ghost use Rattle.std.specs.Prelude.{◌≡◌, ℕ, None, Some, IfOk, IfNone, IfSome};
ghost use Rattle.history_audit.specs.declared.audit.Audit.{Audit as Auditing};
ghost use Rattle.history_lines.specs.declared.line.Limits.{Limits};
ghost use Rattle.history_timed.specs.Verdicts.{AreFindings};
ghost use Rattle.history_lines.specs.Line.{Gives, key_line};
ghost use Rattle.history_lines.specs.Book.{Book, blank};
ghost use Rattle.history_lines.specs.Judged.{EndsWith};
ghost use Rattle.history_lines.specs.Taken.{HasTakenIn, limits_of, CameOfAnswer, CameOfLine};

use crate::calls::Calls;
use crate::fault::{Cause, Trouble};
use crate::line::{Answer, answer_line, header_line, key_answered};
use history_audit::{Audit, Clash};
use history_timed::{Finding, Said, Span, Verdict, findings, judge};
use std::alloc::{AllocError, Global};

/// What the lines so far have said: no header yet, or entries that are legal so far, or calls with times.
#[derive(Drop)]
pub struct Reading {
    audit: Option<Audit>,
    entries: u64,
    calls: Calls,
}

impl Reading {
    /// Before the first line.
    pub fn new(alloc: Global) -> Reading
        ensures { HasTakenIn result blank }
    {
        Reading {
            audit: None,
            entries: 0,
            calls: Calls::new(alloc),
        }
    }

    /// The key of the answer that the line says, if it says one. Before the header no line does.
    pub fn key_said(&self, alloc: Global, line: &[u8]) -> Result<Option<u64>, Trouble>
        ensures { (book : Book) → HasTakenIn self.now book → Gives (λ k. k) (key_line book.limits line.now) result }
    {
        match &self.audit {
            None => Ok(None),
            Some(audit) => {
                let passes = audit.passes();
                key_answered(alloc, passes, line)
            }
        }
    }

    // Takes in a line before the header has come.
    fn open(&mut self, alloc: Global, line: &[u8]) -> Result<Option<Clash>, Trouble>
        requires { self.old.audit ≡ None }
        ensures { (book : Book) (n : ℕ) → HasTakenIn self.old book → CameOfLine book n line.now self.new result }
    {
        match header_line(alloc, line)? {
            Some(limits) => {
                self.audit = Some(Audit::new(alloc, limits.passes, limits.guard_max));
                Ok(None)
            }
            None => Ok(None),
        }
    }

    // Takes in an answer without times, under a header.
    fn take_entry(&mut self, number: u64, said: Said) -> Result<Option<Clash>, Trouble>
        ensures { (book : Book) (audit : Auditing) → HasTakenIn self.old book → self.old.audit ≡ Some audit
            → CameOfAnswer (limits_of audit) book number (record { times = None; said = said }) self.new result }
    {
        if !self.calls.is_empty() {
            return Err(Trouble::Because(Cause::Mixed));
        }
        let Some(entries) = self.entries.checked_add(1) else {
            return Err(Trouble::Memory);
        };
        let Some(audit) = &mut self.audit else {
            return Ok(None);
        };
        let entry = said.entry(audit);
        match audit.push(number, &entry)? {
            None => {
                self.entries = entries;
                Ok(None)
            }
            Some(clash) => Ok(Some(clash)),
        }
    }

    // Takes in an answer with times, under a header.
    fn take_call(&mut self, number: u64, times: Span, said: Said) -> Result<Option<Clash>, Trouble>
        ensures { (book : Book) (audit : Auditing) → HasTakenIn self.old book → self.old.audit ≡ Some audit
            → CameOfAnswer (limits_of audit) book number (record { times = Some times; said = said }) self.new
            result }
    {
        if self.entries > 0 {
            return Err(Trouble::Because(Cause::Mixed));
        }
        match self.calls.push(number, times, said) {
            Ok(()) => Ok(None),
            Err(trouble) => Err(trouble),
        }
    }

    // Takes in an answer, under a header.
    fn take(&mut self, number: u64, answer: Answer) -> Result<Option<Clash>, Trouble>
        ensures { (book : Book) (audit : Auditing) → HasTakenIn self.old book → self.old.audit ≡ Some audit
            → CameOfAnswer (limits_of audit) book number answer self.new result }
    {
        match answer.times {
            None => self.take_entry(number, answer.said),
            Some(times) => self.take_call(number, times, answer.said),
        }
    }

    // Takes in a line under a header with this number of passes.
    fn answer(
        &mut self,
        alloc: Global,
        passes: u32,
        number: u64,
        line: &[u8],
    ) -> Result<Option<Clash>, Trouble>
        ensures { (book : Book) (audit : Auditing) → HasTakenIn self.old book → self.old.audit ≡ Some audit
            → audit.passes ≡ passes → CameOfLine book number line.now self.new result }
    {
        match answer_line(alloc, passes, line)? {
            Some(answer) => self.take(number, answer),
            None => Ok(None),
        }
    }

    /// Takes in the next line, without its newline, by its number. Returns why its entry is not allowed, if it is not,
    /// and leaves it out, so the next lines may follow. A line with a fault is refused with the first cause.
    pub fn line(
        &mut self,
        alloc: Global,
        number: u64,
        line: &[u8],
    ) -> Result<Option<Clash>, Trouble>
        ensures { (book : Book) → HasTakenIn self.old book → CameOfLine book number line.now self.new result }
    {
        match &self.audit {
            None => self.open(alloc, line),
            Some(audit) => {
                let passes = audit.passes();
                self.answer(alloc, passes, number, line)
            }
        }
    }

    /// The verdict at the end. Entries without times are legal: it says how many there are, and on how many inserted
    /// keys. Of calls with times it says what is found. There is none before the header. Refused if memory is.
    pub fn verdict(&self, alloc: Global) -> Result<Option<Verdict>, AllocError>
        ensures none { (book : Book) → HasTakenIn self.now book
            → IfOk result (λ verdict. IfNone verdict (book ≡ blank)) }
        ensures some { (book : Book) → HasTakenIn self.now book → IfOk result (λ verdict. IfSome verdict
            (λ v. (limits : Limits) × (book.limits ≡ Some limits) × EndsWith limits book v)) }
    {
        let Some(audit) = &self.audit else {
            return Ok(None);
        };
        if self.calls.is_empty() {
            return Ok(Some(Verdict::Legal(self.entries, audit.keys())));
        }
        let verdict = judge(alloc, self.calls.all(), audit.passes(), audit.guard_max())?;
        Ok(Some(verdict))
    }

    /// The findings on calls with times, one for each that clashes, in the order of their lines. Refused if memory is.
    pub fn findings(&self, alloc: Global) -> Result<Vec<Finding>, AllocError>
        ensures { (book : Book) (limits : Limits) → HasTakenIn self.now book → book.limits ≡ Some limits
            → IfOk result (λ found. AreFindings limits.passes limits.guard_max book.calls book.calls found.items) }
    {
        match &self.audit {
            None => Ok(Vec::new(alloc)),
            Some(audit) => { findings(alloc, self.calls.all(), audit.passes(), audit.guard_max()) }
        }
    }
}
