//! The record of a pass: what its calls returned, what it holds, and which fault was found.
ghost use Rattle.std.specs.Prelude.{◌≡◌, ◌≢◌, ℕ, ◌<◌, ◌≤◌, ◌↔◌, ◌⊎◌, [], List, IsTrue, Some, None, swap_remove};
ghost use Rattle.std.specs.Prelude.{vec_len, slice_get};
ghost use Rattle.std.specs.Bool.{OnTrue, OnFalse};
ghost use Rattle.std.specs.Option.{option_copied};
ghost use Rattle.tool_judge.specs.Counts.{counted};
ghost use Rattle.tool_judge.specs.Records.{refusal_fault, first_fault, IsTold, HasHold, HasWalk, HasEnd, Sees, Reads, value_read};
ghost use Rattle.tool_judge.specs.declared.record.Held.{Held as AnyHeld};

use crate::counts::{Count, Counts};
use crate::end::End;
use crate::fault::{Call, Fault, Wrong};
use crate::line::{Line, Told};
use crate::pattern;
use crate::walk::Walk;
use history_timed::Span;
use sh_value::{HOLDS_MAX, Hold, Refusal, Value};
use std::alloc::Global;

/// A hold, and the place of its line in the log.
#[derive(Clone, Copy, Debug, PartialEq, Eq)]
pub struct Held {
    /// The hold.
    pub hold: Hold,
    line: usize,
}

/// The log of a pass, with its holds, its counts, and the first fault that it met.
#[derive(Drop)]
pub struct Record {
    /// The number of the pass.
    pub pass: u32,
    /// How often each result was returned.
    pub counts: Counts,
    /// Whether its calls report which keys they end.
    pub tells_ends: bool,
    lines: Vec<Line>,
    holds: Vec<Held>,
    walks: Vec<Walk>,
    ends: Vec<End>,
    fault: Option<Fault>,
}

impl Record {
    /// The record of a pass that has done nothing.
    pub fn new(alloc: Global, pass: u32, tells_ends: bool) -> Record
        ensures pass { result.pass ≡ pass }
        ensures tells { result.tells_ends ≡ tells_ends }
        ensures no_lines { result.lines.items ≡ [] }
        ensures no_holds { result.holds.items ≡ [] }
        ensures no_fault { result.fault ≡ None }
    {
        Record {
            pass,
            counts: Counts::new(),
            tells_ends,
            lines: Vec::new(alloc),
            holds: Vec::new(alloc),
            walks: Vec::new(alloc),
            ends: Vec::new(alloc),
            fault: None,
        }
    }

    /// Notes a fault. The first one stays.
    pub fn fail(&mut self, fault: Fault)
        ensures { self.new ≡ record self.old { fault = first_fault self.old fault } }
    {
        if self.fault.is_none() {
            self.fault = Some(fault);
        }
    }

    /// Notes that the heap did something wrong.
    pub fn find(&mut self, wrong: Wrong)
        ensures { self.new ≡ record self.old { fault = first_fault self.old (Fault.Wrong wrong) } }
    {
        self.fail(Fault::Wrong(wrong));
    }

    /// Notes an impossible refusal, or that memory was refused.
    pub fn refused(&mut self, call: Call, refusal: Refusal)
        ensures { let fault = refusal_fault self.old.pass call refusal in
            self.new ≡ record self.old { fault = first_fault self.old fault } }
    {
        match refusal {
            Refusal::Memory => self.fail(Fault::Memory),
            _ => self.find(Wrong::Refused(self.pass, call, refusal)),
        }
    }

    /// Notes that a call could not be begun by hand.
    pub fn unbegun(&mut self, call: Call)
        ensures { let fault = Fault.Wrong (Wrong.Unbegun self.old.pass call) in
            self.new ≡ record self.old { fault = first_fault self.old fault } }
    {
        self.find(Wrong::Unbegun(self.pass, call));
    }

    /// Notes that a call that was begun by hand does not end.
    pub fn endless(&mut self)
        ensures { let fault = Fault.Wrong (Wrong.Endless self.old.pass) in
            self.new ≡ record self.old { fault = first_fault self.old fault } }
    {
        self.find(Wrong::Endless(self.pass));
    }

    /// Notes that an owner could not leave its shard, though no pass had a call open.
    pub fn waits(&mut self)
        ensures { let fault = Fault.Wrong (Wrong.Waits self.old.pass) in
            self.new ≡ record self.old { fault = first_fault self.old fault } }
    {
        self.find(Wrong::Waits(self.pass));
    }

    /// The first fault, if there was one.
    pub fn fault(&self) -> Option<Fault>
        ensures { result ≡ self.now.fault }
    {
        self.fault
    }

    /// Adds a line to the log.
    pub fn tell(&mut self, key: u64, times: Span, told: Told)
        ensures line { IsTold self.old self.new
            (record { pass = self.old.pass; key = key; times = times; told = told }) }
        ensures pass { self.new.pass ≡ self.old.pass }
        ensures counts { self.new.counts ≡ self.old.counts }
        ensures holds { self.new.holds ≡ self.old.holds }
    {
        let line = Line {
            pass: self.pass,
            key,
            times,
            told,
        };
        if self.lines.push(line).is_err() {
            self.fail(Fault::Memory);
        }
    }

    /// Notes a hold that was got: adds a line, and keeps its place with the hold.
    pub fn got(&mut self, hold: Hold, times: Span)
        ensures hold { HasHold self.old self.new hold times ⊎ (self.new.fault ≡ first_fault self.old Fault.Memory) }
        ensures counts { self.new.counts ≡ counted Count.Gets 1 self.old.counts }
        ensures pass { self.new.pass ≡ self.old.pass }
    {
        let held = Held {
            hold,
            line: self.lines.len(),
        };
        self.counts.one(Count::Gets);
        self.tell(hold.key, times, Told::Got(None));
        if self.holds.push(held).is_err() {
            self.fail(Fault::Memory);
        }
    }

    /// Notes a value that a look returned. It is a fault if it is torn.
    pub fn seen(&mut self, key: u64, times: Span, value: Value)
        ensures { Sees self.old self.new key times value }
    {
        self.counts.one(Count::Looks);
        if pattern::is_whole(&value) {
            self.tell(key, times, Told::Seen(value));
        } else {
            self.find(Wrong::Torn(self.pass, key));
        }
    }

    /// Notes a whole walk: its times, and the keys that it met.
    pub fn walked(&mut self, times: Span, met: Vec<u64>)
        ensures { HasWalk self.old self.new (record { pass = self.old.pass; times = times; met = met }) }
    {
        let walk = Walk {
            pass: self.pass,
            times,
            met,
        };
        if self.walks.push(walk).is_err() {
            self.fail(Fault::Memory);
        }
    }

    /// Notes the end of a key.
    pub fn ended(&mut self, end: End)
        ensures { HasEnd self.old self.new end }
    {
        if self.ends.push(end).is_err() {
            self.fail(Fault::Memory);
        }
    }

    /// Whether it has the greatest number of holds of a pass.
    pub fn is_full(&self) -> bool
        ensures { IsTrue result ↔ (16 ≤ vec_len self.now.holds) }
    {
        self.holds.len() >= HOLDS_MAX
    }

    /// The number of its holds.
    pub fn holds(&self) -> u64
        ensures { result ≡ vec_len self.now.holds }
    {
        self.holds.len() as u64
    }

    /// One of its holds.
    pub fn hold(&self, number: u64) -> Option<Held>
        ensures { result ≡ slice_get self.now.holds.items number }
    {
        self.holds.get(number as usize).copied()
    }

    /// Forgets one of its holds. The last one takes its place.
    pub fn forget(&mut self, number: u64)
        ensures held { (held : AnyHeld) → slice_get self.old.holds.items number ≡ Some held
            → self.new.holds.items ≡ swap_remove self.old.holds.items number held }
        ensures none { slice_get self.old.holds.items number ≡ None → self.new ≡ self.old }
        ensures others { self.new ≡ record self.old { holds = self.new.holds } }
    {
        if number < self.holds.len() as u64 {
            self.holds.swap_remove(number as usize);
        }
    }

    // The value that was read of a hold, by its line.
    fn value_read(&self, held: Held) -> Option<&Value>
        ensures { option_copied result ≡ value_read self.now held }
    {
        match &self.lines.get(held.line)?.told {
            Told::Got(Some(value)) => Some(value),
            Told::Got(None)
            | Told::Inserted(_)
            | Told::Seen(_)
            | Told::Gone
            | Told::Crowded
            | Told::Removed
            | Told::Marked
            | Told::Released => None,
        }
    }

    // Whether another value was read of a hold before.
    fn tells_another(&self, held: Held, value: &Value) -> bool
        ensures yes { OnTrue result ((before : List ℕ) × (value_read self.now held ≡ Some before)
            × (before ≢ value.now)) }
        ensures no { OnFalse result ((before : List ℕ) → value_read self.now held ≡ Some before
            → before ≡ value.now) }
    {
        match self.value_read(held) {
            Some(before) => *before != *value,
            None => false,
        }
    }

    /// Notes a value that was read. It is a fault if it is torn, or differs from the value that was read before.
    pub fn read(&mut self, held: Held, value: Value)
        ensures { Reads self.old self.new held value }
    {
        self.counts.one(Count::Reads);
        let key = held.hold.key;
        if !pattern::is_whole(&value) {
            self.find(Wrong::Torn(self.pass, key));
            return;
        }
        if self.tells_another(held, &value) {
            self.find(Wrong::Changed(self.pass, key));
            return;
        }
        if let Some(line) = self.lines.get_mut(held.line) {
            line.told = Told::Got(Some(value));
        }
    }

    /// The lines of the log, the walks, and the ends of keys.
    pub fn into_parts(self) -> (Vec<Line>, Vec<Walk>, Vec<End>)
        ensures lines { result.0 ≡ self.lines }
        ensures walks { result.1 ≡ self.walks }
        ensures ends { result.2 ≡ self.ends }
    {
        (self.lines, self.walks, self.ends)
    }
}
