//! The times of a call.
ghost use Rattle.std.specs.Prelude.{◌≡◌, ◌<◌, Some, None, MatchOption};
ghost use Rattle.history_timed.specs.Times.{IsWithin, ends_before, is_ended};
ghost use Rattle.history_timed.specs.Moments.{nearest};

use std::marker::Model;

/// When a call began, and when it ended, if it did. Neither is before or after what the call did. A contract sees it as
/// `Times`.
#[derive(Clone, Copy, Debug, PartialEq, Eq)]
pub struct Span {
    begin: u64,
    end: Option<u64>,
}

impl Model for Span {
    ghost use Rattle.std.specs.Prelude.{◌≤◌, IfSome};
    ghost use Rattle.history_timed.specs.Times.{Times};

    ghost Value = { Times };

    ghost view = { λ s. record { begin = s.begin; end = s.end } };

    ghost invariant = { λ s. IfSome s.end (λ end. s.begin ≤ end) };

    ghost inverse = { λ times. record { begin = times.begin; end = times.end } };
}

impl Span {
    /// The times of a call that ended: `Span::new(3, 7)`. `None` if the end is below the begin.
    pub fn new(begin: u64, end: u64) -> Option<Span>
        ensures { MatchOption result (end < begin) (λ span. span ≡ record { begin = begin; end = Some end }) }
    {
        if end < begin {
            return None;
        }
        Some(Span {
            begin,
            end: Some(end),
        })
    }

    /// The times of a call that began and never ended.
    pub fn unended(begin: u64) -> Span
        ensures { result ≡ record { begin = begin; end = None } }
    {
        Span { begin, end: None }
    }

    /// When the call began.
    pub fn begin(&self) -> u64
        ensures { result ≡ self.now.begin }
    {
        self.begin
    }

    /// When it ended, if it did.
    pub fn end(&self) -> Option<u64>
        ensures { result ≡ self.now.end }
    {
        self.end
    }

    /// Whether the call ended.
    pub fn is_ended(&self) -> bool
        ensures { result ≡ is_ended self.now }
    {
        self.end.is_some()
    }

    /// Whether the call ended before another began.
    pub fn ends_before(&self, other: &Span) -> bool
        ensures { result ≡ ends_before self.now other.now }
    {
        match self.end {
            Some(end) => end < other.begin,
            None => false,
        }
    }

    /// The moment, if it is one of the times of the call; otherwise the one of them that is nearest.
    pub fn nearest(&self, moment: u64) -> u64
        ensures is { result ≡ nearest self.now moment }
        ensures within { IsWithin self.now result }
    {
        let begun = moment.max(self.begin);
        match self.end {
            Some(end) => begun.min(end),
            None => begun,
        }
    }
}
