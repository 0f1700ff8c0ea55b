//! A law of lines that clash.
ghost use Rattle.history_timed.specs.Verdicts.{ClashesForbid};

/// If a call clashes by its times, no order of the calls that keeps to their times is legal.
pub fn clashes_forbid()
    ensures { ClashesForbid }
{}
