//! A verdict, and its text.
use history_audit::Clash;
use sh_history::Why;
use std::fmt;

/// The verdict on a history.
#[derive(Clone, Copy, Debug, PartialEq, Eq)]
pub enum Verdict {
    /// It is legal: how many entries it has, and on how many inserted keys.
    Legal(u64, usize),
    /// It is not legal: the line that is not allowed, counted from 1, and why. Without times it is the first that those
    /// before it do not allow. With times no order that keeps to them allows it.
    Broken(u64, Clash),
    /// With times: the order that was tried does not allow this line, for this reason. No call clashes with others of
    /// its key, so another order may be legal.
    Undecided(u64, Why),
}

impl fmt::Display for Verdict {
    fn fmt<W: fmt::Write>(&self, f: &mut fmt::Formatter<W>) -> fmt::Result {
        match self {
            Verdict::Legal(entries, keys) => write!(f, "legal, {entries} entries on {keys} keys"),
            Verdict::Broken(line, Clash { why, by: None }) => write!(f, "line {line}: {why:?}"),
            Verdict::Broken(line, Clash { why, by: Some(by) }) => {
                write!(f, "line {line}: {why:?}, by line {by}")
            }
            Verdict::Undecided(line, why) => write!(f, "undecided, line {line} may be {why:?}"),
        }
    }
}
