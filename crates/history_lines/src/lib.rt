//! Recorded histories: a text with one answer of a map a line, and the verdict on it. Of lines without times
//! `history_audit` reaches it line by line, of lines with times `history_timed` from all of them. What a text is, and
//! what is wrong with one, is said in docs/HISTORIES.md.
//!
//! `line` says what one line is, `reading` takes lines in, `judging` reads a whole input to its verdict, and `searching`
//! finds each line of it that is not allowed. It is proved that these are right of the history that the lines say.
#![tactic(auto)]

pub mod calls;
pub mod fault;
pub mod judging;
pub mod laws;
pub mod line;
pub mod reading;
pub mod searching;

pub use fault::{Cause, Fault};
pub use history_timed::{Finding, Verdict};
pub use judging::judge;
pub use laws::only_the_issued_value;
pub use reading::Reading;
pub use searching::{Found, Recorded, find_all};
