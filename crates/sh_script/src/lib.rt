//! Scripts: the text that a run follows, line by line, and the first fault of a text that is no script.
//!
//! A script is lines of at most 512 bytes from 32 to 126, each ended by a newline. Its first line that says something
//! is the header, as `heap tiny 1 1 2`, or `version 2`, and then the header follows. In a script of calls each later
//! line is a call of one pass, as `0 insert a 7`; in a script of events it is an action of one pass, as `0 Fill 0.0.0
//! 5`. What each line means is a relation in `specs/`, in the words of the format. `parse_calls` and `parse_events` are
//! proved to return exactly what that relation says, or the first line that has no meaning and the first cause why.
#![tactic(auto)]

mod arguments;
mod call;
mod calls;
mod event;
mod fault;
mod header;
mod names;
mod numbers;
mod place;
mod reader;
mod script;
mod trouble;
pub mod words;

pub use calls::{Call, CallLine, Calls, Reference};
pub use event::Events;
pub use fault::{Cause, Fault};
pub use header::{Header, Layout};
pub use numbers::Numbers;
pub use reader::{LINE_BYTES_MAX, SCRIPT_BYTES_MAX, split_line};
pub use script::{parse_calls, parse_events};
