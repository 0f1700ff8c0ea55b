//! What the modes of a run share that needs no heap: the modes by their names, how a script is read and an output
//! written, and the answers to calls. Replies, keys and the accounts of pages are written as lines here.
#![tactic(auto)]

pub mod account_line;
mod answer;
pub mod ends;
pub mod keys;
mod mode;
pub mod numbers;
pub mod pages;

pub use answer::{Answer, push_reply};
pub use mode::Mode;
