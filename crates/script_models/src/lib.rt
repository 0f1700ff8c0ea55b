//! Modes plain and steps. In mode plain the calls of a script run on the plain store, which keeps the history of its
//! answers. In mode steps the events of a script run on the core, step by step. Neither needs the running heap.
#![tactic(auto)]

pub mod event_line;
mod plain;
pub mod plain_output;
pub mod steps;
pub mod steps_output;
