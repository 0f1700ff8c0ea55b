//! Runs of scripts: reads and parses a whole script, runs it in the chosen mode, and writes its replies.
#![tactic(auto)]

mod replaying;
mod threads_output;

pub use replaying::{replay, replay_alone, replay_gated};
pub use script_output::Mode;
pub use script_workers::{Gate, OpenGate, gate, threads};
