//! The threads of mode threads: a worker makes the calls of each pass, and the workers wait for one another's names on
//! a board. The answers of all are put in the order of the lines. A gate, by which a test can hold up a worker, is
//! passed at each call.
#![tactic(auto)]

pub mod board;
pub mod gate;
mod gather;
mod merge;
pub mod room;
mod run;
pub mod threads;
mod worker;

pub use gate::{Gate, OpenGate};
