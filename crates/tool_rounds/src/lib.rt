//! The rounds of the stress program, on any heap behind the traits `LonePass` and `User`.
//!
//! A round has threads, and each takes turns with a few passes (`crew`, `worker`). They get, look at, read, remove and
//! release keys that others left on a board (`using`). They adopt and leave shards, insert (`owning`), and stop in the
//! middle of removals (`by_hand`). Then the round ends all calls and joins the passes, so that the heap is whole
//! (`ending`). It puts the results in an order that is a legal history, and compares the ends that calls report (`ends`)
//! and the accounts of each page with that history (`judging`). The program plays rounds, and reports their counts or
//! the fault that one found (`program`). A round leaves the history of its calls (`history`).
#![tactic(auto)]

pub mod actor;
pub mod board;
pub mod by_hand;
pub mod crew;
pub mod ending;
pub mod ends;
pub mod history;
pub mod judging;
pub mod keys;
pub mod moments;
pub mod options;
pub mod owning;
pub mod pass;
pub mod plan;
pub mod program;
pub mod round;
pub mod turn;
pub mod user;
pub mod using;
pub mod worker;
