//! The heap for C: a static library.
//!
//! A handle holds a heap, a pass, a receipt or nothing, and each call checks which. It returns a code: 0, the number of
//! a refusal, or one of those in `codes`. No pointer may be null: for each of these calls the header `shardheap.h` has
//! one that checks its pointers first.
#![tactic(auto)]

pub mod accounts;
pub mod batches;
pub mod calls;
pub mod codes;
pub mod counting;
pub mod keys;
pub mod opening;
pub mod passes;
pub mod receipts;
mod rooms;
pub mod sizes;
pub mod tags;
pub mod taking;
pub mod telling;
#[cfg(test)]
mod tests;
pub mod values;
pub mod walking;
