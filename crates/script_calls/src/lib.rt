//! The calls of a script on the running heap: what a line may return, and the members that run it.
#![tactic(auto)]

pub mod alone;
pub mod heeding;
pub mod laws;
pub mod leaving;
pub mod line;
pub mod meeting;
pub mod reporting;
pub mod running;
pub mod side;
