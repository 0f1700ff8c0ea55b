//! Small programs of two and three passes, in every order of their single steps.
//!
//! The crate has only tests. A program brings a heap to a state and then gives the calls of each pass. `walk` runs all
//! orders of their steps through the core. In each end state it ends all calls and collects all freed slots, and then
//! asserts that no slot is lost or there twice.
#![tactic(auto)]

#[cfg(test)]
mod always;
#[cfg(test)]
mod facts;
#[cfg(test)]
mod moment;
#[cfg(test)]
mod pages;
#[cfg(test)]
mod program;
#[cfg(test)]
mod settle;
#[cfg(test)]
mod state_text;
#[cfg(test)]
mod steps;
#[cfg(test)]
mod tests;
#[cfg(test)]
mod walk;
