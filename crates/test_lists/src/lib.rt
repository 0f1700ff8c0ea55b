//! Tests of what an owner keeps of its pages, and of the steps on the words of a slot.
#![tactic(auto)]

#[cfg(test)]
mod assertions;
#[cfg(test)]
mod queue;
#[cfg(test)]
mod slots;
#[cfg(test)]
mod states;
#[cfg(test)]
mod step;
