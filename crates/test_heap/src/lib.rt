//! Tests of heaps, passes and members, of passes that meet, and of pools.
#![tactic(auto)]

#[cfg(test)]
mod assertions;
#[cfg(test)]
mod ends;
#[cfg(test)]
mod gather;
#[cfg(test)]
mod members;
#[cfg(test)]
mod pass;
#[cfg(test)]
mod pool;
