//! Tests of worlds, and of the accounts of their pages.
#![tactic(auto)]

#[cfg(test)]
mod accounts;
#[cfg(test)]
mod assertions;
#[cfg(test)]
mod world;
