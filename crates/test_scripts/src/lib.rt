//! Tests of scripts: their grammar, whole runs, and how faults are reported. Scripts with all that comes out of the
//! program are rows of `scripts/programs`.
#![tactic(auto)]

#[cfg(test)]
mod assertions;
#[cfg(test)]
mod replay;
#[cfg(test)]
mod report;
#[cfg(test)]
mod script;
