//! Tests of the judge and of the rounds of the stress program, of recorded histories, and of the load of the bench.
#![tactic(auto)]

#[cfg(test)]
mod assertions;
#[cfg(test)]
mod judge;
#[cfg(test)]
mod load;
#[cfg(test)]
mod recorded;
#[cfg(test)]
mod rounds;
