//! Tests of values, of keys and shapes, of the checkers of histories, of the plain store, and of records in a store.
#![tactic(auto)]

#[cfg(test)]
mod assertions;
#[cfg(test)]
mod audit;
#[cfg(test)]
mod history;
#[cfg(test)]
mod key;
#[cfg(test)]
mod plain;
#[cfg(test)]
mod shape;
#[cfg(test)]
mod typed;
#[cfg(test)]
mod value;
