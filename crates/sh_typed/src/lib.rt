//! Records in a store: a typed view of any store, whose values are the words of records of one type.
//!
//! A record is inserted as its kind and then its words. A look decodes the value that it saw, and a get takes a hold,
//! reads the value and decodes it. A value of another kind is `WrongKind`, and then the hold of a get is released
//! again.
#![tactic(auto)]

mod fetch;
mod look;
mod stored;
pub mod typed;

pub use typed::Typed;
