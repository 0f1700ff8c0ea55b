//! Stores of values under keys that are never used again, and what callers of any store may rely on. The plain store
//! keeps the entries of all its passes, and computes each result from them.
//!
//! The trait `Lookup` has the calls that get, read, remove and release, and `Store` adds the insert. Each promises that
//! some legal history has its book, if it has one: the list of what the store has answered. Beside its entries the
//! plain store has an index: for each issued key its value and whether it was removed, and the holds of each pass. The
//! n-th insert issues the n-th key of the layout, so a key's number says its place in the index.
#![tactic(auto)]

mod index;
pub mod lookup;
pub mod plain;
pub mod store;

pub use lookup::Lookup;
pub use plain::PlainStore;
pub use store::Store;
