//! Mode heap beside mode plain: the law that a script has the same replies on the running heap as on the plain store.
//! The exceptions are keys' numbers and what only a running heap refuses. It is about definitions, so no code is here.
#![tactic(auto)]

pub mod laws;

pub use laws::heap_is_beside_plain;
