//! A pointer that owns its value, or null.
//!
//! A box always has a value. A place that may be empty, such as a handle that other code clears, needs a pointer that
//! may be null. Threads may share one: a `&` to it shows nothing of its value.
//!
//! It has no test for null. Its owner knows by another value whether it is full, and opens it by `into_box` before it
//! is dropped.
#![tactic(auto)]

mod nullable;

pub use nullable::NullableBox;
