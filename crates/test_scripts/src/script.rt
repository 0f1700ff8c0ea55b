//! Tests of the grammar: worked scripts, and refused memory. Scripts with a fault are rows of `scripts/programs`.
mod calls;
mod events;
mod faults;
mod headers;
mod memory;
