//! Examples of the public calls of `gearlongan`, by its names alone.
#![tactic(auto)]

pub mod hearing;
#[cfg(test)]
mod tests;
pub mod work;
