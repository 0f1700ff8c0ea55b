//! How a program begins: it is called with the words of its process (`words`), and shows what clap says instead of
//! options (`shown`).
#![tactic(auto)]

pub mod shown;
pub mod words;

pub use shown::show;
pub use words::{texts, with_words};
