//! What the heap stores and what its calls return. Values have at most 16 words, and holds keep them readable. A
//! refusal says why a call did not do its work. Records are types stored as words.
//!
//! A value is a fixed array of 16 words with a length, so it takes no memory of its own and can be copied into a slot
//! word by word. A record is stored as its kind, and then its words:
//!
//! ```text
//! record (12, 99) of kind 2    encode ->  12 99    stored ->  2 12 99    decode ->  (12, 99), or no record of the kind
//! ```
#![tactic(auto)]

pub mod hold;
pub mod numbers;
pub mod record;
pub mod refusal;
pub mod short;
pub mod value;

pub use hold::{HOLDS_MAX, Hold};
pub use record::Record;
pub use refusal::Refusal;
pub use value::{Value, WORDS_MAX};
