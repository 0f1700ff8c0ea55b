//! Keys of a heap that is made of chunks, each a heap of its own: the key in a chunk, with the chunk's number above it.
//!
//! The layout `Chunked` has keys below 2^56, so a chunk's number fits above them:
//!
//! ```text
//! bit  63    56  55                                   0
//!     [ chunk  ][ generation | shard | page | slot    ]
//! ```
//!
//! Keys of two chunks are never one number. So the histories of the chunks, each with the chunk's number on its keys,
//! make one legal history.
#![tactic(auto)]

pub mod chunked;
pub mod laws;

pub use chunked::{CHUNKS, Chunked};
pub use laws::{chunked_keys_fit, one_history_of_chunks};
