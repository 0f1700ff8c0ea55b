//! What a key is made of.

/// A place of the heap, and which of the values that were there is meant.
#[derive(Clone, Copy, Debug, PartialEq, Eq)]
pub struct Parts {
    /// The generation of the slot, from 1: each value that a slot stores has its own.
    pub generation: u32,
    /// The shard.
    pub shard: u32,
    /// The page of the shard.
    pub page: u32,
    /// The slot of the page, below 64.
    pub slot: u32,
}
