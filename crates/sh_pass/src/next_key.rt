//! What a walk over live keys returns.

/// A live key, and the place at which to continue.
#[derive(Clone, Copy, Debug, PartialEq, Eq)]
pub struct NextKey {
    /// The key.
    pub key: u64,
    /// The place after that of its slot: the next call continues there.
    pub behind: u64,
}
