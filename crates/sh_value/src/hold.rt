//! Holds.

/// The most holds that a pass may have at a time.
pub const HOLDS_MAX: usize = 16;

/// The right to read the value of a key until the hold is released.
///
/// A hold is a plain number: it counts only for the pass whose `get` returned it, and several holds of one pass on one
/// key are alike.
#[derive(Clone, Copy, Debug, PartialEq, Eq)]
pub struct Hold {
    /// The key that is held.
    pub key: u64,
}
