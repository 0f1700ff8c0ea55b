//! Why nothing is known of a pool's heap as a whole.

/// Why a call on a pool's heap as a whole was refused.
#[derive(Clone, Copy, Debug, PartialEq, Eq)]
pub enum NotTold {
    /// A pass was taken or lost whose tale no other pass carries. Each pass that this call took is back in its pool
    /// slot.
    Away,
    /// Memory for a list of the passes was refused, and no pass was taken.
    Memory,
    /// The heap has no such page.
    NoPage,
}
