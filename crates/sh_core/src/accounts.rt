//! The kinds of a page's slots.

/// How many of the slots of a page's class are of each kind. Together they are all of them.
#[derive(Clone, Copy, Debug, PartialEq, Eq)]
pub struct Accounts {
    /// The page's class, or none for a blank page, for which all numbers are 0.
    pub class: Option<u32>,
    /// With a value that can be got.
    pub live: u32,
    /// With a value that was removed and is still held, or being left.
    pub marked: u32,
    /// With no generation left.
    pub retired: u32,
    /// Empty, and the owner's to fill.
    pub mine: u32,
    /// Empty, in the hand of one pass.
    pub hand: u32,
    /// Empty, put on the page and not taken back yet.
    pub queued: u32,
}
