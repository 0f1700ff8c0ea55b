//! What a pass has of its own.
use sh_slots::{Hand, SlotRef};
use std::collections::LinkedList;

/// The body of a pass's own part: all that the conditions and effects of its steps look at, besides the word that they
/// step on. Only contracts use it: no value of this type is made.
///
/// What is known of a held key, its class, its length and its words, is noted by the key, and forgotten with the last
/// hold on the key. Pages are numbered over the whole heap.
pub struct Body {
    /// What it has begun.
    pub hand: Hand,
    /// The keys that it holds, one for each hold: at most 16.
    pub holds: LinkedList<u64>,
    /// The class word that it read of each held key.
    pub class_words: LinkedList<(u64, u64)>,
    /// The length that it read of each held key.
    pub lengths: LinkedList<(u64, u64)>,
    /// The words that it read of each held key: the key, the word's number from 0, and the word.
    pub contents: LinkedList<(u64, u64, u64)>,
    /// The shard that it owns.
    pub owned: Option<u64>,
    /// The class word that it read or stored of each page of its shard.
    pub classes: LinkedList<(u64, u64)>,
    /// The empty slots of its shard that are its own to fill.
    pub mine: LinkedList<SlotRef>,
    /// For pages of its shard, the slot whose link it is to follow next.
    pub cursors: LinkedList<(u64, u64)>,
    /// The pages of its shard that it armed.
    pub armed: LinkedList<u64>,
    /// The page of its shard's bell whose link it is to follow next.
    pub bell_cursor: Option<u64>,
}
