//! What a pass has begun.
use sh_value::Value;

/// A slot: its page over the whole heap, and its number there.
#[derive(Clone, Copy, Debug, PartialEq, Eq)]
pub struct SlotRef {
    /// The page: the shard's number times the pages of a shard, plus the page's number there.
    pub page: u64,
    /// The slot of the page, below 48.
    pub slot: u64,
}

/// What a key names: a slot, and which of the values that were there is meant.
#[derive(Clone, Copy, Debug, PartialEq, Eq)]
pub struct KeyRef {
    /// The page over the whole heap.
    pub page: u64,
    /// The slot of the page.
    pub slot: u64,
    /// The generation, from 1.
    pub generation: u32,
}

/// What was read so far of a slot's value without a count on the slot, by a look at its key or before its end.
#[derive(Drop, Debug, PartialEq, Eq)]
pub enum Sight {
    /// Nothing.
    Bare,
    /// The class word of the page.
    Classed(u64),
    /// The class word of the page, the length of the value, and words of the value, from the first one on.
    Measured(u64, u64, Value),
}

/// What a pass has begun and not ended yet. Pages are numbered over the whole heap.
#[derive(Drop, Debug, PartialEq, Eq)]
pub enum Hand {
    /// Nothing.
    Idle,
    /// It entered the slot of the key, to remove it.
    Removing(u64),
    /// It got its reply, and still has to give back its count on the slot.
    Leaving(SlotRef),
    /// Its count was the last one on the marked slot, of this generation. It has read so much of the value there.
    Finishing(SlotRef, u32, Sight),
    /// It has an empty slot of a shard that it does not own.
    ToPut(SlotRef),
    /// It put the slot, whose link is not stored yet; whether it found the flag, and so must ring.
    Tying(SlotRef, u64, bool),
    /// It must ring for the page.
    Ringing(u64),
    /// It put the page on the bell, whose link is not stored yet.
    RingTying(u64, u64),
    /// It fills the slot with the value, of which this many words are stored.
    Filling(SlotRef, Value, u64),
    /// It looks at the slot of the key, and has read so much. It has no count on the slot.
    Looking(u64, KeyRef, Sight),
}
