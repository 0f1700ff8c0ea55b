//! What may be wrong with a heap.

/// What is wrong with a heap of these tests.
#[derive(Clone, Copy, Debug, PartialEq, Eq)]
pub enum Defect {
    /// Nothing is.
    Sound,
    /// A read returns words of two values.
    Torn,
    /// A get drops the value that it looks for.
    Lost,
    /// A get of a new key does not find its value yet.
    LateGone,
    /// A slot that is filled again keeps its key.
    KeyUsedAgain,
    /// Each removal of a key returns that it removed it.
    TwoRemovers,
    /// Each read of a value returns another one.
    Changing,
    /// A get finds a value that was removed just before.
    GotAfterRemoval,
    /// A look does not load the word a second time.
    LooksOnce,
    /// A look loads the word of another slot the second time.
    LooksElsewhere,
    /// A look says that a key is gone whose word is from before its insert.
    GoneBeforeInsert,
    /// A look at a key that is yet to be inserted returns the value of the key before it.
    SeenBeforeInsert,
    /// A walk passes over the slots that were filled again.
    PassedOver,
    /// A walk does not go on from a slot that was filled again.
    StaysBehind,
    /// The accounts of a page have a value too many.
    WrongSums,
    /// A get is refused as crowded, though nobody holds the key.
    Crowded,
    /// An insert is refused as full, though a page is blank.
    FullEarly,
    /// A read is refused, though the pass holds the key.
    NotHeld,
    /// A get of a key is refused as one of a number that is no key.
    BadKey,
    /// An owner cannot leave.
    Waiting,
    /// The first step of a get is not done.
    Unbegun,
    /// A call by hand has always a step left.
    Endless,
    /// A take returns the value and does not remove the key.
    NotTaken,
    /// A look that goes on as a get does not release its hold, and neither does a take.
    ReadKeepsHold,
    /// An insert does not find a slot that became free after the shard was adopted.
    LostRing,
    /// The passes cannot be joined.
    Apart,
    /// A receipt is refused.
    Unheeded,
    /// A call that is refused as gone reports once more that its key ended.
    EndsTwice,
    /// No call reports that it ended a key.
    EndsUntold,
    /// A call that ended a key reports the next key of the slot.
    EndsAnother,
    /// A removal reports that its key ended, though others hold it. Their releases do not.
    EndsWhileHeld,
    /// A call that ended a key reports the words of the value in the next slot.
    EndsAsNext,
    /// A heap that grows returns keys of its second chunk without the chunk's number.
    KeyOfNoChunk,
}
