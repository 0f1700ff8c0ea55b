//! Why an event is skipped, in plain words.
ghost use Rattle.std.specs.Prelude.{◌≡◌};
ghost use Rattle.script_show.specs.Reasons.{reason_text};

/// The condition of an event that does not hold of its pass.
#[derive(Clone, Copy, Debug, PartialEq, Eq)]
pub enum Reason {
    /// The key has another tag than the header, or none.
    OtherTag,
    /// The key is no key of the layout, or names no slot of the heap.
    NoKey,
    /// The heap has no such page.
    NoPage,
    /// The heap has no such slot.
    NoSlot,
    /// The heap has no such shard.
    NoShard,
    /// There is no such class.
    NoClass,
    /// The pass has begun something else.
    Busy,
    /// The pass has begun nothing that the event continues.
    NothingBegun,
    /// The pass has the greatest number of holds.
    HoldsFull,
    /// The pass has no hold on the key.
    NotHeld,
    /// The pass has not read the class of the key.
    ClassUnread,
    /// The pass has not read the length of the key's value.
    LengthUnread,
    /// The value has fewer words.
    PastEnd,
    /// The pass does not own the shard.
    NotOwner,
    /// The pass owns no shard.
    OwnsNone,
    /// The pass owns a shard.
    OwnsOne,
    /// The pass has not noted the class of the page.
    ClassNotNoted,
    /// The pass noted that the page is blank.
    Blank,
    /// Not all slots of the page are the pass's own.
    NotAllOwn,
    /// The slot is not the pass's own.
    NotOwn,
    /// The value has more words than a slot of the page.
    TooLong,
    /// The pass has yet to follow what it took from the page.
    CursorLeft,
    /// The pass has nothing of the page to follow.
    NoCursor,
    /// The page is armed.
    Armed,
    /// The pass has yet to follow what it took from the bell.
    BellCursorLeft,
    /// The pass has nothing of the bell to follow.
    NoBellCursor,
    /// A slot is still the pass's own.
    SlotsLeft,
    /// A page is still armed by the pass.
    ArmedLeft,
    /// All words of the value are stored.
    NoWordLeft,
    /// Words of the value are not stored yet.
    WordsLeft,
}

impl Reason {
    /// The reason as a trace writes it, after `skipped: `.
    pub fn text(&self) -> &'static str
        ensures { result.now ≡ reason_text self.now }
    {
        match self {
            Reason::OtherTag => "the key has not the tag of the header",
            Reason::NoKey => "the key names no slot of this heap",
            Reason::NoPage => "the heap has no such page",
            Reason::NoSlot => "the heap has no such slot",
            Reason::NoShard => "the heap has no such shard",
            Reason::NoClass => "there is no such class",
            Reason::Busy => "the pass has begun something else, which it has to end first",
            Reason::NothingBegun => "the pass has begun nothing that goes on with this",
            Reason::HoldsFull => "the pass has 16 holds already",
            Reason::NotHeld => "the pass has no hold on this key",
            Reason::ClassUnread => "the pass has not read the class of this key",
            Reason::LengthUnread => "the pass has not read the length of this key's value",
            Reason::PastEnd => "the value has no such word",
            Reason::NotOwner => "the pass does not own the shard",
            Reason::OwnsNone => "the pass owns no shard",
            Reason::OwnsOne => "the pass owns a shard already",
            Reason::ClassNotNoted => "the pass has not noted the class of the page",
            Reason::Blank => "the page has no class",
            Reason::NotAllOwn => "not all slots of the page are the pass's own",
            Reason::NotOwn => "the slot is not the pass's own",
            Reason::TooLong => "the value is longer than a slot of the page",
            Reason::CursorLeft => "the pass has yet to follow the chain of a page",
            Reason::NoCursor => "the pass has no chain of the page to follow",
            Reason::Armed => "the pass has armed the page already",
            Reason::BellCursorLeft => "the pass has yet to follow the chain of the bell",
            Reason::NoBellCursor => "the pass has no chain of the bell to follow",
            Reason::SlotsLeft => "a slot of the shard is still the pass's own",
            Reason::ArmedLeft => "the pass has armed a page, and was not told of a ring for it",
            Reason::NoWordLeft => "all words of the value are stored",
            Reason::WordsLeft => "words of the value are not stored yet",
        }
    }
}
