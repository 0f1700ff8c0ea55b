//! What a state word says, and the word that says it.

use std::marker::Model;

/// The flag of a state word that says that the slot is marked: its record is removed, or the slot
/// is retired.
pub const MARK_BIT: u64 = 1 << 31;

/// The flag of a state word that says that a record is present in the slot.
pub const PRESENT_BIT: u64 = 1 << 30;

/// Every count is below this number.
pub const COUNT_LIMIT: u32 = 1 << 30;

/// The kind of a slot, by its two flags.
#[derive(Clone, Copy, Debug, PartialEq, Eq)]
pub enum Kind {
    /// Neither marked nor present: the slot has no record.
    Empty,
    /// Present: the slot has a record.
    Live,
    /// Marked and present: the slot's record is removed, and passes may still be on it.
    Marked,
    /// Marked and not present: the slot is used up and never has a record again.
    Retired,
}

/// What a slot's state word says.
#[derive(Clone, Copy, Debug, PartialEq, Eq)]
pub struct State {
    /// Which of the slot's records it has, has had last or has next: each record that a slot has
    /// is of a later generation.
    pub generation: u32,
    /// Whether the record is removed, or the slot retired.
    pub marked: bool,
    /// Whether the slot has a record.
    pub present: bool,
    /// How many holds and visits of passes are on the slot: below [`COUNT_LIMIT`].
    pub count: u32,
}

impl Model for State {
    ghost use Rattle.std.specs.Prelude.{◌^◌, ◌<◌};
    ghost use Rattle.sh_word.specs.Fields.{Fields};

    ghost Value = { Fields };

    ghost view = { λ s. record { generation = s.generation; marked = s.marked; present = s.present; count = s.count } };

    ghost invariant = { λ s. s.count < 2 ^ 30 };

    ghost inverse = { λ f.
        record { generation = f.generation; marked = f.marked; present = f.present; count = f.count } };
}

impl State {
    ghost use Rattle.std.specs.Prelude.{◌≡◌, ◌^◌, ◌<◌};
    ghost use Rattle.sh_word.specs.Fields.{FitsWord, fields_of, word_of};
    ghost use Rattle.sh_word.specs.Kinds.{fields_at, kind_of};

    /// The state of a slot of this kind and generation, with a count below [`COUNT_LIMIT`].
    pub fn new(kind: Kind, generation: u32, count: u32) -> State
        requires { count < 2 ^ 30 }
        ensures fields { result ≡ fields_at kind generation count }
        ensures kind { kind_of result ≡ kind }
    {
        let (marked, present) = match kind {
            Kind::Empty => (false, false),
            Kind::Live => (false, true),
            Kind::Marked => (true, true),
            Kind::Retired => (true, false),
        };
        State {
            generation,
            marked,
            present,
            count,
        }
    }

    /// What a word says. Every word says something.
    pub fn of(word: u64) -> State
        ensures fields { result ≡ fields_of word }
        ensures word { word_of result ≡ word }
    {
        State {
            generation: (word >> 32) as u32,
            marked: word & MARK_BIT != 0,
            present: word & PRESENT_BIT != 0,
            count: (word % COUNT_LIMIT as u64) as u32,
        }
    }

    /// The word that says this.
    pub fn word(&self) -> u64
        ensures value { result ≡ word_of self.now }
        ensures fields { fields_of result ≡ self.now }
        ensures fits { FitsWord self.now }
    {
        u64::from(self.generation) << 32
            | u64::from(self.marked) << 31
            | u64::from(self.present) << 30
            | u64::from(self.count)
    }

    /// The slot's kind.
    pub fn kind(&self) -> Kind
        ensures value { result ≡ kind_of self.now }
        ensures fields { fields_at result self.now.generation self.now.count ≡ self.now }
    {
        match (self.marked, self.present) {
            (false, false) => Kind::Empty,
            (false, true) => Kind::Live,
            (true, true) => Kind::Marked,
            (true, false) => Kind::Retired,
        }
    }
}
