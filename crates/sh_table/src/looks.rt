//! The loads of a look: a value is read without a hold, between two loads of its slot's state word. No step writes.
ghost use Rattle.std.specs.Prelude.{◌≡◌, [], length};
ghost use Rattle.sh_slots.specs.declared.hand.Sight.TheVariants as sight;
ghost use Rattle.sh_step.specs.Rows.{payload_word};
ghost use Rattle.sh_step.specs.declared.action.Action.TheVariants as action;
ghost use Rattle.sh_step.specs.declared.moves.Move.TheVariants as move;
ghost use Rattle.sh_table.specs.Seats.{CanDo, Did};

use crate::table::{HeapTable, PassSeat};
use sh_key::KeyLayout;
use sh_shape::Place;
use sh_slots::{KeyRef, SlotRef};
use sh_step::SlotName;
use std::marker::Brand;

impl<L: KeyLayout> HeapTable<L> {
    /// Loads the state of a slot.
    pub fn peek_state(&self, seat: &mut PassSeat, slot_name: SlotName, slot_ref: SlotRef) -> u64
        requires { CanDo L.layout self.now (action.Peek slot_name) (move.Peek slot_ref) seat.old }
        ensures { Did L.layout self.now (action.Peek slot_name) (move.Peek slot_ref) result seat.old seat.new }
    {
        self.load::<Brand, _>(
            seat,
            (slot_name, slot_ref),
            Place::State(slot_ref.page, slot_ref.slot),
        )
    }

    /// Begins to look at a key: loads the state of its slot.
    pub fn look_first(&self, seat: &mut PassSeat, key: u64, name: KeyRef) -> u64
        requires { CanDo L.layout self.now (action.Look key) (move.Look key name) seat.old }
        ensures { Did L.layout self.now (action.Look key) (move.Look key name) result seat.old seat.new }
    {
        self.load::<Brand, _>(seat, (key, name), Place::State(name.page, name.slot))
    }

    /// Loads the class of the page of the key that it looks at.
    pub fn look_class(&self, seat: &mut PassSeat, key: u64, name: KeyRef) -> u64
        requires { CanDo L.layout self.now action.LookOn (move.LookOn key name sight.Bare) seat.old }
        ensures { Did L.layout self.now action.LookOn (move.LookOn key name sight.Bare) result seat.old seat.new }
    {
        self.load::<Brand, _>(seat, (key, name), Place::Class(name.page))
    }

    /// Loads the length of the value of the key that it looks at, in a page of this class word.
    pub fn look_length(&self, seat: &mut PassSeat, key: u64, name: KeyRef, class_word: u64) -> u64
        requires { CanDo L.layout self.now action.LookOn (move.LookOn key name (sight.Classed class_word)) seat.old }
        ensures { Did L.layout self.now action.LookOn (move.LookOn key name (sight.Classed class_word)) result seat.old
            seat.new }
    {
        self.load::<Brand, _>(
            seat,
            (key, name, class_word),
            Place::Length(name.page, name.slot),
        )
    }

    /// Loads the next word of the value of the key that it looks at, of which these words are loaded. The caller knows
    /// the slot's first word.
    pub fn look_word(
        &self,
        seat: &mut PassSeat,
        key: u64,
        name: KeyRef,
        class_word: u64,
        count: u64,
        words: &[u64],
        first: u64,
    ) -> u64
        requires can { CanDo L.layout self.now action.LookOn
            (move.LookOn key name (sight.Measured class_word count words.now)) seat.old }
        requires first { first ≡ payload_word name.slot class_word 0 }
        ensures { Did L.layout self.now action.LookOn
            (move.LookOn key name (sight.Measured class_word count words.now)) result seat.old seat.new }
    {
        self.load::<Brand, _>(
            seat,
            (key, name, class_word, count, words),
            Place::Payload(name.page, first + words.len() as u64),
        )
    }

    /// The same for the only word of a value in a page of one-word slots.
    pub fn look_only_word(&self, seat: &mut PassSeat, key: u64, name: KeyRef, first: u64) -> u64
        requires can { CanDo L.layout self.now action.LookOn (move.LookOn key name (sight.Measured 1 1 [])) seat.old }
        requires first { first ≡ payload_word name.slot 1 0 }
        ensures { Did L.layout self.now action.LookOn (move.LookOn key name (sight.Measured 1 1 [])) result seat.old
            seat.new }
    {
        self.load::<Brand, _>(seat, (key, name), Place::Payload(name.page, first))
    }

    /// Loads the state of the key's slot again, once all is read.
    pub fn look_again(
        &self,
        seat: &mut PassSeat,
        key: u64,
        name: KeyRef,
        class_word: u64,
        count: u64,
        words: &[u64],
    ) -> u64
        requires { CanDo L.layout self.now action.LookAgain
            (move.LookAgain key name (sight.Measured class_word count words.now)) seat.old }
        ensures { Did L.layout self.now action.LookAgain
            (move.LookAgain key name (sight.Measured class_word count words.now)) result seat.old seat.new }
    {
        self.load::<Brand, _>(
            seat,
            (key, name, class_word, count, words),
            Place::State(name.page, name.slot),
        )
    }
}
