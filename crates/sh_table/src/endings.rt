//! The loads before an end: the pass that is to end a generation reads the value that ends. No step writes. What was
//! read is that value if the Finish that follows finds the marked word.
ghost use Rattle.std.specs.Prelude.{◌≡◌, [], length};
ghost use Rattle.sh_slots.specs.declared.hand.Sight.TheVariants as sight;
ghost use Rattle.sh_step.specs.Rows.{payload_word};
ghost use Rattle.sh_step.specs.declared.action.Action.TheVariants as action;
ghost use Rattle.sh_step.specs.declared.moves.Move.TheVariants as move;
ghost use Rattle.sh_table.specs.Seats.{CanDo, Did};

use crate::table::{HeapTable, PassSeat};
use sh_key::KeyLayout;
use sh_shape::Place;
use sh_slots::SlotRef;
use std::marker::Brand;

impl<L: KeyLayout> HeapTable<L> {
    /// Loads the class of the page of the slot whose generation it is to end.
    pub fn ending_class(&self, seat: &mut PassSeat, slot_ref: SlotRef, generation: u32) -> u64
        requires { CanDo L.layout self.now action.ReadEnding (move.ReadEnding slot_ref generation sight.Bare) seat.old }
        ensures { Did L.layout self.now action.ReadEnding (move.ReadEnding slot_ref generation sight.Bare) result
            seat.old seat.new }
    {
        self.load::<Brand, _>(seat, (slot_ref, generation), Place::Class(slot_ref.page))
    }

    /// Loads the length of the value that ends, in a page of this class word.
    pub fn ending_length(
        &self,
        seat: &mut PassSeat,
        slot_ref: SlotRef,
        generation: u32,
        class_word: u64,
    ) -> u64
        requires { CanDo L.layout self.now action.ReadEnding
            (move.ReadEnding slot_ref generation (sight.Classed class_word)) seat.old }
        ensures { Did L.layout self.now action.ReadEnding
            (move.ReadEnding slot_ref generation (sight.Classed class_word)) result seat.old seat.new }
    {
        self.load::<Brand, _>(
            seat,
            (slot_ref, generation, class_word),
            Place::Length(slot_ref.page, slot_ref.slot),
        )
    }

    /// Loads the next word of the value that ends, of which these words are loaded. The caller knows the slot's first
    /// word.
    pub fn ending_word(
        &self,
        seat: &mut PassSeat,
        slot_ref: SlotRef,
        generation: u32,
        class_word: u64,
        count: u64,
        words: &[u64],
        first: u64,
    ) -> u64
        requires can { CanDo L.layout self.now action.ReadEnding
            (move.ReadEnding slot_ref generation (sight.Measured class_word count words.now)) seat.old }
        requires first { first ≡ payload_word slot_ref.slot class_word 0 }
        ensures { Did L.layout self.now action.ReadEnding
            (move.ReadEnding slot_ref generation (sight.Measured class_word count words.now)) result seat.old seat.new }
    {
        self.load::<Brand, _>(
            seat,
            (slot_ref, generation, class_word, count, words),
            Place::Payload(slot_ref.page, first + words.len() as u64),
        )
    }
}
