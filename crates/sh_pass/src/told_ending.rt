// What follows an answer in a call that says which key it ended: as `ending.rt`, with the key, and with its value's
// words if the caller's room asks for them. They are loaded just before the Finish, while nobody else uses the slot, and
// go into the room only if the Finish finds the marked word: then they are the value's.
//
// Each function returns the key that ended, if any, and whether the slot became its own.
ghost use Rattle.std.specs.Bool.{then_some};
ghost use Rattle.std.specs.Prelude.{◌≡◌, ◌+◌, ◌==◌, [], true};
ghost use Rattle.sh_slots.specs.declared.hand.Hand.TheVariants.{Idle, Leaving, Finishing};
ghost use Rattle.sh_slots.specs.declared.hand.Sight.TheVariants.{Bare};
ghost use Rattle.sh_slots.specs.Slots.{after_drop, marked_word};
ghost use Rattle.sh_step.specs.Plans.{plan_of};
ghost use Rattle.sh_step.specs.Rows.{hand, finish};
ghost use Rattle.sh_table.specs.Seats.{IsSeat};
ghost use Rattle.sh_pass.specs.Growing.{Grows, IsOfShard, with_slot};
ghost use Rattle.sh_pass.specs.Telling.{FinishTells, StepsTell, words_asked};

use crate::end_room::EndRoom;
use crate::ending::{is_of_shard, put_back};
use crate::looking::words_to_read;
use crate::peeking::key_in;
use sh_key::KeyLayout;
use sh_slots::{Hand, SlotRef, after_drop, marked_word};
use sh_step::operands::gen_max;
use sh_table::{HeapTable, PassSeat, first_word};
use sh_value::WORDS_MAX;

// Loads the value and ends its generation. Returns the word found: if it is the marked word, the value went into the
// room.
fn read_and_finish<L: KeyLayout, M: EndRoom>(
    table: &HeapTable<L>,
    seat: &mut PassSeat,
    slot_ref: SlotRef,
    generation: u32,
    room: &mut M,
) -> u64
    requires seat { IsSeat L.layout table.now seat.old }
    requires hand { seat.old.me.0.own.body.hand ≡ Finishing slot_ref generation Bare }
    ensures seat { IsSeat L.layout table.now seat.new }
    ensures grows { Grows ((finish (plan_of L.layout seat.old.me.0.shape) seat.old.me.0.own.body slot_ref
        generation).part result) [] 19 seat.old.me.0 seat.new.me.0 }
    ensures tells { FinishTells true M.takes L.layout slot_ref generation (result == marked_word generation) room.old
        room.new seat.old.me.0 seat.new.me.0 }
{
    let class_word = table.ending_class(seat, slot_ref, generation);
    let count = table.ending_length(seat, slot_ref, generation, class_word);
    let first = first_word(slot_ref.slot, class_word);
    let many = words_to_read(first, count) as usize;
    let mut words = [0; WORDS_MAX];
    for i in 0..many {
        let word = table.ending_word(
            seat,
            slot_ref,
            generation,
            class_word,
            count,
            &words[..i],
            first,
        );
        words[i] = word;
    }
    let found = table.finish(seat, slot_ref, generation);
    let marked = marked_word(generation);
    if found != marked {
        return found;
    }
    room.put(&words[..many]);
    found
}

// Ends a generation, with its value's words if the room asks for them. Returns the word found.
fn finish_asked<L: KeyLayout, M: EndRoom>(
    table: &HeapTable<L>,
    seat: &mut PassSeat,
    slot_ref: SlotRef,
    generation: u32,
    room: &mut M,
) -> u64
    requires seat { IsSeat L.layout table.now seat.old }
    requires hand { seat.old.me.0.own.body.hand ≡ Finishing slot_ref generation Bare }
    ensures seat { IsSeat L.layout table.now seat.new }
    ensures grows { Grows ((finish (plan_of L.layout seat.old.me.0.shape) seat.old.me.0.own.body slot_ref
        generation).part result) [] (1 + words_asked M.asks) seat.old.me.0 seat.new.me.0 }
    ensures tells { FinishTells M.asks M.takes L.layout slot_ref generation (result == marked_word generation) room.old
        room.new seat.old.me.0 seat.new.me.0 }
{
    if M::asks() {
        read_and_finish(table, seat, slot_ref, generation, room)
    } else {
        table.finish(seat, slot_ref, generation)
    }
}

// Ends the generation of a slot.
#[cold]
#[inline(never)]
fn finish_told<L: KeyLayout, M: EndRoom>(
    table: &HeapTable<L>,
    seat: &mut PassSeat,
    slot_ref: SlotRef,
    generation: u32,
    owned: Option<u64>,
    room: &mut M,
) -> (Option<u64>, bool)
    requires seat { IsSeat L.layout table.now seat.old }
    requires hand { seat.old.me.0.own.body.hand ≡ Finishing slot_ref generation Bare }
    requires owned { seat.old.me.0.own.body.owned ≡ owned }
    ensures seat { IsSeat L.layout table.now seat.new }
    ensures shard { IsOfShard (plan_of L.layout seat.old.me.0.shape) seat.old.me.0.own.body
        (then_some result.1 slot_ref) }
    ensures grows { Grows (with_slot (hand seat.old.me.0.own.body Idle) (then_some result.1 slot_ref)) []
        (5 + words_asked M.asks) seat.old.me.0 seat.new.me.0 }
    ensures tells { StepsTell M.asks M.takes L.layout result.0 room.old room.new seat.old.me.0 seat.new.me.0 }
{
    let found = finish_asked(table, seat, slot_ref, generation, room);
    let marked = marked_word(generation);
    if found != marked {
        return (None, false);
    }
    let Some(key) = key_in::<L>(table.shape(), slot_ref, generation) else {
        unreachable!()
    };
    let last = gen_max::<L>();
    if generation == last {
        return (Some(key), false);
    }
    if is_of_shard(table, owned, slot_ref.page) {
        return (Some(key), true);
    }
    put_back(table, seat, slot_ref);
    (Some(key), false)
}

/// Continues after a drop that found this word.
pub(crate) fn end_told<L: KeyLayout, M: EndRoom>(
    table: &HeapTable<L>,
    seat: &mut PassSeat,
    slot_ref: SlotRef,
    found: u64,
    owned: Option<u64>,
    room: &mut M,
) -> (Option<u64>, bool)
    requires seat { IsSeat L.layout table.now seat.old }
    requires hand { seat.old.me.0.own.body.hand ≡ after_drop slot_ref found }
    requires owned { seat.old.me.0.own.body.owned ≡ owned }
    ensures seat { IsSeat L.layout table.now seat.new }
    ensures shard { IsOfShard (plan_of L.layout seat.old.me.0.shape) seat.old.me.0.own.body
        (then_some result.1 slot_ref) }
    ensures grows { Grows (with_slot (hand seat.old.me.0.own.body Idle) (then_some result.1 slot_ref)) []
        (5 + words_asked M.asks) seat.old.me.0 seat.new.me.0 }
    ensures tells { StepsTell M.asks M.takes L.layout result.0 room.old room.new seat.old.me.0 seat.new.me.0 }
{
    if let Hand::Finishing(_, generation, _) = after_drop(slot_ref, found) {
        finish_told(table, seat, slot_ref, generation, owned, room)
    } else {
        (None, false)
    }
}

/// Gives back the count on a slot that it is leaving.
pub(crate) fn give_back_told<L: KeyLayout, M: EndRoom>(
    table: &HeapTable<L>,
    seat: &mut PassSeat,
    slot_ref: SlotRef,
    owned: Option<u64>,
    room: &mut M,
) -> (Option<u64>, bool)
    requires seat { IsSeat L.layout table.now seat.old }
    requires hand { seat.old.me.0.own.body.hand ≡ Leaving slot_ref }
    requires owned { seat.old.me.0.own.body.owned ≡ owned }
    ensures seat { IsSeat L.layout table.now seat.new }
    ensures shard { IsOfShard (plan_of L.layout seat.old.me.0.shape) seat.old.me.0.own.body
        (then_some result.1 slot_ref) }
    ensures grows { Grows (with_slot (hand seat.old.me.0.own.body Idle) (then_some result.1 slot_ref)) []
        (6 + words_asked M.asks) seat.old.me.0 seat.new.me.0 }
    ensures tells { StepsTell M.asks M.takes L.layout result.0 room.old room.new seat.old.me.0 seat.new.me.0 }
{
    let found = table.drop_count(seat, slot_ref);
    end_told(table, seat, slot_ref, found, owned, room)
}
