// Steps that enter a slot or leave it in a call that says which key it ended: as `entering.rt`. Each function also
// returns the slot that became its own, if any, and the key that ended, if any.
ghost use Rattle.std.specs.Prelude.{◌≡◌, ◌+◌, ◌<◌, ◌==◌, ◌∷◌, [], true, Some, length};
ghost use Rattle.sh_slots.specs.declared.hand.Hand.TheVariants.{Idle};
ghost use Rattle.sh_history.specs.declared.entry.Entry.TheVariants as entry;
ghost use Rattle.sh_history.specs.declared.log.LogEntry.TheVariants.{Known};
ghost use Rattle.sh_step.specs.Collections.{has};
ghost use Rattle.sh_step.specs.Rows.{hand, freed};
ghost use Rattle.sh_step.specs.Moves.{place_named};
ghost use Rattle.sh_step.specs.Plans.{plan_of};
ghost use Rattle.sh_table.specs.Seats.{IsSeat};
ghost use Rattle.sh_step.specs.declared.action.Action.TheVariants as action;
ghost use Rattle.sh_pass.specs.Deciding.{Stepped, Begins, EntryDecides, EntryOrMarkDecides};
ghost use Rattle.sh_pass.specs.Growing.{Grows, GetGrowsWithin, RemoveGrowsWithin, IsOfShard, with_slot};
ghost use Rattle.sh_pass.specs.Telling.{StepsTell, words_asked};

use crate::end_room::EndRoom;
use crate::entering::{enter_to_get, enter_to_remove, mark_at};
use crate::told_ending::{end_told, give_back_told};
use sh_key::KeyLayout;
use sh_slots::{GetAnswer, KeyRef, SlotRef};
use sh_table::{HeapTable, PassSeat};

/// Enters the slot of a key, to get it, and leaves it again if the get fails.
pub(crate) fn get_told_at<L: KeyLayout, M: EndRoom>(
    table: &HeapTable<L>,
    seat: &mut PassSeat,
    key: u64,
    name: KeyRef,
    owned: Option<u64>,
    room: &mut M,
) -> (GetAnswer, Option<SlotRef>, Option<u64>)
    requires seat { IsSeat L.layout table.now seat.old }
    requires idle { seat.old.me.0.own.body.hand ≡ Idle }
    requires owned { seat.old.me.0.own.body.owned ≡ owned }
    requires few { length seat.old.me.0.own.body.holds < 16 }
    requires name { place_named (plan_of L.layout seat.old.me.0.shape) key ≡ Some name }
    ensures seat { IsSeat L.layout table.now seat.new }
    ensures shard { IsOfShard (plan_of L.layout seat.old.me.0.shape) seat.old.me.0.own.body result.1 }
    ensures grows { GetGrowsWithin (words_asked M.asks) key result.0 result.1 seat.old.me.0 seat.new.me.0 }
    ensures first { Stepped (EntryDecides (plan_of L.layout seat.old.me.0.shape) key name result.0) seat.old.me.0
        seat.new.me.0 }
    ensures tells { StepsTell M.asks M.takes L.layout result.2 room.old room.new seat.old.me.0 seat.new.me.0 }
{
    let answer = enter_to_get(table, seat, key, name);
    match answer {
        GetAnswer::Got => (answer, None, None),
        GetAnswer::Crowded | GetAnswer::Gone => {
            let slot_ref = name.slot_ref();
            let (ended, is_own) = give_back_told(table, seat, slot_ref, owned, room);
            (answer, is_own.then_some(slot_ref), ended)
        }
    }
}

/// Removes a key of the shape, and returns whether this pass removed it.
pub(crate) fn remove_told_at<L: KeyLayout, M: EndRoom>(
    table: &HeapTable<L>,
    seat: &mut PassSeat,
    key: u64,
    name: KeyRef,
    owned: Option<u64>,
    room: &mut M,
) -> (bool, Option<SlotRef>, Option<u64>)
    requires seat { IsSeat L.layout table.now seat.old }
    requires idle { seat.old.me.0.own.body.hand ≡ Idle }
    requires owned { seat.old.me.0.own.body.owned ≡ owned }
    requires name { place_named (plan_of L.layout seat.old.me.0.shape) key ≡ Some name }
    ensures seat { IsSeat L.layout table.now seat.new }
    ensures shard { IsOfShard (plan_of L.layout seat.old.me.0.shape) seat.old.me.0.own.body result.1 }
    ensures grows { RemoveGrowsWithin (words_asked M.asks) key result.0 result.1 seat.old.me.0 seat.new.me.0 }
    ensures first { Stepped (EntryOrMarkDecides key name result.0) seat.old.me.0 seat.new.me.0 }
    ensures tells { StepsTell M.asks M.takes L.layout result.2 room.old room.new seat.old.me.0 seat.new.me.0 }
{
    let slot_ref = name.slot_ref();
    let there = enter_to_remove(table, seat, key, name);
    if there {
        let first = mark_at(table, seat, key, name);
        let (ended, is_own) = give_back_told(table, seat, slot_ref, owned, room);
        (first, is_own.then_some(slot_ref), ended)
    } else {
        let (ended, is_own) = give_back_told(table, seat, slot_ref, owned, room);
        (false, is_own.then_some(slot_ref), ended)
    }
}

/// Gives back the count of a hold on a key.
#[inline(always)]
pub(crate) fn release_told_at<L: KeyLayout, M: EndRoom>(
    table: &HeapTable<L>,
    seat: &mut PassSeat,
    key: u64,
    name: KeyRef,
    owned: Option<u64>,
    room: &mut M,
) -> (Option<SlotRef>, Option<u64>)
    requires seat { IsSeat L.layout table.now seat.old }
    requires idle { seat.old.me.0.own.body.hand ≡ Idle }
    requires owned { seat.old.me.0.own.body.owned ≡ owned }
    requires held { has (λ k. k == key) seat.old.me.0.own.body.holds ≡ true }
    requires name { place_named (plan_of L.layout seat.old.me.0.shape) key ≡ Some name }
    ensures seat { IsSeat L.layout table.now seat.new }
    ensures shard { IsOfShard (plan_of L.layout seat.old.me.0.shape) seat.old.me.0.own.body result.0 }
    ensures grows { Grows (with_slot (hand (freed seat.old.me.0.own.body key) Idle) result.0)
        (Known (entry.Released seat.old.me.0.pass key) ∷ []) (6 + words_asked M.asks) seat.old.me.0 seat.new.me.0 }
    ensures first { Stepped (Begins (action.DropHold key) name) seat.old.me.0 seat.new.me.0 }
    ensures tells { StepsTell M.asks M.takes L.layout result.1 room.old room.new seat.old.me.0 seat.new.me.0 }
{
    let found = table.drop_hold(seat, key, name);
    let slot_ref = name.slot_ref();
    let (ended, is_own) = end_told(table, seat, slot_ref, found, owned, room);
    (is_own.then_some(slot_ref), ended)
}
