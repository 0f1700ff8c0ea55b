// The calls of a pass that say which key they ended, whether the pass owns a shard or not: as `calls.rt`. Each also
// returns the slot of its shard that became its own, if any, and the key that ended, if any.
ghost use Rattle.std.specs.Prelude.{◌≡◌, None, OnOk};
ghost use Rattle.sh_slots.specs.declared.hand.Hand.TheVariants.{Idle};
ghost use Rattle.sh_table.specs.Seats.{IsSeat};
ghost use Rattle.sh_pass.specs.Passes.{GetDoesWithin, RemoveDoesWithin, ReleaseDoesWithin, HoldsKept, caller_of};
ghost use Rattle.sh_pass.specs.Owners.{CallLeaves};
ghost use Rattle.sh_pass.specs.Telling.{TellsEnd, words_asked};

use crate::end_room::EndRoom;
use crate::guard::Guard;
use crate::held_keys::{is_held, remove_one};
use crate::holding::Holding;
use crate::told_entering::{get_told_at, release_told_at, remove_told_at};
use arrayvec::ArrayVec;
use sh_key::KeyLayout;
use sh_slots::{GetAnswer, SlotRef};
use sh_step::operands::place_of_key;
use sh_table::{HeapTable, PassSeat};
use sh_value::{HOLDS_MAX, Refusal};

/// Takes a hold on a key, and returns it with the key's place.
pub(crate) fn get_told<L: KeyLayout, M: EndRoom>(
    table: &HeapTable<L>,
    seat: &mut PassSeat,
    held: &mut ArrayVec<u64, HOLDS_MAX>,
    key: u64,
    owned: Option<u64>,
    room: &mut M,
) -> (Result<Guard<L>, Refusal>, Option<SlotRef>, Option<u64>)
    requires seat { IsSeat L.layout table.now seat.old }
    requires idle { seat.old.me.0.own.body.hand ≡ Idle }
    requires owned { seat.old.me.0.own.body.owned ≡ owned }
    requires kept { HoldsKept held.old.items seat.old.me.0.own.body.holds }
    ensures seat { IsSeat L.layout table.now seat.new }
    ensures kept { HoldsKept held.new.items seat.new.me.0.own.body.holds }
    ensures does { GetDoesWithin (words_asked M.asks) L.layout key (caller_of seat.old) result.0 (caller_of seat.new) }
    ensures leaves { CallLeaves L.layout result.1 (caller_of seat.old) (caller_of seat.new) }
    ensures tells { TellsEnd M.asks M.takes L.layout result.2 room.old room.new seat.old.me.0 seat.new.me.0 }
{
    let Some(name) = place_of_key::<L>(table.shape(), key) else {
        return (Err(Refusal::BadKey), None, None);
    };
    if held.is_full() {
        return (Err(Refusal::HoldsFull), None, None);
    }
    let (got, slot, ended) = get_told_at(table, seat, key, name, owned, room);
    match got {
        GetAnswer::Got => {
            held.push(key);
            (Ok(Guard::new(key, name, table.shape())), None, ended)
        }
        GetAnswer::Crowded => (Err(Refusal::Crowded), slot, ended),
        GetAnswer::Gone => (Err(Refusal::Gone), slot, ended),
    }
}

/// Removes a key.
pub(crate) fn remove_told<L: KeyLayout, M: EndRoom>(
    table: &HeapTable<L>,
    seat: &mut PassSeat,
    key: u64,
    owned: Option<u64>,
    room: &mut M,
) -> (Result<(), Refusal>, Option<SlotRef>, Option<u64>)
    requires seat { IsSeat L.layout table.now seat.old }
    requires idle { seat.old.me.0.own.body.hand ≡ Idle }
    requires owned { seat.old.me.0.own.body.owned ≡ owned }
    ensures seat { IsSeat L.layout table.now seat.new }
    ensures kept { seat.new.me.0.own.body.holds ≡ seat.old.me.0.own.body.holds }
    ensures does { RemoveDoesWithin (words_asked M.asks) L.layout key (caller_of seat.old) result.0
        (caller_of seat.new) }
    ensures leaves { CallLeaves L.layout result.1 (caller_of seat.old) (caller_of seat.new) }
    ensures tells { TellsEnd M.asks M.takes L.layout result.2 room.old room.new seat.old.me.0 seat.new.me.0 }
{
    let Some(name) = place_of_key::<L>(table.shape(), key) else {
        return (Err(Refusal::BadKey), None, None);
    };
    let (removed, slot, ended) = remove_told_at(table, seat, key, name, owned, room);
    if removed {
        (Ok(()), slot, ended)
    } else {
        (Err(Refusal::Gone), slot, ended)
    }
}

/// Gives one hold on a key back.
#[inline(always)]
pub(crate) fn release_told<L: KeyLayout, K: Holding<L>, M: EndRoom>(
    table: &HeapTable<L>,
    seat: &mut PassSeat,
    held: &mut ArrayVec<u64, HOLDS_MAX>,
    hold: &K,
    owned: Option<u64>,
    room: &mut M,
) -> (Result<(), Refusal>, Option<SlotRef>, Option<u64>)
    requires seat { IsSeat L.layout table.now seat.old }
    requires idle { seat.old.me.0.own.body.hand ≡ Idle }
    requires owned { seat.old.me.0.own.body.owned ≡ owned }
    requires kept { HoldsKept held.old.items seat.old.me.0.own.body.holds }
    ensures seat { IsSeat L.layout table.now seat.new }
    ensures kept { HoldsKept held.new.items seat.new.me.0.own.body.holds }
    ensures does { ReleaseDoesWithin (words_asked M.asks) L.layout (K.key_of hold.now) (caller_of seat.old) result.0
        (caller_of seat.new) }
    ensures leaves { CallLeaves L.layout result.1 (caller_of seat.old) (caller_of seat.new) }
    ensures tells { TellsEnd M.asks M.takes L.layout result.2 room.old room.new seat.old.me.0 seat.new.me.0 }
{
    let key = hold.held_key();
    if !is_held(held.as_slice(), key) {
        return (Err(Refusal::NotHeld), None, None);
    }
    let name = hold.place_in(table.shape());
    let (slot, ended) = release_told_at(table, seat, key, name, owned, room);
    remove_one(held, key);
    (Ok(()), slot, ended)
}
