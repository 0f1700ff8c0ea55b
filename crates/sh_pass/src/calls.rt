// The calls of a pass, whether it owns a shard or not. Each also returns the slot of its shard that became its own, if
// any.
ghost use Rattle.std.specs.Prelude.{◌≡◌, None, OnOk};
ghost use Rattle.sh_slots.specs.declared.hand.Hand.TheVariants.{Idle};
ghost use Rattle.sh_table.specs.Seats.{IsSeat};
ghost use Rattle.sh_pass.specs.Passes.{GetDoes, ReadIntoDoes, RemoveDoes, ReleaseDoes, HoldsKept, caller_of};
ghost use Rattle.sh_pass.specs.Passes.{GlanceDoes};
ghost use Rattle.sh_pass.specs.Owners.{CallLeaves};

use crate::entering::{get_at, release_at, remove_at};
use crate::guard::Guard;
use crate::held_keys::{is_held, remove_one};
use crate::holding::Holding;
use crate::looking::{Glance, look_at};
use crate::reading::read_at;
use crate::room::Room;
use arrayvec::ArrayVec;
use sh_key::KeyLayout;
use sh_slots::{GetAnswer, SlotRef};
use sh_step::operands::place_of_key;
use sh_table::{HeapTable, PassSeat};
use sh_value::{HOLDS_MAX, Refusal, Value};

/// Takes a hold on a key, and returns it with the key's place.
#[inline(always)]
pub(crate) fn get_guard_of<L: KeyLayout>(
    table: &HeapTable<L>,
    seat: &mut PassSeat,
    held: &mut ArrayVec<u64, HOLDS_MAX>,
    key: u64,
    owned: Option<u64>,
) -> (Result<Guard<L>, Refusal>, Option<SlotRef>)
    requires seat { IsSeat L.layout table.now seat.old }
    requires idle { seat.old.me.0.own.body.hand ≡ Idle }
    requires owned { seat.old.me.0.own.body.owned ≡ owned }
    requires kept { HoldsKept held.old.items seat.old.me.0.own.body.holds }
    ensures seat { IsSeat L.layout table.now seat.new }
    ensures kept { HoldsKept held.new.items seat.new.me.0.own.body.holds }
    ensures does { GetDoes L.layout key (caller_of seat.old) result.0 (caller_of seat.new) }
    ensures leaves { CallLeaves L.layout result.1 (caller_of seat.old) (caller_of seat.new) }
    ensures none { OnOk result.0 (result.1 ≡ None) }
{
    let Some(name) = place_of_key::<L>(table.shape(), key) else {
        return (Err(Refusal::BadKey), None);
    };
    if held.is_full() {
        return (Err(Refusal::HoldsFull), None);
    }
    let got = get_at(table, seat, key, name, owned);
    match got.0 {
        GetAnswer::Got => {
            held.push(key);
            (Ok(Guard::new(key, name, table.shape())), None)
        }
        GetAnswer::Crowded => (Err(Refusal::Crowded), got.1),
        GetAnswer::Gone => (Err(Refusal::Gone), got.1),
    }
}

/// Removes a key.
#[inline(always)]
pub(crate) fn remove_key<L: KeyLayout>(
    table: &HeapTable<L>,
    seat: &mut PassSeat,
    key: u64,
    owned: Option<u64>,
) -> (Result<(), Refusal>, Option<SlotRef>)
    requires seat { IsSeat L.layout table.now seat.old }
    requires idle { seat.old.me.0.own.body.hand ≡ Idle }
    requires owned { seat.old.me.0.own.body.owned ≡ owned }
    ensures seat { IsSeat L.layout table.now seat.new }
    ensures kept { seat.new.me.0.own.body.holds ≡ seat.old.me.0.own.body.holds }
    ensures does { RemoveDoes L.layout key (caller_of seat.old) result.0 (caller_of seat.new) }
    ensures leaves { CallLeaves L.layout result.1 (caller_of seat.old) (caller_of seat.new) }
{
    let Some(name) = place_of_key::<L>(table.shape(), key) else {
        return (Err(Refusal::BadKey), None);
    };
    let removed = remove_at(table, seat, key, name, owned);
    if removed.0 {
        (Ok(()), removed.1)
    } else {
        (Err(Refusal::Gone), removed.1)
    }
}

/// Gives one hold on a key back.
#[inline(always)]
pub(crate) fn release_key<L: KeyLayout, K: Holding<L>>(
    table: &HeapTable<L>,
    seat: &mut PassSeat,
    held: &mut ArrayVec<u64, HOLDS_MAX>,
    hold: &K,
    owned: Option<u64>,
) -> (Result<(), Refusal>, Option<SlotRef>)
    requires seat { IsSeat L.layout table.now seat.old }
    requires idle { seat.old.me.0.own.body.hand ≡ Idle }
    requires owned { seat.old.me.0.own.body.owned ≡ owned }
    requires kept { HoldsKept held.old.items seat.old.me.0.own.body.holds }
    ensures seat { IsSeat L.layout table.now seat.new }
    ensures kept { HoldsKept held.new.items seat.new.me.0.own.body.holds }
    ensures does { ReleaseDoes L.layout (K.key_of hold.now) (caller_of seat.old) result.0 (caller_of seat.new) }
    ensures leaves { CallLeaves L.layout result.1 (caller_of seat.old) (caller_of seat.new) }
{
    let key = hold.held_key();
    if !is_held(held.as_slice(), key) {
        return (Err(Refusal::NotHeld), None);
    }
    let name = hold.place_in(table.shape());
    let slot = release_at(table, seat, key, name, owned);
    remove_one(held, key);
    (Ok(()), slot)
}

/// Reads the value of a key that the pass holds into a value of the caller's, replacing what that was. A value that is
/// returned would be copied by each call on its way.
#[inline(always)]
pub(crate) fn read_key<L: KeyLayout, K: Holding<L>>(
    table: &HeapTable<L>,
    seat: &mut PassSeat,
    held: &ArrayVec<u64, HOLDS_MAX>,
    hold: &K,
    value: &mut Value,
) -> Result<(), Refusal>
    requires seat { IsSeat L.layout table.now seat.old }
    requires idle { seat.old.me.0.own.body.hand ≡ Idle }
    requires kept { HoldsKept held.now.items seat.old.me.0.own.body.holds }
    ensures seat { IsSeat L.layout table.now seat.new }
    ensures kept { seat.new.me.0.own.body.holds ≡ seat.old.me.0.own.body.holds }
    ensures does { ReadIntoDoes (K.key_of hold.now) (caller_of seat.old) value.old result value.new
        (caller_of seat.new) }
    ensures leaves { CallLeaves L.layout None (caller_of seat.old) (caller_of seat.new) }
{
    let key = hold.held_key();
    if !is_held(held.as_slice(), key) {
        return Err(Refusal::NotHeld);
    }
    let name = hold.place_in(table.shape());
    read_at(table, seat, key, name, value);
    Ok(())
}

/// Looks at a key once: its value is put into the caller's room, without a hold.
#[inline(always)]
pub(crate) fn look_key<L: KeyLayout, M: Room>(
    table: &HeapTable<L>,
    seat: &mut PassSeat,
    key: u64,
    room: &mut M,
) -> Result<Glance, Refusal>
    requires seat { IsSeat L.layout table.now seat.old }
    requires idle { seat.old.me.0.own.body.hand ≡ Idle }
    ensures seat { IsSeat L.layout table.now seat.new }
    ensures kept { seat.new.me.0.own.body.holds ≡ seat.old.me.0.own.body.holds }
    ensures does { GlanceDoes M.takes L.layout key (caller_of seat.old) room.old result room.new (caller_of seat.new) }
    ensures leaves { CallLeaves L.layout None (caller_of seat.old) (caller_of seat.new) }
{
    let Some(name) = place_of_key::<L>(table.shape(), key) else {
        return Err(Refusal::BadKey);
    };
    Ok(look_at(table, seat, key, name, room))
}
