//! Reading a key that is not kept.
ghost use Rattle.std.specs.Prelude.{◌≡◌};
ghost use Rattle.sh_slots.specs.declared.hand.Hand.TheVariants.{Idle};
ghost use Rattle.sh_table.specs.Seats.{IsSeat};
ghost use Rattle.sh_pass.specs.Fetching.{FetchDoes, GetsAndReads};
ghost use Rattle.sh_pass.specs.Owners.{CallLeaves};
ghost use Rattle.sh_pass.specs.Passes.{HoldsKept, caller_of};
ghost use Rattle.sh_pass.specs.Rooms.{FillsRoom};

use crate::calls::{get_guard_of, look_key, read_key, release_key};
use crate::looking::Glance;
use crate::room::Room;
use arrayvec::ArrayVec;
use sh_key::KeyLayout;
use sh_slots::SlotRef;
use sh_table::{HeapTable, PassSeat};
use sh_value::{HOLDS_MAX, Refusal, Value};

// A get, a read and a release in one. Refused as a get is, and then the room stays as it was. (It is apart from the
// look, which seldom needs it, so that a look clears no value.)
#[cold]
#[inline(never)]
fn get_and_read<L: KeyLayout, M: Room>(
    table: &HeapTable<L>,
    seat: &mut PassSeat,
    held: &mut ArrayVec<u64, HOLDS_MAX>,
    key: u64,
    owned: Option<u64>,
    room: &mut M,
) -> (Result<(), Refusal>, Option<SlotRef>)
    requires seat { IsSeat L.layout table.now seat.old }
    requires idle { seat.old.me.0.own.body.hand ≡ Idle }
    requires owned { seat.old.me.0.own.body.owned ≡ owned }
    requires kept { HoldsKept held.old.items seat.old.me.0.own.body.holds }
    ensures seat { IsSeat L.layout table.now seat.new }
    ensures kept { HoldsKept held.new.items seat.new.me.0.own.body.holds }
    ensures does { FillsRoom M.takes (λ answer. GetsAndReads L.layout key (caller_of seat.old) answer
        (caller_of seat.new)) room.old result.0 room.new }
    ensures leaves { CallLeaves L.layout result.1 (caller_of seat.old) (caller_of seat.new) }
{
    let (got, slot) = get_guard_of(table, seat, held, key, owned);
    let hold = match got {
        Ok(hold) => hold,
        Err(refusal) => return (Err(refusal), slot),
    };
    let mut value = Value::from(0);
    let Ok(()) = read_key(table, seat, held, &hold, &mut value) else {
        unreachable!()
    };
    let (released, slot) = release_key(table, seat, held, &hold, owned);
    let Ok(()) = released else { unreachable!() };
    room.put(value.words());
    (Ok(()), slot)
}

/// The value of a key, into the caller's room: by a look, and if that decides nothing by a get. Also returns the slot
/// that became its own, if any. A refusal leaves the room as it was, and no hold is left behind, whatever it returns.
#[inline(always)]
pub(crate) fn fetch_key<L: KeyLayout, M: Room>(
    table: &HeapTable<L>,
    seat: &mut PassSeat,
    held: &mut ArrayVec<u64, HOLDS_MAX>,
    key: u64,
    owned: Option<u64>,
    room: &mut M,
) -> (Result<(), Refusal>, Option<SlotRef>)
    requires seat { IsSeat L.layout table.now seat.old }
    requires idle { seat.old.me.0.own.body.hand ≡ Idle }
    requires owned { seat.old.me.0.own.body.owned ≡ owned }
    requires kept { HoldsKept held.old.items seat.old.me.0.own.body.holds }
    ensures seat { IsSeat L.layout table.now seat.new }
    ensures kept { HoldsKept held.new.items seat.new.me.0.own.body.holds }
    ensures does { FillsRoom M.takes (λ answer. FetchDoes L.layout key (caller_of seat.old) answer
        (caller_of seat.new)) room.old result.0 room.new }
    ensures leaves { CallLeaves L.layout result.1 (caller_of seat.old) (caller_of seat.new) }
{
    match look_key(table, seat, key, room) {
        Ok(found) => match found {
            Glance::Seen => (Ok(()), None),
            Glance::Gone => (Err(Refusal::Gone), None),
            Glance::Early => get_and_read(table, seat, held, key, owned, room),
        },
        Err(refusal) => (Err(refusal), None),
    }
}
