// The four calls of a pass, for an owner: a slot of its shard that the call frees goes to its page's lists.
ghost use Rattle.std.specs.Prelude.{◌≡◌, ◌+◌, ◌*◌, ◌^◌, ◌≤◌, None, length};
ghost use Rattle.sh_pass.specs.Fetching.{FetchDoes};
ghost use Rattle.sh_pass.specs.Rooms.{FillsRoom};
ghost use Rattle.sh_pass.specs.Passes.{GetDoes, ReadIntoDoes, RemoveDoes, ReleaseDoes};
ghost use Rattle.sh_pass.specs.Remaining.{Remains};
ghost use Rattle.sh_shard.specs.Kept.{MayGain, PushesGained};
ghost use Rattle.sh_shard.specs.Pages.{GainsSlot, HoldsPages};

use crate::pages::PagesOn;
use sh_key::KeyLayout;
use sh_pass::{Guard, KeepsHeap, Room};
use sh_slots::SlotRef;
use sh_states::PageStates;
use sh_value::{Hold, Refusal, Value};

/// Puts a slot that the owner gained in front of `local`. Returns its page's number in the shard.
pub(super) fn push_gained(
    states: &mut PageStates,
    shard: u64,
    gained: Option<SlotRef>,
) -> Option<u64>
    requires few { shard * length states.old + length states.old ≤ 2 ^ 24 }
    requires may { MayGain shard states.old gained }
    ensures { PushesGained shard gained states.old result states.new }
{
    let Some(slot_ref) = gained else {
        return None;
    };
    let page = slot_ref.page - shard * states.len();
    states.push_local(page, slot_ref.slot as u32);
    Some(page)
}

impl<L: KeyLayout, H: KeepsHeap<L>> PagesOn<L, H> {
    /// Takes a hold on a key. Refused as `BadKey`, `HoldsFull`, `Gone` or `Crowded`, tried in that order. Returns also
    /// the page that gained a slot.
    pub(crate) fn get(&mut self, key: u64) -> (Result<Hold, Refusal>, Option<u64>)
        ensures does { GetDoes L.layout key self.old.owner result.0 self.new.owner }
        ensures gained { GainsSlot result.1 self.old self.new }
        ensures holds { HoldsPages L.layout self.new }
        ensures remains { Remains L.layout self.old.owner self.new.owner }
    {
        let (answer, gained) = self.owner.get(key);
        let page = push_gained(&mut self.states, self.shard, gained);
        (answer, page)
    }

    /// The same as `get`, but the hold keeps the place of the key's slot.
    #[inline(always)]
    pub(crate) fn get_guard(&mut self, key: u64) -> (Result<Guard<L>, Refusal>, Option<u64>)
        ensures does { GetDoes L.layout key self.old.owner result.0 self.new.owner }
        ensures gained { GainsSlot result.1 self.old self.new }
        ensures holds { HoldsPages L.layout self.new }
        ensures remains { Remains L.layout self.old.owner self.new.owner }
    {
        let (answer, gained) = self.owner.get_guard(key);
        let page = push_gained(&mut self.states, self.shard, gained);
        (answer, page)
    }

    /// Reads the value of a key that the owner holds into a value of the caller's. Refused as `NotHeld`.
    #[inline(always)]
    pub(crate) fn read_into(&mut self, hold: Hold, value: &mut Value) -> Result<(), Refusal>
        ensures does { ReadIntoDoes hold.key self.old.owner value.old result value.new self.new.owner }
        ensures gained { GainsSlot None self.old self.new }
        ensures holds { HoldsPages L.layout self.new }
        ensures remains { Remains L.layout self.old.owner self.new.owner }
    {
        self.owner.read_into(hold, value)
    }

    /// The same as `read_into`, by a hold that keeps its place.
    #[inline(always)]
    pub(crate) fn read_guard(&mut self, guard: &Guard<L>, value: &mut Value) -> Result<(), Refusal>
        ensures does { ReadIntoDoes guard.now.key self.old.owner value.old result value.new self.new.owner }
        ensures gained { GainsSlot None self.old self.new }
        ensures holds { HoldsPages L.layout self.new }
        ensures remains { Remains L.layout self.old.owner self.new.owner }
    {
        self.owner.read_guard(guard, value)
    }

    /// The value of a key, into the caller's room, by a look. Returns also the page that gained a slot.
    #[inline(always)]
    pub(crate) fn look_into<M: Room>(
        &mut self,
        key: u64,
        room: &mut M,
    ) -> (Result<(), Refusal>, Option<u64>)
        ensures does { FillsRoom M.takes (λ answer. FetchDoes L.layout key self.old.owner answer self.new.owner)
            room.old result.0 room.new }
        ensures gained { GainsSlot result.1 self.old self.new }
        ensures holds { HoldsPages L.layout self.new }
        ensures remains { Remains L.layout self.old.owner self.new.owner }
    {
        let (answer, gained) = self.owner.look_into(key, room);
        let page = push_gained(&mut self.states, self.shard, gained);
        (answer, page)
    }

    /// Removes a key. Refused as `BadKey` or `Gone`. Returns also the page that gained a slot.
    pub(crate) fn remove(&mut self, key: u64) -> (Result<(), Refusal>, Option<u64>)
        ensures does { RemoveDoes L.layout key self.old.owner result.0 self.new.owner }
        ensures gained { GainsSlot result.1 self.old self.new }
        ensures holds { HoldsPages L.layout self.new }
        ensures remains { Remains L.layout self.old.owner self.new.owner }
    {
        let (answer, gained) = self.owner.remove(key);
        let page = push_gained(&mut self.states, self.shard, gained);
        (answer, page)
    }

    /// Gives one hold on a key back. Refused as `NotHeld`. Returns also the page that gained a slot.
    pub(crate) fn release(&mut self, hold: Hold) -> (Result<(), Refusal>, Option<u64>)
        ensures does { ReleaseDoes L.layout hold.key self.old.owner result.0 self.new.owner }
        ensures gained { GainsSlot result.1 self.old self.new }
        ensures holds { HoldsPages L.layout self.new }
        ensures remains { Remains L.layout self.old.owner self.new.owner }
    {
        let (answer, gained) = self.owner.release(hold);
        let page = push_gained(&mut self.states, self.shard, gained);
        (answer, page)
    }

    /// The same as `release`, of a hold that keeps its place.
    #[inline(always)]
    pub(crate) fn release_guard(&mut self, guard: Guard<L>) -> (Result<(), Refusal>, Option<u64>)
        ensures does { ReleaseDoes L.layout guard.key self.old.owner result.0 self.new.owner }
        ensures gained { GainsSlot result.1 self.old self.new }
        ensures holds { HoldsPages L.layout self.new }
        ensures remains { Remains L.layout self.old.owner self.new.owner }
    {
        let (answer, gained) = self.owner.release_guard(guard);
        let page = push_gained(&mut self.states, self.shard, gained);
        (answer, page)
    }
}
