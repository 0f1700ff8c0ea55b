//! The calls of an owner: those of a pass, each with the slot of its shard that became its own, if any.
ghost use Rattle.std.specs.Prelude.{◌≡◌, None};
ghost use Rattle.sh_slots.specs.declared.hand.Hand.TheVariants.{Idle};
ghost use Rattle.sh_pass.specs.Fetching.{FetchDoes};
ghost use Rattle.sh_pass.specs.Rooms.{FillsRoom};
ghost use Rattle.sh_pass.specs.Passes.{GetDoes, ReadDoes, ReadIntoDoes, RemoveDoes, ReleaseDoes};
ghost use Rattle.sh_pass.specs.Owners.{CallLeaves, own_body};
ghost use Rattle.sh_pass.specs.Remaining.{Remains};

use crate::calls::{get_guard_of, read_key, release_key, remove_key};
use crate::fetching::fetch_key;
use crate::guard::Guard;
use crate::keeping::KeepsHeap;
use crate::owner::OwnerOn;
use crate::room::Room;
use crate::seated::Seated;
use crate::warming::{warm_key, warm_value_of};
use sh_key::KeyLayout;
use sh_slots::SlotRef;
use sh_value::{Hold, Refusal, Value};

impl<L: KeyLayout, H: KeepsHeap<L>> OwnerOn<L, H> {
    /// Takes a hold on a key, so that its value stays readable. Refused as `BadKey`, `HoldsFull`, `Gone` or `Crowded`,
    /// tried in that order, as the get of a `Pass` is. If a refused get is the last to leave a removed key, the slot
    /// becomes its own.
    pub fn get(&mut self, key: u64) -> (Result<Hold, Refusal>, Option<SlotRef>)
        requires idle { (own_body self.old).hand ≡ Idle }
        ensures does { GetDoes L.layout key self.old result.0 self.new }
        ensures leaves { CallLeaves L.layout result.1 self.old self.new }
        ensures remains { Remains L.layout self.old self.new }
    {
        let heap = self.heap.kept();
        let Seated { seat, held, .. } = &mut self.seated;
        let (answer, slot) = get_guard_of(&heap.table, seat, held, key, self.owned);
        match answer {
            Ok(guard) => (Ok(guard.hold()), slot),
            Err(refusal) => (Err(refusal), slot),
        }
    }

    /// Loads the state word of a key's slot, so that the memory is on its way when a call of this key needs it. It does
    /// no step, and a number that is no key of the heap does nothing.
    #[inline(always)]
    pub fn warm(&self, key: u64) {
        let heap = self.heap.kept();
        warm_key(&heap.table, key);
    }

    /// The same, and the words that a read of the key's value needs: its page's class, its length, and its word if it
    /// has one. It does no step, and a number that is no key of the heap does nothing.
    #[inline(always)]
    pub fn warm_value(&self, key: u64) {
        let heap = self.heap.kept();
        warm_value_of(&heap.table, key);
    }

    /// The same as `get`, but the hold keeps the place of the key's slot.
    #[inline(always)]
    pub fn get_guard(&mut self, key: u64) -> (Result<Guard<L>, Refusal>, Option<SlotRef>)
        requires idle { (own_body self.old).hand ≡ Idle }
        ensures does { GetDoes L.layout key self.old result.0 self.new }
        ensures leaves { CallLeaves L.layout result.1 self.old self.new }
        ensures remains { Remains L.layout self.old self.new }
    {
        let heap = self.heap.kept();
        let Seated { seat, held, .. } = &mut self.seated;
        get_guard_of(&heap.table, seat, held, key, self.owned)
    }

    /// Removes a key: no later get finds it, and its value stays until the last hold goes. Refused as `BadKey` or
    /// `Gone`.
    pub fn remove(&mut self, key: u64) -> (Result<(), Refusal>, Option<SlotRef>)
        requires idle { (own_body self.old).hand ≡ Idle }
        ensures does { RemoveDoes L.layout key self.old result.0 self.new }
        ensures leaves { CallLeaves L.layout result.1 self.old self.new }
        ensures remains { Remains L.layout self.old self.new }
    {
        let heap = self.heap.kept();
        remove_key(&heap.table, &mut self.seated.seat, key, self.owned)
    }

    /// Gives one hold on a key back. Refused as `NotHeld` exactly if the pass has no hold on the key.
    pub fn release(&mut self, hold: Hold) -> (Result<(), Refusal>, Option<SlotRef>)
        requires idle { (own_body self.old).hand ≡ Idle }
        ensures does { ReleaseDoes L.layout hold.key self.old result.0 self.new }
        ensures leaves { CallLeaves L.layout result.1 self.old self.new }
        ensures remains { Remains L.layout self.old self.new }
    {
        let heap = self.heap.kept();
        let Seated { seat, held, .. } = &mut self.seated;
        release_key(&heap.table, seat, held, &hold, self.owned)
    }

    /// The same as `release`, of a hold that keeps its place.
    #[inline(always)]
    pub fn release_guard(&mut self, guard: Guard<L>) -> (Result<(), Refusal>, Option<SlotRef>)
        requires idle { (own_body self.old).hand ≡ Idle }
        ensures does { ReleaseDoes L.layout guard.key self.old result.0 self.new }
        ensures leaves { CallLeaves L.layout result.1 self.old self.new }
        ensures remains { Remains L.layout self.old self.new }
    {
        let heap = self.heap.kept();
        let Seated { seat, held, .. } = &mut self.seated;
        release_key(&heap.table, seat, held, &guard, self.owned)
    }

    /// The value of a key that the pass holds. Refused as `NotHeld` exactly if it has no hold on the key.
    pub fn read(&mut self, hold: Hold) -> Result<Value, Refusal>
        requires idle { (own_body self.old).hand ≡ Idle }
        ensures does { ReadDoes hold.key self.old result self.new }
        ensures leaves { CallLeaves L.layout None self.old self.new }
        ensures remains { Remains L.layout self.old self.new }
    {
        let mut value = Value::from(0);
        self.read_into(hold, &mut value)?;
        Ok(value)
    }

    /// Reads the value of a key that the owner holds into a value of the caller's, replacing what that was, so that it
    /// is copied nowhere. Refused as `NotHeld` exactly if the owner has no hold on the key: then the caller's value
    /// stays as it was.
    #[inline(always)]
    pub fn read_into(&mut self, hold: Hold, value: &mut Value) -> Result<(), Refusal>
        requires idle { (own_body self.old).hand ≡ Idle }
        ensures does { ReadIntoDoes hold.key self.old value.old result value.new self.new }
        ensures leaves { CallLeaves L.layout None self.old self.new }
        ensures remains { Remains L.layout self.old self.new }
    {
        let heap = self.heap.kept();
        let Seated { seat, held, .. } = &mut self.seated;
        read_key(&heap.table, seat, held, &hold, value)
    }

    /// The same as `read_into`, by a hold that keeps its place.
    #[inline(always)]
    pub fn read_guard(&mut self, guard: &Guard<L>, value: &mut Value) -> Result<(), Refusal>
        requires idle { (own_body self.old).hand ≡ Idle }
        ensures does { ReadIntoDoes guard.now.key self.old value.old result value.new self.new }
        ensures leaves { CallLeaves L.layout None self.old self.new }
        ensures remains { Remains L.layout self.old self.new }
    {
        let heap = self.heap.kept();
        let Seated { seat, held, .. } = &mut self.seated;
        read_key(&heap.table, seat, held, guard, value)
    }

    /// The value of a key, into the caller's room, by a look, as a pass does. A slot becomes its own only if the look
    /// decides nothing.
    #[inline(always)]
    pub fn look_into<M: Room>(
        &mut self,
        key: u64,
        room: &mut M,
    ) -> (Result<(), Refusal>, Option<SlotRef>)
        requires idle { (own_body self.old).hand ≡ Idle }
        ensures does { FillsRoom M.takes (λ answer. FetchDoes L.layout key self.old answer self.new) room.old result.0
            room.new }
        ensures leaves { CallLeaves L.layout result.1 self.old self.new }
        ensures remains { Remains L.layout self.old self.new }
    {
        let heap = self.heap.kept();
        let Seated { seat, held, .. } = &mut self.seated;
        fetch_key(&heap.table, seat, held, key, self.owned, room)
    }
}
