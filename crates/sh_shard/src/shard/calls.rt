// The calls of a pass, for an owner: a full page that gains a slot in one goes back to its class.
ghost use Rattle.sh_pass.specs.Passes.{GetDoes, ReadDoes, ReadIntoDoes, RemoveDoes, ReleaseDoes};
ghost use Rattle.sh_pass.specs.Fetching.{FetchDoes};
ghost use Rattle.sh_pass.specs.Rooms.{FillsRoom};
ghost use Rattle.sh_shard.specs.Shards.{StaysOwner, ReturnsSlot, MovesNothing};

use crate::shard::ShardOn;
use crate::shard::returning::return_one;
use sh_key::KeyLayout;
use sh_pass::{Guard, KeepsHeap, Room};
use sh_value::{Hold, Refusal, Value};

impl<L: KeyLayout, H: KeepsHeap<L>> ShardOn<L, H> {
    /// Takes a hold on a key. Refused as `BadKey`, `HoldsFull`, `Gone` or `Crowded`, tried in that order.
    #[inline(always)]
    pub fn get(&mut self, key: u64) -> Result<Hold, Refusal>
        ensures does { GetDoes L.layout key self.old.pages.owner result self.new.pages.owner }
        ensures returned { ReturnsSlot self.old self.new }
        ensures stays { StaysOwner L.layout self.old self.new }
    {
        let (answer, gained) = self.pages.get(key);
        return_one(&self.pages, &mut self.queues, gained);
        answer
    }

    /// Loads the state word of a key's slot, so that the memory is on its way when a call of this key needs it. It does
    /// no step, and a number that is no key of the heap does nothing.
    #[inline(always)]
    pub fn warm(&self, key: u64) {
        self.pages.owner.warm(key);
    }

    /// The same, and the words that a read of the key's value needs: its page's class, its length, and its word if it
    /// has one. It does no step, and a number that is no key of the heap does nothing.
    #[inline(always)]
    pub fn warm_value(&self, key: u64) {
        self.pages.owner.warm_value(key);
    }

    /// The same as `get`, but the hold keeps the place of the key's slot, for `read_guard` and `release_guard`.
    pub fn get_guard(&mut self, key: u64) -> Result<Guard<L>, Refusal>
        ensures does { GetDoes L.layout key self.old.pages.owner result self.new.pages.owner }
        ensures returned { ReturnsSlot self.old self.new }
        ensures stays { StaysOwner L.layout self.old self.new }
    {
        let (answer, gained) = self.pages.get_guard(key);
        return_one(&self.pages, &mut self.queues, gained);
        answer
    }

    /// The value of a key that the owner holds. Refused as `NotHeld`.
    pub fn read(&mut self, hold: Hold) -> Result<Value, Refusal>
        ensures does { ReadDoes hold.key self.old.pages.owner result self.new.pages.owner }
        ensures moved { MovesNothing self.old self.new }
        ensures stays { StaysOwner L.layout self.old self.new }
    {
        // (It has one word, as most values have: reading such a value into it is one store.)
        let mut value = Value::from(0);
        self.read_into(hold, &mut value)?;
        Ok(value)
    }

    /// Reads the value of a key that the owner holds into a value of the caller's, which it overwrites, with no copy in
    /// between. Refused as `NotHeld`: then the caller's value stays as it was.
    pub fn read_into(&mut self, hold: Hold, value: &mut Value) -> Result<(), Refusal>
        ensures does { ReadIntoDoes hold.key self.old.pages.owner value.old result value.new self.new.pages.owner }
        ensures moved { MovesNothing self.old self.new }
        ensures stays { StaysOwner L.layout self.old self.new }
    {
        self.pages.read_into(hold, value)
    }

    /// The value of a key, by a look, as a pass does. It leaves the holds as they were.
    pub fn look(&mut self, key: u64) -> Result<Value, Refusal>
        ensures does { FetchDoes L.layout key self.old.pages.owner result self.new.pages.owner }
        ensures returned { ReturnsSlot self.old self.new }
        ensures stays { StaysOwner L.layout self.old self.new }
    {
        let mut value = Value::from(0);
        self.look_into(key, &mut value)?;
        Ok(value)
    }

    /// The same into a room of the caller's, as a `Value`, with no copy in between. A refusal leaves the room as it
    /// was.
    #[inline(always)]
    pub fn look_into<M: Room>(&mut self, key: u64, room: &mut M) -> Result<(), Refusal>
        ensures does { FillsRoom M.takes (λ answer. FetchDoes L.layout key self.old.pages.owner answer
            self.new.pages.owner) room.old result room.new }
        ensures returned { ReturnsSlot self.old self.new }
        ensures stays { StaysOwner L.layout self.old self.new }
    {
        let (answer, gained) = self.pages.look_into(key, room);
        return_one(&self.pages, &mut self.queues, gained);
        answer
    }

    /// The same as `read_into`, by a hold that keeps its place.
    pub fn read_guard(&mut self, guard: &Guard<L>, value: &mut Value) -> Result<(), Refusal>
        ensures does { ReadIntoDoes guard.now.key self.old.pages.owner value.old result value.new self.new.pages.owner }
        ensures moved { MovesNothing self.old self.new }
        ensures stays { StaysOwner L.layout self.old self.new }
    {
        self.pages.read_guard(guard, value)
    }

    /// Removes a key. Refused as `BadKey` or `Gone`.
    pub fn remove(&mut self, key: u64) -> Result<(), Refusal>
        ensures does { RemoveDoes L.layout key self.old.pages.owner result self.new.pages.owner }
        ensures returned { ReturnsSlot self.old self.new }
        ensures stays { StaysOwner L.layout self.old self.new }
    {
        let (answer, gained) = self.pages.remove(key);
        return_one(&self.pages, &mut self.queues, gained);
        answer
    }

    /// Gives one hold on a key back. Refused as `NotHeld`.
    pub fn release(&mut self, hold: Hold) -> Result<(), Refusal>
        ensures does { ReleaseDoes L.layout hold.key self.old.pages.owner result self.new.pages.owner }
        ensures returned { ReturnsSlot self.old self.new }
        ensures stays { StaysOwner L.layout self.old self.new }
    {
        let (answer, gained) = self.pages.release(hold);
        return_one(&self.pages, &mut self.queues, gained);
        answer
    }

    /// The same as `release`, of a hold that keeps its place.
    pub fn release_guard(&mut self, guard: Guard<L>) -> Result<(), Refusal>
        ensures does { ReleaseDoes L.layout guard.key self.old.pages.owner result self.new.pages.owner }
        ensures returned { ReturnsSlot self.old self.new }
        ensures stays { StaysOwner L.layout self.old self.new }
    {
        let (answer, gained) = self.pages.release_guard(guard);
        return_one(&self.pages, &mut self.queues, gained);
        answer
    }
}
