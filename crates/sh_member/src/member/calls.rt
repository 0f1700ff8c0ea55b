// The calls of a member that leave it a pass, or the owner of its shard.
ghost use Rattle.std.specs.Prelude.{◌<◌, length};
ghost use Rattle.sh_pass.specs.Passes.{GetDoes, ReadDoes, ReadIntoDoes, RemoveDoes, ReleaseDoes};
ghost use Rattle.sh_pass.specs.Fetching.{FetchDoes};
ghost use Rattle.sh_pass.specs.Rooms.{FillsRoom};
ghost use Rattle.sh_member.specs.Sides.{SideDoes, SideInserts, SidePrepares, SideCollects};
ghost use Rattle.sh_member.specs.SideBounds.{InsertTakes, PrepareTakes};

use crate::member::{Member, Side};
use sh_key::KeyLayout;
use sh_pass::{KeepsHeap, Room};
use sh_value::{Hold, Refusal, Value};

impl<L: KeyLayout, H: KeepsHeap<L>> Member<L, H> {
    /// Takes a hold on a key. Refused as `BadKey`, `HoldsFull`, `Gone` or `Crowded`, tried in that order.
    pub fn get(&mut self, key: u64) -> Result<Hold, Refusal>
        ensures { SideDoes L.layout (GetDoes L.layout key) self.old result self.new }
    {
        match &mut self.side {
            Side::Pass(pass) => pass.get(key),
            Side::Shard(shard) => shard.get(key),
        }
    }

    /// The value of a key that it holds. Refused as `NotHeld`.
    pub fn read(&mut self, hold: Hold) -> Result<Value, Refusal>
        ensures { SideDoes L.layout (ReadDoes hold.key) self.old result self.new }
    {
        match &mut self.side {
            Side::Pass(pass) => pass.read(hold),
            Side::Shard(shard) => shard.read(hold),
        }
    }

    /// The same into a value of the caller's. A refusal leaves that value as it was.
    pub fn read_into(&mut self, hold: Hold, value: &mut Value) -> Result<(), Refusal>
        ensures { SideDoes L.layout (λ v answer w. ReadIntoDoes hold.key v value.old answer value.new w) self.old result
            self.new }
    {
        match &mut self.side {
            Side::Pass(pass) => pass.read_into(hold, value),
            Side::Shard(shard) => shard.read_into(hold, value),
        }
    }

    /// The value of a key, by a look. Refused as the `look` of a reader is. It leaves the holds as they were.
    pub fn look(&mut self, key: u64) -> Result<Value, Refusal>
        ensures { SideDoes L.layout (FetchDoes L.layout key) self.old result self.new }
    {
        match &mut self.side {
            Side::Pass(pass) => pass.look(key),
            Side::Shard(shard) => shard.look(key),
        }
    }

    /// The same into a room of the caller's, as a `Value`. A refusal leaves the room as it was.
    pub fn look_into<M: Room>(&mut self, key: u64, room: &mut M) -> Result<(), Refusal>
        ensures { FillsRoom M.takes (λ answer. SideDoes L.layout (FetchDoes L.layout key) self.old answer self.new)
            room.old result room.new }
    {
        match &mut self.side {
            Side::Pass(pass) => pass.look_into(key, room),
            Side::Shard(shard) => shard.look_into(key, room),
        }
    }

    /// Removes a key: no later get finds it, and its value stays until the last hold goes. Refused as `BadKey` or
    /// `Gone`.
    pub fn remove(&mut self, key: u64) -> Result<(), Refusal>
        ensures { SideDoes L.layout (RemoveDoes L.layout key) self.old result self.new }
    {
        match &mut self.side {
            Side::Pass(pass) => pass.remove(key),
            Side::Shard(shard) => shard.remove(key),
        }
    }

    /// Gives one hold on a key back. Refused as `NotHeld`.
    pub fn release(&mut self, hold: Hold) -> Result<(), Refusal>
        ensures { SideDoes L.layout (ReleaseDoes L.layout hold.key) self.old result self.new }
    {
        match &mut self.side {
            Side::Pass(pass) => pass.release(hold),
            Side::Shard(shard) => shard.release(hold),
        }
    }

    /// Stores a value under a new key in the shard that it owns. Refused as `NoShard` if it owns none, and otherwise as
    /// `Full` or `Memory`.
    pub fn insert(&mut self, value: &Value) -> Result<u64, Refusal>
        ensures serves { SideInserts L.layout value.now self.old result self.new }
        ensures bounded { InsertTakes (length value.now) self.old self.new }
    {
        match &mut self.side {
            Side::Pass(_) => Err(Refusal::NoShard),
            Side::Shard(shard) => shard.insert(value),
        }
    }

    /// Gives a page of the shard that it owns to class `class`, from 0 to 7, and returns the page. Refused as `NoShard`
    /// if it owns none, and otherwise as `Full` or `Memory`.
    pub fn prepare(&mut self, class: u32) -> Result<u32, Refusal>
        requires { class < 8 }
        ensures serves { SidePrepares L.layout class self.old result self.new }
        ensures bounded { PrepareTakes self.old self.new }
    {
        match &mut self.side {
            Side::Pass(_) => Err(Refusal::NoShard),
            Side::Shard(shard) => shard.prepare(class),
        }
    }

    /// Collects what others freed in the shard that it owns. Refused as `NoShard` if it owns none.
    pub fn collect(&mut self) -> Result<(), Refusal>
        ensures { SideCollects L.layout self.old result self.new }
    {
        match &mut self.side {
            Side::Pass(_) => Err(Refusal::NoShard),
            Side::Shard(shard) => {
                shard.collect();
                Ok(())
            }
        }
    }
}
