// The calls of a caller on keys: each is the call of its member in the key's chunk. They are never inlined, so that a
// handle that may have a caller saves no registers for them in the calls of other heaps.
ghost use Rattle.std.specs.Prelude.{◌≡◌, ◌<◌, IfOk, IsSome, MatchBool, None, get_or, length};
ghost use Rattle.sh_chunk.specs.Chunks.{chunked, chunk_of, key_within};
ghost use Rattle.sh_pass.specs.Passes.{ReadDoes, ReadIntoDoes, RemoveDoes, ReleaseDoes};
ghost use Rattle.sh_pass.specs.Fetching.{FetchDoes};
ghost use Rattle.sh_pass.specs.Rooms.{FillsRoom};
ghost use Rattle.sh_member.specs.Readers.{TakeIntoDoes};
ghost use Rattle.sh_member.specs.Sides.{SideDoes};
ghost use Rattle.sh_grown.specs.Callers.{GrownDoes, GetsIn, Stays};

use crate::caller::Caller;
use crate::chunk_member::{
    get_at, get_guard_at, look_at, look_into_at, read_at, read_guard_at, read_into_at, release_at,
    release_guard_at, remove_at, take_into_at,
};
use crate::guard::GrownGuard;
use sh_chunk::Chunked;
use sh_pass::Room;
use sh_value::{Hold, Refusal, Value};

// The number of the key's chunk.
pub(crate) fn chunk_of(key: u64) -> usize
    ensures is { result ≡ chunk_of key }
{
    let (chunk, _) = Chunked::split(key);
    chunk as usize
}

impl Caller {
    // Whether it has a member in this chunk.
    pub(crate) fn has_met(&self, chunk: usize) -> bool
        ensures { MatchBool result
            ((chunk < length self.now.met.items) × IsSome (get_or self.now.met.items chunk None))
            (get_or self.now.met.items chunk None ≡ None) }
    {
        match self.met.get(chunk) {
            Some(place) => place.is_some(),
            None => false,
        }
    }

    /// Takes a hold on a key. Refused as `BadKey`, `HoldsFull`, `Gone` or `Crowded`, tried in that order.
    ///
    /// As for each call on a key, `BadKey` comes if the heap may not have the key's chunk, or if the chunk returns it.
    /// It also comes if the load of that chunk's cell in this call finds it not open. A caller that has met the chunk
    /// does no such load. `Taken` comes if the caller's pass is not in the chunk's pool, since it was given back there
    /// while it owned a shard.
    #[inline(never)]
    pub fn get(&mut self, key: u64) -> Result<Hold, Refusal>
        ensures does { GrownDoes (SideDoes chunked (GetsIn key))
            self.old.growing self.old.number (chunk_of key) self.old.met.items result
            self.new.met.items }
        ensures hold { IfOk result (λ hold. hold.key ≡ key) }
        ensures stays { Stays self.old self.new }
    {
        let chunk = chunk_of(key);
        self.meet(chunk)?;
        get_at(&mut self.met[chunk], key)
    }

    /// The same as `get`, but the hold keeps the place of the key's slot, for `read_guard` and `release_guard`.
    #[inline(never)]
    pub fn get_guard(&mut self, key: u64) -> Result<GrownGuard, Refusal>
        ensures does { GrownDoes (SideDoes chunked (GetsIn key))
            self.old.growing self.old.number (chunk_of key) self.old.met.items result
            self.new.met.items }
        ensures hold { IfOk result (λ hold. hold.key ≡ key) }
        ensures stays { Stays self.old self.new }
    {
        let chunk = chunk_of(key);
        self.meet(chunk)?;
        get_guard_at(&mut self.met[chunk], key)
    }

    /// The value of a key that it holds. Refused as `NotHeld` only if its pass in the key's chunk has no hold on it. A
    /// pass that was given back has its holds when it is claimed again, in each chunk.
    #[inline(never)]
    pub fn read(&mut self, hold: Hold) -> Result<Value, Refusal>
        ensures does { GrownDoes (SideDoes chunked (ReadDoes (key_within hold.key)))
            self.old.growing self.old.number (chunk_of hold.key) self.old.met.items result
            self.new.met.items }
        ensures stays { Stays self.old self.new }
    {
        let chunk = chunk_of(hold.key);
        self.meet(chunk)?;
        read_at(&mut self.met[chunk], hold)
    }

    /// The same into a value of the caller's. A refusal leaves that value as it was.
    #[inline(never)]
    pub fn read_into(&mut self, hold: Hold, value: &mut Value) -> Result<(), Refusal>
        ensures does { GrownDoes (SideDoes chunked (λ v answer w. ReadIntoDoes (key_within hold.key) v value.old
            answer value.new w))
            self.old.growing self.old.number (chunk_of hold.key) self.old.met.items result
            self.new.met.items }
        ensures stays { Stays self.old self.new }
    {
        let chunk = chunk_of(hold.key);
        self.meet(chunk)?;
        read_into_at(&mut self.met[chunk], hold, value)
    }

    /// The same as `read_into`, by a hold that keeps its place.
    #[inline(never)]
    pub fn read_guard(&mut self, guard: &GrownGuard, value: &mut Value) -> Result<(), Refusal>
        ensures does { GrownDoes (SideDoes chunked (λ v answer w. ReadIntoDoes (key_within guard.now.key) v value.old
            answer value.new w))
            self.old.growing self.old.number (chunk_of guard.now.key) self.old.met.items result
            self.new.met.items }
        ensures stays { Stays self.old self.new }
    {
        let key = guard.key();
        let chunk = chunk_of(key);
        self.meet(chunk)?;
        read_guard_at(&mut self.met[chunk], guard, value)
    }

    /// Gives one hold on a key back. Refused as `NotHeld`, as `read` is.
    #[inline(never)]
    pub fn release(&mut self, hold: Hold) -> Result<(), Refusal>
        ensures does { GrownDoes (SideDoes chunked (ReleaseDoes chunked (key_within hold.key)))
            self.old.growing self.old.number (chunk_of hold.key) self.old.met.items result
            self.new.met.items }
        ensures stays { Stays self.old self.new }
    {
        let chunk = chunk_of(hold.key);
        self.meet(chunk)?;
        release_at(&mut self.met[chunk], hold)
    }

    /// The same as `release`, of a hold that keeps its place.
    #[inline(never)]
    pub fn release_guard(&mut self, guard: GrownGuard) -> Result<(), Refusal>
        ensures does { GrownDoes (SideDoes chunked (ReleaseDoes chunked (key_within guard.key)))
            self.old.growing self.old.number (chunk_of guard.key) self.old.met.items result
            self.new.met.items }
        ensures stays { Stays self.old self.new }
    {
        let key = guard.key();
        let chunk = chunk_of(key);
        self.meet(chunk)?;
        release_guard_at(&mut self.met[chunk], guard)
    }

    /// The value of a key, by a look. Refused as the `look` of a reader is. It leaves the holds as they were.
    #[inline(never)]
    pub fn look(&mut self, key: u64) -> Result<Value, Refusal>
        ensures does { GrownDoes (SideDoes chunked (FetchDoes chunked (key_within key)))
            self.old.growing self.old.number (chunk_of key) self.old.met.items result
            self.new.met.items }
        ensures stays { Stays self.old self.new }
    {
        let chunk = chunk_of(key);
        self.meet(chunk)?;
        look_at(&mut self.met[chunk], key)
    }

    /// The same into a room of the caller's, as a `Value`. A refusal leaves the room as it was.
    #[inline(never)]
    pub fn look_into<M: Room>(&mut self, key: u64, room: &mut M) -> Result<(), Refusal>
        ensures does { FillsRoom M.takes (λ answer. GrownDoes (SideDoes chunked (FetchDoes chunked (key_within key)))
            self.old.growing self.old.number (chunk_of key) self.old.met.items answer
            self.new.met.items) room.old result room.new }
        ensures stays { Stays self.old self.new }
    {
        let chunk = chunk_of(key);
        self.meet(chunk)?;
        look_into_at(&mut self.met[chunk], key, room)
    }

    /// The value of a key, which this call removes, into a value of the caller's. A value of more than `most` words
    /// goes there too, but its key is not removed. Refused as a get is, and as `Gone` if another thread removed the key
    /// after the get.
    #[inline(never)]
    pub fn take_into(&mut self, key: u64, most: usize, value: &mut Value) -> Result<(), Refusal>
        ensures does { GrownDoes (SideDoes chunked (λ v answer w. TakeIntoDoes chunked (key_within key) most v answer
            value.new w))
            self.old.growing self.old.number (chunk_of key) self.old.met.items result
            self.new.met.items }
        ensures stays { Stays self.old self.new }
    {
        let chunk = chunk_of(key);
        self.meet(chunk)?;
        take_into_at(&mut self.met[chunk], key, most, value)
    }

    /// Removes a key: no later get finds it, and its value stays until the last hold goes. Refused as `BadKey` or
    /// `Gone`.
    #[inline(never)]
    pub fn remove(&mut self, key: u64) -> Result<(), Refusal>
        ensures does { GrownDoes (SideDoes chunked (RemoveDoes chunked (key_within key)))
            self.old.growing self.old.number (chunk_of key) self.old.met.items result
            self.new.met.items }
        ensures stays { Stays self.old self.new }
    {
        let chunk = chunk_of(key);
        self.meet(chunk)?;
        remove_at(&mut self.met[chunk], key)
    }
}
