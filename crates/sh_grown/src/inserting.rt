// How a caller inserts: over the chunks, and at last into a new one.
ghost use Rattle.std.specs.Prelude.{◌≡◌, ◌<◌, ◌≤◌, ◌-◌, ℕ, IfErr, IfOk, IfSome, MatchResult, None, Ok, OnErr, OnOk};
ghost use Rattle.std.specs.Prelude.{◌+◌, Err};
ghost use Rattle.std.specs.Prelude.{false, get_or, length, true};
ghost use Rattle.sh_chunk.specs.Chunks.{chunk_of};
ghost use Rattle.sh_grown.specs.Callers.{Meets, Stays, WhyWithout};
ghost use Rattle.sh_grown.specs.Collecting.{CollectsBelow};
ghost use Rattle.sh_grown.specs.Inserts.{InsertsInChunk, InsertTakesInChunk, CollectsInChunk, Inserts, TriesInsert};
ghost use Rattle.sh_grown.specs.Inserts.{AllBelowRefused, AllRefused, HasMet, InsertRefused, LeavesNone, MoveRefused};
ghost use Rattle.sh_grown.specs.Inserts.{OnRefused, OwnsNone, OwnsNowhere};
ghost use Rattle.sh_grown.specs.Keeping.{KeepsMembers};
ghost use Rattle.sh_grown.specs.Refusals.{ChunkRefused, OwnsThere, RangeRefused, RefusedIn};
ghost use Rattle.sh_grown.specs.Steps.{TakesEach, TakesIn, TakesInAll, chunk_most, steps_of};

use crate::caller::Caller;
use crate::chunk_member::{collect_at, insert_at, meet, move_to, shards_at};
use crate::members::put_met;
use crate::tried::{Tried, tried_after, tried_by};
use sh_value::{Refusal, Value};
use std::alloc::Global;

impl Caller {
    /// Stores a value under a new key, and returns the key.
    ///
    /// It tries the chunk of its last insert, and then each chunk in which it owns a shard. Then it collects in the
    /// chunk of its last insert, and tries that again. Then it walks over shards: round a chunk, and over each later
    /// one that is open. It begins behind the shard in which the last walk of any caller found room for a value of the
    /// same class. At last it walks over each chunk, from the first one on, and collects in each shard before it tries
    /// that. So values of another length may be stored where all others were removed. It opens a chunk only after
    /// it was refused each shard of each chunk below. A walk leaves the shard that the caller owns in a chunk.
    ///
    /// Refused as `Full` or `NoShard` only if the heap may have no more chunks, and this call was refused each shard.
    /// `NoShard`: each has another owner, so the chunks have too few shards for those that insert. `Full`: the caller
    /// owned one, which had no room after a collect, or in which another caller's free is yet to end.
    ///
    /// Refused as `Memory` if memory was refused to a shard, an adoption or a new chunk. `Taken` comes if the caller's
    /// pass is not in a chunk's pool, since it was given back there while it owned a shard. Then too, and if a new
    /// chunk got no memory, this call was refused each shard of each chunk below. A refused insert adds nothing to the
    /// caller's logs, and leaves its holds as they were.
    ///
    /// In each chunk it takes at most the steps of three inserts and a collect there. For each shard of the chunk it
    /// takes at most those of two leaves, two adoptions, two collects and two inserts besides.
    pub fn insert(&mut self, alloc: Global, value: &Value) -> Result<u64, Refusal>
        ensures inserts { Inserts (length self.old.growing.cells.items) value.now self.old.met.items result
            self.new.met.items }
        ensures steps { TakesInAll (chunk_most (length value.now)) self.old self.new }
        ensures stays { Stays self.old self.new }
    {
        let owned = match self.try_open(alloc, value)? {
            Tried::Stored(key) => return Ok(key),
            Tried::Refused(owned) => owned,
        };
        match tried_after(owned, self.try_all(alloc, value))? {
            Tried::Stored(key) => Ok(key),
            Tried::Refused(true) => Err(Refusal::Full),
            Tried::Refused(false) => Err(Refusal::NoShard),
        }
    }

    /// Stores a value in the shard that it owns in this chunk, and returns the key. Refused as `NoShard` if it owns
    /// none there, and otherwise as `Full` or `Memory`.
    pub fn insert_in(&mut self, chunk: u8, value: &Value) -> Result<u64, Refusal>
        ensures inserts { InsertsInChunk value.now chunk self.old.met.items result self.new.met.items }
        ensures bounded { InsertTakesInChunk value.now chunk self.old.met.items self.new.met.items }
        ensures steps { TakesIn chunk (λ shards. steps_of 1 0 0 (length value.now)) self.old self.new }
        ensures chunk { IfOk result (λ key. chunk_of key ≡ chunk) }
        ensures keeps { OnErr result (KeepsMembers self.old.met.items self.new.met.items) }
        ensures leaves { LeavesNone self.old.met.items self.new.met.items }
        ensures stays { Stays self.old self.new }
    {
        if !self.has_met(chunk as usize) {
            return Err(Refusal::NoShard);
        }
        insert_at(&mut self.met[chunk as usize], chunk, value)
    }

    /// Collects what others freed in the shard that it owns in this chunk. Refused as `NoShard` if it owns none there.
    /// The caller's logs and holds stay as they were.
    pub fn collect_in(&mut self, chunk: u8) -> Result<(), Refusal>
        ensures collects { CollectsInChunk chunk self.old.met.items result self.new.met.items }
        ensures steps { TakesIn chunk (λ shards. steps_of 0 1 0 0) self.old self.new }
        ensures keeps { KeepsMembers self.old.met.items self.new.met.items }
        ensures stays { Stays self.old self.new }
    {
        if !self.has_met(chunk as usize) {
            return Err(Refusal::NoShard);
        }
        collect_at(&mut self.met[chunk as usize])
    }

    /// Collects what others freed in each shard that it owns. The caller's logs and holds stay as they were.
    #[tactic(auto, using(crate::proofs::Keeping::keeps_then, crate::proofs::Collecting::collects_more))]
    pub fn collect(&mut self)
        ensures collects { CollectsBelow (length self.old.growing.cells.items) self.old.met.items self.new.met.items }
        ensures keeps { KeepsMembers self.old.met.items self.new.met.items }
        ensures stays { Stays self.old self.new }
    {
        for number in 0..self.growing.chunks_allowed() {
            // Refused if it owns no shard there: then there is nothing to collect.
            self.collect_in(number as u8).ok();
        }
    }

    // Stores a value in the shard that it owns in this chunk, which is then the first to be tried.
    fn try_in(&mut self, chunk: u8, value: &Value) -> Result<Tried, Refusal>
        ensures tries { TriesInsert value.now self.old.met.items result self.new.met.items }
        ensures refused { OnRefused result
            (λ owned. InsertRefused value.now chunk self.old.met.items self.new.met.items) }
        ensures none { OnRefused result (λ owned. owned ≡ false → OwnsNone (get_or self.old.met.items chunk None)) }
        ensures leaves { LeavesNone self.old.met.items self.new.met.items }
        ensures steps { TakesIn chunk (λ shards. steps_of 1 0 0 (length value.now)) self.old self.new }
        ensures stays { Stays self.old self.new }
    {
        match self.insert_in(chunk, value) {
            Ok(key) => {
                self.front = chunk;
                Ok(Tried::Stored(key))
            }
            Err(why) => tried_by(why),
        }
    }

    // The same in the shards that it owns. If they have no room, it collects in the chunk of its last insert.
    fn try_owned_shards(&mut self, value: &Value) -> Result<Tried, Refusal>
        ensures tries { TriesInsert value.now self.old.met.items result self.new.met.items }
        ensures none { OnRefused result (λ owned. owned ≡ false
            → OwnsNowhere (length self.old.growing.cells.items) self.old.met.items) }
        ensures steps { TakesEach (λ shards. steps_of 3 1 0 (length value.now)) self.old self.new }
        ensures stays { Stays self.old self.new }
    {
        let front = self.try_in(self.front, value)?;
        let Tried::Refused(first) = front else {
            return Ok(front);
        };
        let own = tried_after(first, self.try_own(value))?;
        let Tried::Refused(owned) = own else {
            return Ok(own);
        };
        tried_after(owned, self.try_collected(self.front, value))
    }

    // Stores a value in the shard that it owns in this chunk, after a collect there.
    #[inline(never)]
    fn try_collected(&mut self, chunk: u8, value: &Value) -> Result<Tried, Refusal>
        ensures tries { TriesInsert value.now self.old.met.items result self.new.met.items }
        ensures refused { OnRefused result (λ owned. (shard : ℕ)
            → OwnsThere shard (get_or self.old.met.items chunk None)
            → RefusedIn owned value.now chunk shard self.old.met.items self.new.met.items) }
        ensures steps { TakesIn chunk (λ shards. steps_of 1 1 0 (length value.now)) self.old self.new }
        ensures stays { Stays self.old self.new }
    {
        if self.collect_in(chunk).is_err() {
            return Ok(Tried::Refused(false));
        }
        self.try_in(chunk, value)
    }

    // Stores a value in the first chunk in which it owns a shard with room.
    #[inline(never)]
    fn try_own(&mut self, value: &Value) -> Result<Tried, Refusal>
        ensures tries { TriesInsert value.now self.old.met.items result self.new.met.items }
        ensures none { OnRefused result (λ owned. owned ≡ false
            → OwnsNowhere (length self.old.growing.cells.items) self.old.met.items) }
        ensures steps { TakesEach (λ shards. steps_of 1 0 0 (length value.now)) self.old self.new }
        ensures stays { Stays self.old self.new }
    {
        let mut owned = false;
        for number in 0..self.reach() {
            let tried = tried_after(owned, self.try_in(number as u8, value))?;
            let Tried::Refused(so_far) = tried else {
                return Ok(tried);
            };
            owned = so_far;
        }
        Ok(Tried::Refused(owned))
    }

    // How many chunks have those that it has met, from the first one on.
    fn reach(&self) -> usize
        ensures few { result ≤ 256 }
        ensures none { (chunk : ℕ) → chunk < length self.now.growing.cells.items → result ≤ chunk
            → get_or self.now.met.items chunk None ≡ None }
    {
        self.met.len().min(self.growing.chunks_allowed())
    }

    // The same in the shards that it owns, and then in the others of the chunks that are open, from that of the last
    // walk on.
    fn try_open(&mut self, alloc: Global, value: &Value) -> Result<Tried, Refusal>
        ensures tries { TriesInsert value.now self.old.met.items result self.new.met.items }
        ensures none { OnRefused result (λ owned. owned ≡ false
            → OwnsNowhere (length self.old.growing.cells.items) self.old.met.items) }
        ensures steps { TakesEach (λ shards. steps_of (3 + shards) (1 + shards) shards (length value.now)) self.old
            self.new }
        ensures stays { Stays self.old self.new }
    {
        let own = self.try_owned_shards(value)?;
        let Tried::Refused(owned) = own else {
            return Ok(own);
        };
        tried_after(owned, self.try_later(alloc, value))
    }

    // The same in the first shard with room that it can own, of the chunks from that of the class's last walk on, up to
    // the first one that is not open.
    #[cold]
    #[inline(never)]
    fn try_later(&mut self, alloc: Global, value: &Value) -> Result<Tried, Refusal>
        ensures tries { TriesInsert value.now self.old.met.items result self.new.met.items }
        ensures steps { TakesEach (λ shards. steps_of shards shards shards (length value.now)) self.old self.new }
        ensures stays { Stays self.old self.new }
    {
        let mut owned = false;
        for number in self.first_chunk(value) as usize..self.growing.chunks_allowed() {
            let chunk = number as u8;
            let Ok(()) = self.meet(chunk as usize) else {
                return Ok(Tried::Refused(owned));
            };
            let tried = tried_after(owned, self.try_shards(alloc, chunk, value, false))?;
            let Tried::Refused(so_far) = tried else {
                return Ok(tried);
            };
            owned = so_far;
        }
        Ok(Tried::Refused(owned))
    }

    // The same in the first chunk that has room after a collect in its shards, which is opened if it is not open.
    // Refused as `Memory` or `Taken`.
    #[cold]
    #[inline(never)]
    fn try_all(&mut self, alloc: Global, value: &Value) -> Result<Tried, Refusal>
        ensures tries { IfOk result (λ tried. TriesInsert value.now self.old.met.items (Ok tried) self.new.met.items) }
        ensures err { IfErr result (λ why. WhyWithout why × Inserts (length self.old.growing.cells.items) value.now
            self.old.met.items (Err why) self.new.met.items) }
        ensures refused { OnRefused result (λ owned. AllRefused owned (length self.old.growing.cells.items) value.now
            self.old.met.items self.new.met.items) }
        ensures steps { TakesEach (λ shards. steps_of shards shards shards (length value.now)) self.old self.new }
        ensures stays { Stays self.old self.new }
    {
        let mut owned = false;
        for number in 0..self.growing.chunks_allowed() {
            let chunk = number as u8;
            self.meet_opened(alloc, chunk)?;
            let tried = tried_after(owned, self.try_shards(alloc, chunk, value, true))?;
            let Tried::Refused(so_far) = tried else {
                return Ok(tried);
            };
            owned = so_far;
        }
        Ok(Tried::Refused(owned))
    }

    // Stores a value in the first shard of a chunk that it can own and that has room, if `collects` after a collect in
    // the shard. Its next walk begins behind that shard.
    #[tactic(auto, using(crate::proofs::Walked::has_met_then))]
    fn try_shards(
        &mut self,
        alloc: Global,
        chunk: u8,
        value: &Value,
        collects: bool,
    ) -> Result<Tried, Refusal>
        requires { HasMet self.old.met.items chunk }
        ensures tries { TriesInsert value.now self.old.met.items result self.new.met.items }
        ensures refused { collects ≡ true → OnRefused result
            (λ owned. ChunkRefused owned value.now chunk self.old.met.items self.new.met.items) }
        ensures steps { TakesIn chunk (λ shards. steps_of shards shards shards (length value.now)) self.old self.new }
        ensures stays { Stays self.old self.new }
    {
        let shards = self.shards_in(chunk);
        let first = self.first_shard(chunk, shards, value);
        let behind = self.try_range(alloc, chunk, first, shards, value, collects)?;
        let Tried::Refused(owned) = behind else {
            return Ok(behind);
        };
        tried_after(
            owned,
            self.try_range(alloc, chunk, 0, first, value, collects),
        )
    }

    // The same in the shards from this one on, below another.
    fn try_range(
        &mut self,
        alloc: Global,
        chunk: u8,
        from: usize,
        to: usize,
        value: &Value,
        collects: bool,
    ) -> Result<Tried, Refusal>
        requires { HasMet self.old.met.items chunk }
        ensures tries { TriesInsert value.now self.old.met.items result self.new.met.items }
        ensures refused { collects ≡ true → OnRefused result
            (λ owned. RangeRefused owned value.now chunk from to self.old.met.items self.new.met.items) }
        ensures steps { TakesIn chunk (λ shards. steps_of (to - from) (to - from) (to - from) (length value.now))
            self.old self.new }
        ensures stays { Stays self.old self.new }
    {
        let mut owned = false;
        for shard in from..to {
            let tried = tried_after(owned, self.try_shard(alloc, chunk, shard, value, collects))?;
            let Tried::Refused(so_far) = tried else {
                self.note_room(chunk, shard + 1, value);
                return Ok(tried);
            };
            owned = so_far;
        }
        Ok(Tried::Refused(owned))
    }

    // The same in this shard.
    fn try_shard(
        &mut self,
        alloc: Global,
        chunk: u8,
        shard: usize,
        value: &Value,
        collects: bool,
    ) -> Result<Tried, Refusal>
        requires { HasMet self.old.met.items chunk }
        ensures tries { TriesInsert value.now self.old.met.items result self.new.met.items }
        ensures refused { collects ≡ true → OnRefused result
            (λ owned. RefusedIn owned value.now chunk shard self.old.met.items self.new.met.items) }
        ensures steps { TakesIn chunk (λ shards. steps_of 1 1 1 (length value.now)) self.old self.new }
        ensures stays { Stays self.old self.new }
    {
        match self.move_in(alloc, chunk, shard) {
            Ok(()) if collects => self.try_collected(chunk, value),
            Ok(()) => self.try_in(chunk, value),
            Err(why) => tried_by(why),
        }
    }

    // Owns this shard of a chunk that it has met, for which it leaves the one that it owned there.
    fn move_in(&mut self, alloc: Global, chunk: u8, shard: usize) -> Result<(), Refusal>
        requires { HasMet self.old.met.items chunk }
        ensures owns { OnOk result (OwnsThere shard (get_or self.new.met.items chunk None)) }
        ensures refused { IfErr result (λ why. MoveRefused shard why (get_or self.old.met.items chunk None)
            (get_or self.new.met.items chunk None)) }
        ensures steps { TakesIn chunk (λ shards. steps_of 0 0 1 0) self.old self.new }
        ensures keeps { KeepsMembers self.old.met.items self.new.met.items }
        ensures stays { Stays self.old self.new }
    {
        move_to(alloc, &mut self.met[chunk as usize], shard)
    }

    // Has a member in this chunk, which is opened if it is not: each shard of each chunk below was refused. Refused as
    // `Memory`, and as `Taken` if its pass is not in the chunk's pool.
    #[cold]
    #[inline(never)]
    #[tactic(auto, using(crate::proofs::Meeting::met_there, crate::proofs::Meeting::met_kept))]
    fn meet_opened(&mut self, alloc: Global, chunk: u8) -> Result<(), Refusal>
        requires { AllBelowRefused chunk self.old.met.items }
        ensures met { OnOk result (HasMet self.new.met.items chunk) }
        ensures meets { MatchResult result
            (λ _. Meets self.old.growing self.old.number chunk self.old.met.items self.new.met.items)
            (λ _. (get_or self.old.met.items chunk None ≡ None) × (self.new.met.items ≡ self.old.met.items)) }
        ensures err { IfErr result WhyWithout }
        ensures keeps { KeepsMembers self.old.met.items self.new.met.items }
        ensures stays { Stays self.old self.new }
    {
        let number = chunk as usize;
        if self.has_met(number) {
            return Ok(());
        }
        if self.met.capacity() <= number {
            return Err(Refusal::Taken);
        }
        let Some(mut note) = self.growing.note(number) else {
            return Err(Refusal::Taken);
        };
        let was_open = self.growing.heap().is_open(number);
        let share = match self.growing.opened(alloc, chunk, &mut note) {
            Ok(share) => share,
            Err(Refusal::Memory) => return Err(Refusal::Memory),
            Err(_) => return Err(Refusal::Taken),
        };
        self.growing.heap().note_opened(chunk, was_open);
        let Some(met) = meet(share, note, self.number) else {
            return Err(Refusal::Taken);
        };
        put_met(&mut self.met, number, met);
        Ok(())
    }

    // How many shards a chunk has that it has met, and otherwise 0.
    fn shards_in(&self, chunk: u8) -> usize
        ensures { IfSome (get_or self.now.met.items chunk None) (λ met. result ≡ met.shards) }
    {
        match self.met.get(chunk as usize) {
            Some(place) => shards_at(place) as usize,
            None => 0,
        }
    }
}
