//! Walks of a caller over the live keys of all chunks, while others insert and remove.
ghost use Rattle.std.specs.Prelude.{◌≡◌, ◌^◌, ◌<◌, ◌≤◌, IsSome, Ok};
ghost use Rattle.sh_chunk.specs.Chunks.{chunk_of, chunked};
ghost use Rattle.sh_member.specs.Sides.{SideDoes};
ghost use Rattle.sh_member.specs.Walks.{PutsIfLive, PutsLive};
ghost use Rattle.sh_grown.specs.Callers.{MemberDoes, Stays};
ghost use Rattle.sh_grown.specs.Walks.{HeldIn, LiveIn, LooksIn, Walks, chunks_up_to, place_in};

use crate::caller::Caller;
use crate::calls::chunk_of;
use crate::chunk_member::ChunkMember;
use sh_chunk::{Chunked, chunked_keys_fit};
use sh_member::{NextHeld, NextLive};
use sh_pass::NextKey;
use sh_value::{Hold, Refusal, Value};

// The greatest number of a place within a chunk. A chunk has far fewer places.
const LAST_PLACE: u64 = (1 << 56) - 1;

// Where in this chunk a place is: at its first place if it is in an earlier chunk, at its last if it is in a later one.
fn place_in(place: u64, chunk: u8) -> u64
    ensures is { result ≡ place_in place chunk }
    ensures few { result < 2 ^ 56 }
{
    place
        .saturating_sub(Chunked::chunk_key(chunk, 0))
        .min(LAST_PLACE)
}

fn next_live_at(
    place: &mut Option<ChunkMember>,
    from: u64,
    before: u64,
    chunk: u8,
    value: &mut Value,
) -> Option<NextKey>
    requires { IsSome place.old }
    ensures { PutsLive (λ met. MemberDoes (SideDoes chunked (LiveIn from before chunk)) place.old (Ok met) place.new)
        value.old result value.new }
{
    match place {
        Some(met) => {
            let (from, before) = (place_in(from, chunk), place_in(before, chunk));
            let NextKey { key, behind } = met.member.next_live_into(from, before, value)?;
            chunked_keys_fit();
            Some(NextKey {
                key: Chunked::chunk_key(chunk, key),
                behind: Chunked::chunk_key(chunk, behind),
            })
        }
        None => unreachable!(),
    }
}

fn next_held_at(
    place: &mut Option<ChunkMember>,
    from: u64,
    before: u64,
    chunk: u8,
) -> Result<Option<NextHeld>, Refusal>
    requires { IsSome place.old }
    ensures { MemberDoes (SideDoes chunked (HeldIn from before chunk)) place.old result place.new }
{
    match place {
        Some(met) => {
            let (from, before) = (place_in(from, chunk), place_in(before, chunk));
            let Some(next) = met.member.next_held(from, before)? else {
                return Ok(None);
            };
            chunked_keys_fit();
            let key = Chunked::chunk_key(chunk, next.key);
            Ok(Some(NextHeld {
                key,
                hold: next.hold.map(|_hold| Hold { key }),
                behind: Chunked::chunk_key(chunk, next.behind),
            }))
        }
        None => unreachable!(),
    }
}

impl Caller {
    /// The first live key at a place from `from` on and before `before`, or `None`. Its value replaces the caller's,
    /// which is as it was if there is no key. The place of a slot in its chunk has the number of the chunk in bits 56 to
    /// 63, as a key has. So a walk goes over the chunks in the order of their numbers. It begins at 0, and there is no
    /// key from `u64::MAX` on.
    ///
    /// A walk finds the live keys in the order of their places, each place once. A key that is live from its begin to
    /// its end is found. One that is inserted or removed meanwhile is found or not, and so is one of a chunk that opens
    /// meanwhile. A key that is found was live at that moment. A key whose insert the caller did or heard of by a
    /// receipt is found, unless it was removed.
    ///
    /// ```text
    /// let mut value = Value::from(0);
    /// let mut place = 0;
    /// while let Some(next) = caller.next_live_into(place, u64::MAX, &mut value)? {
    ///     place = next.behind;    // next.key was live, with this value
    /// }
    /// ```
    ///
    /// It meets each chunk that it finds open, as a call on a key does, and takes no memory. In a chunk it takes the
    /// loads of the `next_live_into` of a reader, and leaves no hold. Refused as `Taken` if it has not met a chunk and
    /// its pass is not in the pool there, since that was given back while it owned a shard.
    pub fn next_live_into(
        &mut self,
        from: u64,
        before: u64,
        value: &mut Value,
    ) -> Result<Option<NextKey>, Refusal>
        ensures does { PutsIfLive (λ met. Walks (LiveIn from before) self.old.growing self.old.number (chunk_of from)
            (chunks_up_to self.old.growing before) self.old.met.items met self.new.met.items) value.old result
            value.new }
        ensures stays { Stays self.old self.new }
    {
        for chunk in chunk_of(from)..self.chunks_up_to(before) {
            if let Some(next) = self.next_live_in(from, before, chunk as u8, value)? {
                return Ok(Some(next));
            }
        }
        Ok(None)
    }

    /// The same with the value of the key.
    pub fn next_live(&mut self, from: u64, before: u64) -> Result<Option<NextLive>, Refusal>
        ensures does { Walks (LiveIn from before) self.old.growing self.old.number (chunk_of from)
            (chunks_up_to self.old.growing before) self.old.met.items result self.new.met.items }
        ensures stays { Stays self.old self.new }
    {
        let mut value = Value::from(0);
        let Some(NextKey { key, behind }) = self.next_live_into(from, before, &mut value)? else {
            return Ok(None);
        };
        Ok(Some(NextLive { key, value, behind }))
    }

    /// The same with a hold on the key, in place of its value. There is no hold if the key has as many as it may have.
    ///
    /// Refused as `HoldsFull` too, if a key is found in a chunk in which the caller has 16 holds. Then a call from the
    /// same place on, after a release there, goes on.
    pub fn next_held(&mut self, from: u64, before: u64) -> Result<Option<NextHeld>, Refusal>
        ensures does { Walks (HeldIn from before) self.old.growing self.old.number (chunk_of from)
            (chunks_up_to self.old.growing before) self.old.met.items result self.new.met.items }
        ensures stays { Stays self.old self.new }
    {
        for chunk in chunk_of(from)..self.chunks_up_to(before) {
            if let Some(next) = self.next_held_in(from, before, chunk as u8)? {
                return Ok(Some(next));
            }
        }
        Ok(None)
    }

    // How many chunks the heap may have up to that of this place.
    fn chunks_up_to(&self, place: u64) -> usize
        ensures count { result ≡ chunks_up_to self.now.growing place }
        ensures few { result ≤ 256 }
    {
        (chunk_of(place) + 1).min(self.growing.chunks_allowed())
    }

    // The same in this chunk alone. There is no key if the chunk is not found open.
    fn next_live_in(
        &mut self,
        from: u64,
        before: u64,
        chunk: u8,
        value: &mut Value,
    ) -> Result<Option<NextKey>, Refusal>
        ensures looks { PutsIfLive (λ met. LooksIn (LiveIn from before) self.old.growing self.old.number chunk
            self.old.met.items met self.new.met.items) value.old result value.new }
        ensures stays { Stays self.old self.new }
    {
        let number = chunk as usize;
        match self.meet(number) {
            Ok(()) => Ok(next_live_at(&mut self.met[number], from, before, chunk, value)),
            Err(Refusal::BadKey) => Ok(None),
            Err(why) => Err(why),
        }
    }

    fn next_held_in(
        &mut self,
        from: u64,
        before: u64,
        chunk: u8,
    ) -> Result<Option<NextHeld>, Refusal>
        ensures looks { LooksIn (HeldIn from before) self.old.growing self.old.number chunk self.old.met.items result
            self.new.met.items }
        ensures stays { Stays self.old self.new }
    {
        let number = chunk as usize;
        match self.meet(number) {
            Ok(()) => next_held_at(&mut self.met[number], from, before, chunk),
            Err(Refusal::BadKey) => Ok(None),
            Err(why) => Err(why),
        }
    }
}
