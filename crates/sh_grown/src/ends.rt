// The calls of a caller that say which key they ended: each is the call of its member in the key's chunk, and the key
// that ended is of that chunk too.
ghost use Rattle.std.specs.Prelude.{◌≡◌, ◌^◌, ◌<◌, IfOk, IfSome, IsSome};
ghost use Rattle.sh_chunk.specs.Chunks.{chunked, chunk_of};
ghost use Rattle.sh_member.specs.Sides.{SideDoes};
ghost use Rattle.sh_grown.specs.Callers.{MemberDoes, Stays};
ghost use Rattle.sh_grown.specs.Ended.{GetTellsIn, GrownTells, ReleaseTellsIn, RemoveTellsIn, ended_within, hold_on};

use crate::caller::Caller;
use crate::calls::chunk_of;
use crate::chunk_member::ChunkMember;
use sh_chunk::{Chunked, chunked_keys_fit};
use sh_pass::EndRoom;
use sh_value::{Hold, Refusal};

// The hold on the key with its chunk, for the hold of its member.
fn hold_on(key: u64, held: Result<Hold, Refusal>) -> Result<Hold, Refusal>
    ensures { result ≡ hold_on key held }
{
    held?;
    Ok(Hold { key })
}

// The key that ended with its chunk, for the key that the chunk's member said.
fn ended_in(chunk: u8, within: Option<u64>) -> Option<u64>
    requires { IfSome within (λ key. key < 2 ^ 56) }
    ensures within { ended_within result ≡ within }
    ensures chunk { IfSome result (λ key. chunk_of key ≡ chunk) }
{
    Some(Chunked::chunk_key(chunk, within?))
}

fn get_ended_at<M: EndRoom>(
    place: &mut Option<ChunkMember>,
    key: u64,
    room: &mut M,
) -> (Result<Hold, Refusal>, Option<u64>)
    requires { IsSome place.old }
    ensures does { MemberDoes (SideDoes chunked (λ v answer w. GetTellsIn M.asks M.takes key result.1 room.old v answer
        room.new w)) place.old result.0 place.new }
    ensures hold { IfOk result.0 (λ hold. hold.key ≡ key) }
{
    match place {
        Some(met) => {
            let (chunk, within) = Chunked::split(key);
            let (answer, ended) = met.member.get_ended(within, room);
            chunked_keys_fit();
            (hold_on(key, answer), ended_in(chunk, ended))
        }
        None => unreachable!(),
    }
}

fn remove_ended_at<M: EndRoom>(
    place: &mut Option<ChunkMember>,
    key: u64,
    room: &mut M,
) -> (Result<(), Refusal>, Option<u64>)
    requires { IsSome place.old }
    ensures { MemberDoes (SideDoes chunked (λ v answer w. RemoveTellsIn M.asks M.takes key result.1 room.old v answer
        room.new w)) place.old result.0 place.new }
{
    match place {
        Some(met) => {
            let (chunk, within) = Chunked::split(key);
            let (answer, ended) = met.member.remove_ended(within, room);
            chunked_keys_fit();
            (answer, ended_in(chunk, ended))
        }
        None => unreachable!(),
    }
}

fn release_ended_at<M: EndRoom>(
    place: &mut Option<ChunkMember>,
    hold: Hold,
    room: &mut M,
) -> (Result<(), Refusal>, Option<u64>)
    requires { IsSome place.old }
    ensures { MemberDoes (SideDoes chunked (λ v answer w. ReleaseTellsIn M.asks M.takes hold.key result.1 room.old v
        answer room.new w)) place.old result.0 place.new }
{
    match place {
        Some(met) => {
            let (chunk, key) = Chunked::split(hold.key);
            let (answer, ended) = met.member.release_ended(Hold { key }, room);
            chunked_keys_fit();
            (answer, ended_in(chunk, ended))
        }
        None => unreachable!(),
    }
}

impl Caller {
    /// `get`, and the key that it ended. Only a refused get ends one: as `Gone` or `Crowded`, it may be of another key
    /// of the same chunk.
    ///
    /// ```text
    /// let mut words = Value::empty();
    /// let (answer, ended) = caller.get_ended(key, &mut words);
    /// if ended.is_some() { /* nobody can read the value any more: `words` has it */ }
    /// ```
    ///
    /// The words of a key that ended go into the room, which otherwise stays as it was.
    #[inline(never)]
    pub fn get_ended<M: EndRoom>(
        &mut self,
        key: u64,
        room: &mut M,
    ) -> (Result<Hold, Refusal>, Option<u64>)
        ensures does { GrownTells (GetTellsIn M.asks M.takes key) self.old.growing self.old.number (chunk_of key)
            self.old.met.items room.old result room.new self.new.met.items }
        ensures hold { IfOk result.0 (λ hold. hold.key ≡ key) }
        ensures stays { Stays self.old self.new }
    {
        let chunk = chunk_of(key);
        if let Err(why) = self.meet(chunk) {
            return (Err(why), None);
        }
        get_ended_at(&mut self.met[chunk], key, room)
    }

    /// `remove`, and the key that it ended: its own, if nobody else is on it, or if it is refused one of another key of
    /// the same chunk.
    #[inline(never)]
    pub fn remove_ended<M: EndRoom>(
        &mut self,
        key: u64,
        room: &mut M,
    ) -> (Result<(), Refusal>, Option<u64>)
        ensures does { GrownTells (RemoveTellsIn M.asks M.takes key) self.old.growing self.old.number (chunk_of key)
            self.old.met.items room.old result room.new self.new.met.items }
        ensures stays { Stays self.old self.new }
    {
        let chunk = chunk_of(key);
        if let Err(why) = self.meet(chunk) {
            return (Err(why), None);
        }
        remove_ended_at(&mut self.met[chunk], key, room)
    }

    /// `release`, and the key that it ended: its own, if the key was removed and this was the last hold on it.
    #[inline(never)]
    pub fn release_ended<M: EndRoom>(
        &mut self,
        hold: Hold,
        room: &mut M,
    ) -> (Result<(), Refusal>, Option<u64>)
        ensures does { GrownTells (ReleaseTellsIn M.asks M.takes hold.key) self.old.growing self.old.number
            (chunk_of hold.key) self.old.met.items room.old result room.new self.new.met.items }
        ensures stays { Stays self.old self.new }
    {
        let chunk = chunk_of(hold.key);
        if let Err(why) = self.meet(chunk) {
            return (Err(why), None);
        }
        release_ended_at(&mut self.met[chunk], hold, room)
    }
}
