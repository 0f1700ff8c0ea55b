//! Callers of a growing heap.
ghost use Rattle.std.specs.Prelude.{◌≡◌, ℕ, ◌<◌, IfErr, IfOk, IfSome, IsSome, MatchResult, None, OnOk, get_or};
ghost use Rattle.std.specs.Prelude.{length, slice_get};
ghost use Rattle.std.proofs.Props.{props};
ghost use Rattle.once_cell.specs.Once.{cell_name};
ghost use Rattle.std.specs.Option.{ForSome};
ghost use Rattle.sh_value.specs.declared.refusal.Refusal.TheVariants.{BadKey, Memory};
ghost use Rattle.sh_grown.specs.ChunkShapes.{IsShaped};
ghost use Rattle.sh_grown.specs.Growing.{shape_in};
ghost use Rattle.sh_grown.specs.Keeping.{KeepsMembers};
ghost use Rattle.sh_grown.specs.OfChunks.{AreOfChunks};

use crate::chunk_member::{ChunkMember, meet, meet_first};
use crate::growing::Growing;
use crate::members::{no_members, put_met};
use crate::share::GrowingShare;
use once_cell::race::Note;
use sh_chunk::Chunked;
use sh_pool::Share;
use sh_value::Refusal;
use std::alloc::Global;

/// A caller of a growing heap, with a number from 0 to 63. In each chunk it has the pass of that number, from the first
/// call that needs it. It has a share of the heap, so it borrows nothing.
///
/// It has 16 holds in each chunk, and may own a shard in each. It ends by `end`, which gives its passes back. A caller
/// that is dropped is lost: its number is never claimed again, and its holds and shards stay as they are.
#[derive(Drop)]
pub struct Caller {
    pub(crate) growing: GrowingShare,
    pub(crate) number: usize,
    // The chunk in which its last insert found room: the next one looks there first.
    pub(crate) front: u8,
    // Its member in each chunk that it has met, up to the last one of these. There is room for all chunks.
    pub(crate) met: Vec<Option<ChunkMember>>,
    ghost of_chunks: { AreOfChunks growing met.items } by { Prim.hlevel props },
}

impl GrowingShare {
    ghost use Rattle.sh_grown.specs.Callers.{IsClaimed, WhyWithout};

    /// A caller with the first number that is not claimed. It has the pass of that number in the first chunk, and a
    /// share of the heap.
    ///
    /// The room for its members in all chunks is taken here, so that no call on a key takes memory. Refused as `Memory`
    /// before a pass is taken, and as `Taken` if it finds no pass of the first chunk in its pool.
    ///
    /// ```text
    /// let growing = GrowingShare::open(alloc, 64, 256)?;
    /// let mut caller = growing.claim(alloc)?;
    /// let key = caller.insert(alloc, &Value::from(7))?;
    /// let value = caller.look(key)?;
    /// ```
    #[tactic(auto, using(crate::proofs::Claims::claimed_alike, crate::proofs::OfChunks::claims_of))]
    pub fn claim(&self, alloc: Global) -> Result<Caller, Refusal>
        ensures growing { IfOk result (λ caller. caller.growing ≡ self.now) }
        ensures claimed { IfOk result (λ caller. IsClaimed self.now caller.number caller.met.items) }
        ensures err { IfErr result WhyWithout }
    {
        let growing = self.share()?;
        let (number, met) = self.heap().first_members(alloc)?;
        Ok(Caller {
            growing,
            number,
            front: 0,
            met,
        })
    }
}

impl Growing {
    ghost use Rattle.sh_grown.specs.Callers.{IsClaimed, IsNewcomer, WhyWithout};

    // What a caller begins with: its number, and its members, of which only the one in the first chunk is there.
    #[tactic(auto, using(crate::proofs::Claims::first_goes))]
    fn first_members(&self, alloc: Global) -> Result<(usize, Vec<Option<ChunkMember>>), Refusal>
        ensures claimed { IfOk result (λ begun. IsClaimed self.now begun.0 begun.1.items) }
        ensures err { IfErr result WhyWithout }
    {
        let mut met = no_members(alloc, self.chunks_allowed())?;
        let Some(first) = self.first_member() else {
            return Err(Refusal::Taken);
        };
        let number = first.pool_slot.number();
        met[0] = Some(first);
        Ok((number, met))
    }

    // The first pass that is in the pool of the first chunk. `None` if none is.
    fn first_member(&self) -> Option<ChunkMember>
        ensures { IfSome result (λ first. IsNewcomer self.now first.pool_slot 0 first) }
    {
        let mut note = self.note(0)?;
        let share = self.seen(0, &mut note)?;
        meet_first(share, note)
    }
}

impl Caller {
    ghost use Rattle.sh_grown.specs.Callers.{Meets, Stays, WhyUnmet};

    /// Its number among the callers of its heap, from 0 to 63.
    pub fn number(&self) -> usize
        ensures { result ≡ self.now.number }
    {
        self.number
    }

    // Has a member in this chunk, if the chunk is open. Refused as `BadKey` if there is no such chunk or one load finds
    // it not open, and as `Taken` if its pass is not in the chunk's pool.
    #[inline(always)]
    pub(crate) fn meet(&mut self, chunk: usize) -> Result<(), Refusal>
        ensures met { MatchResult result
            (λ _. Meets self.old.growing self.old.number chunk self.old.met.items self.new.met.items)
            (λ why. WhyUnmet why × (get_or self.old.met.items chunk None ≡ None)
            × (self.new.met.items ≡ self.old.met.items)) }
        ensures there { OnOk result ((chunk < length self.new.met.items)
            × IsSome (get_or self.new.met.items chunk None)) }
        ensures keeps { KeepsMembers self.old.met.items self.new.met.items }
        ensures stays { Stays self.old self.new }
    {
        if self.has_met(chunk) {
            return Ok(());
        }
        self.meet_late(chunk)
    }

    // The same of a chunk that it has not met, apart from it, since a chunk is seldom met: what a meeting makes takes a
    // kilobyte of stack.
    #[cold]
    #[inline(never)]
    fn meet_late(&mut self, chunk: usize) -> Result<(), Refusal>
        requires { get_or self.old.met.items chunk None ≡ None }
        ensures met { MatchResult result
            (λ _. Meets self.old.growing self.old.number chunk self.old.met.items self.new.met.items)
            (λ why. WhyUnmet why × (get_or self.old.met.items chunk None ≡ None)
            × (self.new.met.items ≡ self.old.met.items)) }
        ensures there { OnOk result ((chunk < length self.new.met.items)
            × IsSome (get_or self.new.met.items chunk None)) }
        ensures keeps { KeepsMembers self.old.met.items self.new.met.items }
        ensures stays { Stays self.old self.new }
    {
        let Some(note) = self.growing.note(chunk) else {
            return Err(Refusal::BadKey);
        };
        self.meet_by(chunk, note)
    }

    // The same as `meet`, by a note of the chunk's cell. If the note knows a chunk of this shape, it is found open.
    #[tactic(auto, using(crate::proofs::Meeting::met_there, crate::proofs::Meeting::met_kept))]
    pub(crate) fn meet_by(
        &mut self,
        chunk: usize,
        mut note: Note<Share<Chunked>>,
    ) -> Result<(), Refusal>
        requires { IfSome (slice_get self.old.growing.cells.items chunk) (λ c. note.cell ≡ cell_name c) }
        ensures met { MatchResult result
            (λ _. Meets self.old.growing self.old.number chunk self.old.met.items self.new.met.items)
            (λ why. WhyUnmet why × (get_or self.old.met.items chunk None ≡ None)
            × (self.new.met.items ≡ self.old.met.items)) }
        ensures known { IfErr result (λ why. why ≡ BadKey → chunk < length self.old.growing.cells.items
            → ForSome note.known (λ heap. ¬ IsShaped heap.shape (shape_in self.old.growing chunk))) }
        ensures there { OnOk result ((chunk < length self.new.met.items)
            × IsSome (get_or self.new.met.items chunk None)) }
        ensures keeps { KeepsMembers self.old.met.items self.new.met.items }
        ensures stays { Stays self.old self.new }
    {
        if self.has_met(chunk) {
            return Ok(());
        }
        let Some(share) = self.growing.seen(chunk, &mut note) else {
            return Err(Refusal::BadKey);
        };
        if self.met.capacity() <= chunk {
            return Err(Refusal::Taken);
        }
        let Some(met) = meet(share, note, self.number) else {
            return Err(Refusal::Taken);
        };
        put_met(&mut self.met, chunk, met);
        Ok(())
    }
}
