//! Receipts of a caller: what it did in each chunk happens before what another caller does that heeds the receipt.
ghost use Rattle.std.specs.Prelude.{◌≡◌, ◌≢◌, ℕ, MatchOption, MatchResult, None, Some, [], get_or, length};
ghost use Rattle.sh_value.specs.declared.refusal.Refusal.TheVariants.{Taken};
ghost use Rattle.sh_chunk.specs.Chunks.{chunked};
ghost use Rattle.sh_table.specs.Tales.{IsTale};
ghost use Rattle.sh_grown.specs.declared.receipts.ChunkReceipt.{ChunkReceipt};
ghost use Rattle.sh_grown.specs.Callers.{Stays};
ghost use Rattle.sh_grown.specs.OneMap.{IsOneMap, view_at};
ghost use Rattle.sh_grown.specs.Steps.{RestsThere};
ghost use Rattle.sh_grown.specs.Receipts.{AreReceiptsIn, CoversEach, CoversPlace, Heeds, HeedsAt, HeedsChunk};
ghost use Rattle.sh_grown.specs.Receipts.{IsReceiptAt, IsReceiptIn};

use crate::caller::Caller;
use crate::chunk_member::ChunkMember;
use arrayvec::ArrayVec;
use once_cell::race::Note;
use sh_chunk::{CHUNKS, Chunked};
use sh_pass::Receipt;
use sh_pool::Share;
use sh_value::Refusal;

/// What a receipt has of a chunk: the receipt of the caller's member there, and what the caller knows of the chunk's
/// cell. So a caller that heeds it finds the chunk open.
#[derive(Drop)]
pub struct ChunkReceipt {
    pub(crate) receipt: Receipt,
    pub(crate) note: Note<Share<Chunked>>,
}

/// A witness of what happened before. In each chunk that a caller has met, it covers all results of the caller until it
/// gave the receipt. It covers too what the caller had heard of others there.
///
/// `Caller::receipt` gives it, and another caller of the same growing heap heeds it. It may go to another thread in any
/// way. It stays true whatever other threads do, and dropping it loses nothing. It takes no memory: it has a byte for
/// each of 256 chunks.
#[derive(Drop)]
pub struct GrownReceipt {
    // The receipt of each chunk, by the chunk's number.
    pub(crate) chunks: ArrayVec<Option<ChunkReceipt>, CHUNKS>,
}

impl GrownReceipt {
    // A receipt of no chunk.
    pub(crate) fn none() -> GrownReceipt
        ensures { result.chunks.items ≡ [] }
    {
        GrownReceipt {
            chunks: ArrayVec::new(),
        }
    }

    // What it knows of the cell of this chunk, if it covers the chunk.
    pub(crate) fn note(&mut self, chunk: usize) -> Option<Note<Share<Chunked>>>
        ensures covers { MatchOption result (get_or self.old.chunks.items chunk None ≡ None) (λ note.
            (given : ChunkReceipt) × (get_or self.old.chunks.items chunk None ≡ Some given) × (note ≡ given.note)) }
        ensures same { self.new.chunks.items ≡ self.old.chunks.items }
    {
        match self.chunks.get_mut(chunk) {
            Some(given) => note_at(given),
            None => None,
        }
    }

    // Takes the receipt of this chunk out, if there is one.
    fn take(&mut self, chunk: usize) -> Option<ChunkReceipt>
        ensures given { result ≡ get_or self.old.chunks.items chunk None }
        ensures rest { (other : ℕ) → other ≢ chunk
            → get_or self.new.chunks.items other None ≡ get_or self.old.chunks.items other None }
        ensures count { length self.new.chunks.items ≡ length self.old.chunks.items }
    {
        self.chunks.get_mut(chunk)?.take()
    }
}

// What the receipt of a chunk knows of the chunk's cell, if there is one.
fn note_at(given: &mut Option<ChunkReceipt>) -> Option<Note<Share<Chunked>>>
    ensures covers { MatchOption result (given.old ≡ None) (λ note.
        (one : ChunkReceipt) × (given.old ≡ Some one) × (note ≡ one.note)) }
    ensures same { given.new ≡ given.old }
{
    match given {
        Some(one) => Some(one.note.again()),
        None => None,
    }
}

// A receipt of what the member of a chunk did, if the caller has met the chunk.
fn receipt_at(place: &mut Option<ChunkMember>) -> Option<ChunkReceipt>
    ensures same { place.new ≡ place.old }
    ensures rests { RestsThere place.old }
    ensures covers { CoversPlace place.old result }
{
    match place {
        Some(met) => {
            // Between its calls all that a member knows is true.
            let _known = met.member.shape();
            let receipt = met.member.receipt();
            let note = met.note.again();
            Some(ChunkReceipt { receipt, note })
        }
        None => None,
    }
}

// The member of the receipt's chunk heeds it. The notes show that both are of one heap.
#[tactic(auto, using(crate::proofs::Heeding::of_one_heap))]
fn heed_at(place: &mut Option<ChunkMember>, given: ChunkReceipt)
    requires { IsReceiptAt given place.old }
    ensures { HeedsAt given place.old place.new }
{
    match place {
        Some(met) => {
            let ChunkReceipt { receipt, note } = given;
            met.note.compare(note);
            met.member.heed(receipt);
        }
        None => unreachable!(),
    }
}

impl Caller {
    /// A receipt of all its results in each chunk that it has met, and of all that it heard of others there: one load
    /// for each of these chunks. It takes no memory.
    ///
    /// What the caller knows in all these chunks is one map: one legal history, on keys with their chunk's number, has
    /// it.
    ///
    /// ```text
    /// let key = caller.insert(alloc, &value)?;
    /// let receipt = caller.receipt();            // both are sent to another thread
    /// other.heed(receipt)?;
    /// let value = other.look(key)?;              // Gone only if the key was removed
    /// ```
    pub fn receipt(&mut self) -> GrownReceipt
        ensures covers { CoversEach (length self.old.growing.cells.items) self.old.met.items result.chunks.items }
        ensures of { AreReceiptsIn self.old.growing result.chunks.items }
        ensures one_map { IsOneMap (IsTale chunked) self.old.growing.passes (length self.old.growing.cells.items)
            (λ chunk. view_at (get_or self.old.met.items chunk None)) }
        ensures same { self.new.met.items ≡ self.old.met.items }
        ensures stays { Stays self.old self.new }
    {
        let mut chunks = ArrayVec::new();
        for chunk in 0..self.growing.chunks_allowed() {
            chunks.push(self.receipt_in(chunk));
        }
        GrownReceipt { chunks }
    }

    /// Everything that the receipt covers happens before all its later results: two loads for each chunk of the
    /// receipt. The receipt has to be of the same growing heap.
    ///
    /// It meets the chunks of the receipt that it has not met, so a get of a key that came with the receipt finds the
    /// key's chunk open. In all other chunks the caller is as it was. `Taken` comes if its pass is not in the pool of a
    /// chunk that it had not met, since it was given back there while it owned a shard. Then it has heeded the receipts
    /// of the chunks before that one.
    pub fn heed(&mut self, receipt: GrownReceipt) -> Result<(), Refusal>
        requires { AreReceiptsIn self.old.growing receipt.chunks.items }
        ensures heeds { Heeds self.old.growing self.old.number receipt.chunks.items self.old.met.items result
            self.new.met.items }
        ensures stays { Stays self.old self.new }
    {
        let mut receipt = receipt;
        for chunk in 0..receipt.chunks.len() {
            let Some(given) = receipt.take(chunk) else {
                continue;
            };
            self.heed_in(chunk, given)?;
        }
        Ok(())
    }

    // A receipt of what it did in this chunk, if it has met the chunk.
    fn receipt_in(&mut self, chunk: usize) -> Option<ChunkReceipt>
        ensures same { self.new.met.items ≡ self.old.met.items }
        ensures rests { RestsThere (get_or self.old.met.items chunk None) }
        ensures covers { CoversPlace (get_or self.old.met.items chunk None) result }
        ensures stays { Stays self.old self.new }
    {
        match self.met.get_mut(chunk) {
            Some(place) => receipt_at(place),
            None => None,
        }
    }

    // Its member in this chunk heeds the receipt of the chunk. A chunk that it has not met is met first, by the note of
    // the receipt. Refused as `Taken` if it has not met the chunk, and its pass is not in the chunk's pool.
    #[tactic(auto, using(crate::proofs::OfChunks::heeds_of))]
    fn heed_in(&mut self, chunk: usize, given: ChunkReceipt) -> Result<(), Refusal>
        requires { IsReceiptIn self.old.growing chunk given }
        ensures heeds { MatchResult result
            (λ _. HeedsChunk self.old.growing self.old.number chunk given self.old.met.items self.new.met.items)
            (λ why. (why ≡ Taken) × (get_or self.old.met.items chunk None ≡ None)
            × (self.new.met.items ≡ self.old.met.items)) }
        ensures stays { Stays self.old self.new }
    {
        let mut given = given;
        let note = given.note.again();
        let Ok(()) = self.meet_by(chunk, note) else {
            return Err(Refusal::Taken);
        };
        heed_at(&mut self.met[chunk], given);
        Ok(())
    }
}
