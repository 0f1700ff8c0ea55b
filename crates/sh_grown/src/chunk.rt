//! The chunks of a growing heap as wholes: their passes are joined, and their pages counted.
ghost use Rattle.std.specs.Prelude.{◌≡◌, ◌<◌, ◌≤◌, IfErr, IfOk, IfSome, MatchOption, [], length, slice_get};
ghost use Rattle.std.specs.Option.{ForSome};
ghost use Rattle.once_cell.specs.Once.{cell_name};
ghost use Rattle.sh_chunk.specs.Chunks.{chunked};
ghost use Rattle.sh_whole.specs.Homes.{GathersPool, TellsAccounts, TellsTotals};
ghost use Rattle.sh_grown.specs.ChunkShapes.{IsShaped};
ghost use Rattle.sh_grown.specs.Growing.{shape_in};
ghost use Rattle.sh_grown.specs.Receipts.{AreReceiptsIn};
ghost use Rattle.sh_grown.specs.Wholes.{CountsBelow, FindsTold, IsAny, IsChunkOf, IsGathered, WhyUngathered};

use crate::growing::{Growing, of_shape};
use crate::receipts::GrownReceipt;
use once_cell::race::Note;
use sh_chunk::Chunked;
use sh_gather::{Accounts, Totals};
use sh_pool::{Pool, Share};
use sh_shape::Shape;
use sh_whole::{NotTold, gather_pool, pool_accounts, pool_totals};
use std::alloc::Global;
use std::marker::Model;

/// A chunk of a growing heap that is open. A contract sees its number, its heap, and the name of the cell that has it.
#[derive(Drop)]
pub struct Chunk<'a> {
    pub(crate) number: usize,
    pub(crate) pool: &'a Pool<Chunked>,
    // What is known of the cell that the chunk is in.
    pub(crate) note: Note<Share<Chunked>>,
}

impl<'a> Model for Chunk<'a> {
    ghost use Rattle.std.specs.Prelude.{◌≡◌, Some};
    ghost use Rattle.sh_grown.specs.Wholes.{SeenChunk};

    ghost Value = { SeenChunk };

    ghost view = { λ c. record { number = c.number; heap = c.pool.now; cell = c.note.cell } };

    ghost invariant = { λ c. c.note.known ≡ Some c.pool.now };
}

impl<'a> Chunk<'a> {
    /// Its number, from 0: that in bits 56 to 63 of its keys.
    pub fn number(&self) -> usize
        ensures { result ≡ self.now.number }
    {
        self.number
    }

    /// The shape of its heap.
    pub fn shape(&self) -> &Shape
        ensures { result.now ≡ self.now.heap.shape }
    {
        self.pool.shape()
    }

    /// Joins all its passes in one, which is the last one. Refused as `Away` if a caller has its pass, or if one was
    /// lost that was not joined before. Refused as `Memory` too; neither joins any.
    pub fn gather(&self, alloc: Global) -> Result<(), NotTold>
        ensures { GathersPool self.now.heap result }
    {
        gather_pool(alloc, self.pool)
    }

    /// The sums over all its pages, once it was gathered. Refused as `Away` if the joined pass is not in its pool slot.
    /// It takes no memory.
    pub fn totals(&self) -> Result<Totals, NotTold>
        ensures { TellsTotals chunked self.now.heap result }
    {
        pool_totals(self.pool)
    }

    /// The accounts of one of its pages, once it was gathered. Refused as `totals` is, and as `NoPage` exactly if it
    /// has no such page.
    pub fn accounts(&self, shard: u32, page: u32) -> Result<Accounts, NotTold>
        ensures { TellsAccounts chunked self.now.heap shard page result }
    {
        pool_accounts(self.pool, shard, page)
    }
}

impl Growing {
    /// The chunk of this number, from 0. `None` if the heap may not have it, or if one load finds it not open. It has
    /// the shape that the heap was opened with, if it is the first one, and otherwise that of `chunk_shape`.
    ///
    /// ```text
    /// growing.gather(alloc)?;                             // every caller has ended
    /// let mut live = 0;
    /// for number in 0..growing.chunks_allowed() {
    ///     let Some(chunk) = growing.chunk(number) else {
    ///         break;                                      // chunks are opened in order
    ///     };
    ///     live += u64::from(chunk.totals()?.live);
    /// }
    /// ```
    #[tactic(auto, using(crate::proofs::Shapes::shaped_alike))]
    pub fn chunk(&self, number: usize) -> Option<Chunk<'_>>
        ensures number { IfSome result (λ chunk. chunk.number ≡ number) }
        ensures of { IfSome result (λ chunk. IsChunkOf self.now chunk) }
    {
        let note = self.note(number)?;
        self.chunk_by(number, note)
    }

    // The same by a note of its cell. If the note knows a chunk of this shape, that is found.
    #[tactic(auto, using(crate::proofs::Shapes::shaped_alike))]
    fn chunk_by(&self, number: usize, mut note: Note<Share<Chunked>>) -> Option<Chunk<'_>>
        requires { IfSome (slice_get self.now.cells.items number) (λ c. note.cell ≡ cell_name c) }
        ensures number { IfSome result (λ chunk. chunk.number ≡ number) }
        ensures of { IfSome result (λ chunk. IsChunkOf self.now chunk) }
        ensures known { number < length self.now.cells.items → MatchOption result
            (ForSome note.known (λ heap. ¬ IsShaped heap.shape (shape_in self.now number)))
            (λ chunk. ForSome note.known (λ heap. chunk.heap ≡ heap)) }
    {
        let cell = self.cells.get(number)?;
        let found = cell.get_as(&mut note)?;
        let share = of_shape(found, self.shape_in(number))?;
        Some(Chunk {
            number,
            pool: share.pool(),
            note,
        })
    }

    // The same. A chunk that the receipt covers is found, and is that of the receipt.
    pub(crate) fn chunk_told(&self, number: usize, receipt: &mut GrownReceipt) -> Option<Chunk<'_>>
        requires { AreReceiptsIn self.now receipt.old.chunks.items }
        ensures finds { FindsTold self.now receipt.old.chunks.items number result }
        ensures same { receipt.new.chunks.items ≡ receipt.old.chunks.items }
    {
        match receipt.note(number) {
            Some(note) => self.chunk_by(number, note),
            None => self.chunk(number),
        }
    }

    /// How many chunks are open: each is looked for once.
    pub fn chunks(&self) -> usize
        ensures counts { CountsBelow self.now [] IsAny (length self.now.cells.items) result }
        ensures few { result ≤ length self.now.cells.items }
    {
        let mut receipt = GrownReceipt::none();
        self.chunks_told(&mut receipt)
    }

    /// The same, and each chunk that the receipt covers is counted. The receipt has to be of this growing heap.
    ///
    /// ```text
    /// let mut receipt = caller.receipt();
    /// let open = growing.chunks_told(&mut receipt);    // at least those that the caller has met
    /// ```
    pub fn chunks_told(&self, receipt: &mut GrownReceipt) -> usize
        requires { AreReceiptsIn self.now receipt.old.chunks.items }
        ensures counts { CountsBelow self.now receipt.old.chunks.items IsAny (length self.now.cells.items) result }
        ensures few { result ≤ length self.now.cells.items }
        ensures same { receipt.new.chunks.items ≡ receipt.old.chunks.items }
    {
        let mut found = 0;
        for number in 0..self.chunks_allowed() {
            let Some(_chunk) = self.chunk_told(number, receipt) else {
                continue;
            };
            found += 1;
        }
        found
    }

    /// Joins all passes of each open chunk in one. Refused as `Away` if a caller has not ended. Each caller has a pass
    /// of the first chunk, so that nothing is joined then. Refused as `Memory` too: then the first chunks may be
    /// gathered, and the same call gathers the others.
    ///
    /// The joined pass is the last one of each chunk, so that one caller can be claimed from then on, with that number.
    pub fn gather(&self, alloc: Global) -> Result<(), NotTold>
        ensures { IfErr result WhyUngathered }
    {
        self.gather_chunks(alloc)?;
        Ok(())
    }

    /// The same, and returns how many chunks were gathered. Each was looked for once, and all that were found open are
    /// gathered.
    ///
    /// ```text
    /// let gathered = growing.gather_chunks(alloc)?;    // as many as growing.chunks() returns, if no thread opens one
    /// ```
    pub fn gather_chunks(&self, alloc: Global) -> Result<usize, NotTold>
        ensures gathers { IfOk result (CountsBelow self.now [] IsGathered (length self.now.cells.items)) }
        ensures err { IfErr result WhyUngathered }
    {
        let mut receipt = GrownReceipt::none();
        self.gather_told(alloc, &mut receipt)
    }

    /// The same, and each chunk that the receipt covers is gathered. The receipt has to be of this growing heap.
    #[tactic(auto, using(crate::proofs::Wholes::ungathered))]
    pub fn gather_told(&self, alloc: Global, receipt: &mut GrownReceipt) -> Result<usize, NotTold>
        requires { AreReceiptsIn self.now receipt.old.chunks.items }
        ensures gathers { IfOk result
            (CountsBelow self.now receipt.old.chunks.items IsGathered (length self.now.cells.items)) }
        ensures err { IfErr result WhyUngathered }
        ensures same { receipt.new.chunks.items ≡ receipt.old.chunks.items }
    {
        let mut gathered = 0;
        for number in 0..self.chunks_allowed() {
            let Some(chunk) = self.chunk_told(number, receipt) else {
                continue;
            };
            chunk.gather(alloc)?;
            gathered += 1;
        }
        Ok(gathered)
    }
}
