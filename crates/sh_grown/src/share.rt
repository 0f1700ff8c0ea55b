//! Shares of a growing heap: it lives as long as one of them.
ghost use Rattle.std.specs.Prelude.{◌≡◌, ◌<◌, ◌≤◌, IfOk, IfSome, MatchOption, MatchResult, None, Some};
ghost use Rattle.std.specs.Prelude.{length, slice_get};
ghost use Rattle.std.specs.Option.{ForSome};
ghost use Rattle.once_cell.specs.Once.{cell_name, Agrees};
ghost use Rattle.sh_value.specs.declared.refusal.Refusal.TheVariants.{Memory};
ghost use Rattle.sh_grown.specs.ChunkShapes.{IsShaped};
ghost use Rattle.sh_grown.specs.Growing.{OpensGrowing, OpensGrowingFor, WhyUnopened, shape_in};

use crate::growing::Growing;
use once_cell::race::Note;
use sh_chunk::Chunked;
use sh_pool::Share;
use sh_value::Refusal;
use std::alloc::Global;
use std::marker::Model;
use std::sync::Arc;

/// A share of a growing heap. Each caller has one, so a caller borrows nothing. The last share frees the heap.
///
/// A contract sees the growing heap.
#[derive(Drop)]
pub struct GrowingShare {
    growing: Arc<Growing, Global>,
}

impl Model for GrowingShare {
    ghost use Rattle.sh_grown.specs.declared.growing.Growing.{Growing};
    ghost use Rattle.sh_grown.specs.Shares.{growing_coded};

    ghost Value = { Growing };

    ghost coded = { growing_coded };

    ghost view = { λ s. s.growing.value };
}

impl GrowingShare {
    /// The first share of this growing heap. Refused as `Memory` if memory is refused: then the heap is freed.
    pub fn new(alloc: Global, growing: Growing) -> Result<GrowingShare, Refusal>
        ensures { MatchResult result (λ share. share ≡ growing) (λ why. why ≡ Memory) }
    {
        let Ok(growing) = Arc::new(alloc, growing) else {
            return Err(Refusal::Memory);
        };
        Ok(GrowingShare { growing })
    }

    /// The first share of a new growing heap, which is opened as by `Growing::open`.
    ///
    /// ```text
    /// let growing = GrowingShare::open(alloc, 64, 256)?;   // passes, chunks at most
    /// let mut caller = growing.claim(alloc)?;
    /// ```
    pub fn open(alloc: Global, passes: u32, chunks: usize) -> Result<GrowingShare, Refusal>
        ensures { OpensGrowing passes chunks result }
    {
        let growing = Growing::open(alloc, passes, chunks)?;
        GrowingShare::new(alloc, growing)
    }

    /// The same with another first chunk, as by `Growing::open_for`.
    pub fn open_for(
        alloc: Global,
        owners: u32,
        values: u64,
        words: usize,
        passes: u32,
        chunks: usize,
    ) -> Result<GrowingShare, Refusal>
        ensures { OpensGrowingFor owners values words passes chunks result }
    {
        let growing = Growing::open_for(alloc, owners, values, words, passes, chunks)?;
        GrowingShare::new(alloc, growing)
    }

    /// The growing heap.
    pub fn heap(&self) -> &Growing
        ensures { result.now ≡ self.now }
    {
        &self.growing
    }

    /// One share more, which takes no memory. Refused as `Memory` if no more can be counted, which is after 2^63.
    pub fn share(&self) -> Result<GrowingShare, Refusal>
        ensures { MatchResult result (λ share. share ≡ self.now) (λ why. why ≡ Memory) }
    {
        let Ok(growing) = Arc::try_clone(&self.growing) else {
            return Err(Refusal::Memory);
        };
        Ok(GrowingShare { growing })
    }

    // What the callers of a growing heap ask of it, by their shares.

    pub(crate) fn chunks_allowed(&self) -> usize
        ensures count { result ≡ length self.now.cells.items }
        ensures few { result ≤ 256 }
    {
        self.heap().chunks_allowed()
    }

    pub(crate) fn note(&self, chunk: usize) -> Option<Note<Share<Chunked>>>
        ensures { IfSome result (λ note. (note.known ≡ None)
            × IfSome (slice_get self.now.cells.items chunk) (λ c. note.cell ≡ cell_name c)) }
    {
        self.heap().note(chunk)
    }

    pub(crate) fn seen<'a>(
        &'a self,
        chunk: usize,
        note: &mut Note<Share<Chunked>>,
    ) -> Option<&'a Share<Chunked>>
        requires { IfSome (slice_get self.now.cells.items chunk) (λ c. note.old.cell ≡ cell_name c) }
        ensures cell { note.new.cell ≡ note.old.cell }
        ensures value { MatchOption result (chunk < length self.now.cells.items
            → ForSome note.old.known (λ heap. ¬ IsShaped heap.shape (shape_in self.now chunk)))
            (λ s. (note.new.known ≡ Some s.now) × Agrees note.old.known s.now) }
        ensures few { IfSome result (λ _. chunk < length self.now.cells.items) }
        ensures shape { IfSome result (λ s. IsShaped s.now.shape (shape_in self.now chunk)) }
    {
        self.heap().seen(chunk, note)
    }

    pub(crate) fn opened<'a>(
        &'a self,
        alloc: Global,
        chunk: u8,
        note: &mut Note<Share<Chunked>>,
    ) -> Result<&'a Share<Chunked>, Refusal>
        requires { IfSome (slice_get self.now.cells.items chunk) (λ c. note.old.cell ≡ cell_name c) }
        ensures cell { note.new.cell ≡ note.old.cell }
        ensures value { MatchResult result (λ s. (note.new.known ≡ Some s.now) × Agrees note.old.known s.now)
            (WhyUnopened note.old.known) }
        ensures few { IfOk result (λ _. chunk < length self.now.cells.items) }
        ensures shape { IfOk result (λ s. IsShaped s.now.shape (shape_in self.now chunk)) }
    {
        self.heap().opened(alloc, chunk, note)
    }
}
