//! Growing heaps.
ghost use Rattle.std.specs.Prelude.{◌≡◌, ◌↔◌, ◌<◌, ◌≤◌, ◌*◌, ◌^◌, Some, None, IfOk, IfSome, IsTrue, MatchOption};
ghost use Rattle.std.specs.Prelude.{MatchResult, length, slice_get};
ghost use Rattle.std.specs.Option.{ForSome};
ghost use Rattle.once_cell.specs.Once.{cell_name, Agrees};
ghost use Rattle.sh_value.specs.declared.refusal.Refusal.TheVariants.{Memory};
ghost use Rattle.sh_shape.specs.Shape.{Fits, segment_pages};
ghost use Rattle.sh_chunk.specs.Chunks.{chunked};
ghost use Rattle.sh_grown.specs.ChunkShapes.{IsShaped};

use crate::chunk_shapes::chunk_shape;
use crate::room_hints::RoomHints;
use once_cell::race::{Note, OnceBox};
use sh_chunk::{CHUNKS, Chunked};
use sh_pool::{Pool, Share};
use sh_shape::Shape;
use sh_value::Refusal;
use std::alloc::Global;

/// A heap that grows: a list of chunks, each in a cell that is written once. Threads share it, and each has a caller.
///
/// The chunks are opened in the order of their numbers, the first one with the heap itself. No chunk is ever closed.
#[derive(Drop)]
pub struct Growing {
    pub(crate) cells: Vec<OnceBox<Share<Chunked>>>,
    // The shape of the first chunk.
    first: Shape,
    passes: u32,
    pub(crate) hints: RoomHints,
    ghost same_passes: { first.passes ≡ passes },
    ghost few_shards: { first.shards ≤ 2 ^ chunked.shard_bits },
    ghost few_pages: { segment_pages * first.segments ≤ 2 ^ chunked.page_bits },
    ghost some_pass: { 1 ≤ passes },
    ghost few_passes: { passes ≤ 64 },
    ghost some_chunk: { 1 ≤ length cells.items },
    ghost few_chunks: { length cells.items ≤ 256 },
}

// A pool of a new heap of this shape, in a box of its own.
fn new_chunk(alloc: Global, shape: Shape) -> Result<Box<Share<Chunked>>, Refusal>
    requires { Fits chunked shape }
    ensures { MatchResult result (λ chunk. chunk.value.shape ≡ shape) (λ why. why ≡ Memory) }
{
    let pool = Pool::<Chunked>::open(alloc, shape)?;
    let share = Share::new(alloc, pool)?;
    match Box::new(alloc, share) {
        Ok(chunk) => Ok(chunk),
        Err(_) => Err(Refusal::Memory),
    }
}

// Whether a heap that was found has the shape that is wanted.
fn is_shaped(found: &Shape, wanted: &Shape) -> bool
    ensures { IsTrue result ↔ IsShaped found.now wanted.now }
{
    let shards = found.shards() == wanted.shards();
    let segments = found.segments() == wanted.segments();
    let passes = found.passes() == wanted.passes();
    shards && segments && passes
}

// The share, if its heap has this shape. No clause of a cell says what it has before a load finds that, so the shape of
// a chunk is looked at when it is found.
pub(crate) fn of_shape(share: &Share<Chunked>, shape: Shape) -> Option<&Share<Chunked>>
    ensures same { IfSome result (λ s. s.now ≡ share.now) }
    ensures shape { MatchOption result (¬ IsShaped share.now.shape shape) (λ s. IsShaped s.now.shape shape) }
{
    if is_shaped(share.pool().shape(), &shape) {
        Some(share)
    } else {
        None
    }
}

impl Growing {
    ghost use Rattle.sh_grown.specs.Growing.{OpensGrowing, OpensGrowingFor, WhyUnopened, shape_in};

    /// A growing heap of at most `chunks` chunks, from 1 to 256, with this many passes, from 1 to 64. The first chunk
    /// is opened. Refused as `BadShape` exactly if a number is outside its limits, and as `Memory` if memory is
    /// refused.
    ///
    /// ```text
    /// let growing = Growing::open(alloc, 64, 256)?;   // room for 768 values of one word, and it grows
    /// ```
    pub fn open(alloc: Global, passes: u32, chunks: usize) -> Result<Growing, Refusal>
        ensures { OpensGrowing passes chunks result }
    {
        if passes < 1 || 64 < passes || chunks < 1 || CHUNKS < chunks {
            return Err(Refusal::BadShape);
        }
        let shape = chunk_shape(0, passes);
        let first = new_chunk(alloc, shape)?;
        Growing::of_first(alloc, first, shape, passes, chunks)
    }

    /// The same with another first chunk: the least one in which each of `owners` owners has a shard with room for
    /// `values` values of `words` words. It is refused as `BadShape` also if no chunk has the room. Later chunks have
    /// the shapes of their numbers.
    ///
    /// ```text
    /// let growing = Growing::open_for(alloc, 4, 10_000, 1, 64, 256)?;   // 10,000 values for each of 4 owners
    /// ```
    #[tactic(auto, using(crate::proofs::Shapes::roomy_alike))]
    pub fn open_for(
        alloc: Global,
        owners: u32,
        values: u64,
        words: usize,
        passes: u32,
        chunks: usize,
    ) -> Result<Growing, Refusal>
        ensures { OpensGrowingFor owners values words passes chunks result }
    {
        if passes < 1 || 64 < passes || chunks < 1 || CHUNKS < chunks {
            return Err(Refusal::BadShape);
        }
        let shape = Shape::with_room::<Chunked>(owners, values, words, passes)?;
        let first = new_chunk(alloc, shape)?;
        Growing::of_first(alloc, first, shape, passes, chunks)
    }

    // A growing heap that may have this many chunks, of which the first one is open and has this shape.
    fn of_first(
        alloc: Global,
        first: Box<Share<Chunked>>,
        shape: Shape,
        passes: u32,
        chunks: usize,
    ) -> Result<Growing, Refusal>
        requires fits { Fits chunked shape }
        requires same_passes { shape.passes ≡ passes }
        requires some_pass { 1 ≤ passes }
        requires few_passes { passes ≤ 64 }
        requires some_chunk { 1 ≤ chunks }
        requires few_chunks { chunks ≤ 256 }
        ensures { MatchResult result (λ growing. (growing.passes ≡ passes) × (length growing.cells.items ≡ chunks)
            × (growing.first ≡ shape)) (λ why. why ≡ Memory) }
    {
        let mut cells = Vec::new(alloc);
        if cells.push(OnceBox::with_value(first)).is_err() {
            return Err(Refusal::Memory);
        }
        for _chunk in 1..chunks {
            if cells.push(OnceBox::new(alloc)).is_err() {
                return Err(Refusal::Memory);
            }
        }
        Ok(Growing {
            cells,
            first: shape,
            passes,
            hints: RoomHints::new(),
        })
    }

    /// How many chunks it may have, from 1 to 256.
    pub fn chunks_allowed(&self) -> usize
        ensures count { result ≡ length self.now.cells.items }
        ensures some { 1 ≤ result }
        ensures few { result ≤ 256 }
    {
        self.cells.len()
    }

    /// How many passes it has, from 1 to 64: as many callers may be claimed at a time.
    pub fn passes(&self) -> u32
        ensures count { result ≡ self.now.passes }
        ensures some { 1 ≤ result }
        ensures few { result ≤ 64 }
    {
        self.passes
    }

    // The shape of the chunk of this number: the first one has its own, each other one that of its number.
    pub(crate) fn shape_in(&self, chunk: usize) -> Shape
        requires { chunk < length self.now.cells.items }
        ensures shape { result ≡ shape_in self.now chunk }
        ensures fits { Fits chunked result }
    {
        if chunk == 0 {
            self.first
        } else {
            chunk_shape(chunk as u8, self.passes)
        }
    }

    // A note of what is known of this chunk's cell: nothing yet. `None` if the heap may not have the chunk.
    pub(crate) fn note(&self, chunk: usize) -> Option<Note<Share<Chunked>>>
        ensures { IfSome result (λ note. (note.known ≡ None)
            × IfSome (slice_get self.now.cells.items chunk) (λ c. note.cell ≡ cell_name c)) }
    {
        Some(self.cells.get(chunk)?.note())
    }

    // The chunk of this number, if one load finds it open. It is the one that the note knows, if it knows any.
    #[tactic(auto, using(crate::proofs::Shapes::shaped_alike))]
    pub(crate) fn seen<'a>(
        &'a self,
        chunk: usize,
        note: &mut Note<Share<Chunked>>,
    ) -> Option<&'a Share<Chunked>>
        requires { IfSome (slice_get self.now.cells.items chunk) (λ c. note.old.cell ≡ cell_name c) }
        ensures cell { note.new.cell ≡ note.old.cell }
        ensures value { MatchOption result (chunk < length self.now.cells.items
            → ForSome note.old.known (λ heap. ¬ IsShaped heap.shape (shape_in self.now chunk)))
            (λ s. (note.new.known ≡ Some s.now) × Agrees note.old.known s.now) }
        ensures few { IfSome result (λ _. chunk < length self.now.cells.items) }
        ensures shape { IfSome result (λ s. IsShaped s.now.shape (shape_in self.now chunk)) }
    {
        let found = self.cells.get(chunk)?.get_as(note)?;
        let share = of_shape(found, self.shape_in(chunk))?;
        Some(share)
    }

    // The chunk of this number, which is opened if it is not open yet. If two threads open it at once, one of them
    // frees its own heap and uses the other's. Refused as `Memory`, and as `BadKey` if the heap may not have the chunk
    // or if that has another shape, which no call brings about.
    #[tactic(auto, using(crate::proofs::Shapes::shaped_alike))]
    pub(crate) fn opened<'a>(
        &'a self,
        alloc: Global,
        chunk: u8,
        note: &mut Note<Share<Chunked>>,
    ) -> Result<&'a Share<Chunked>, Refusal>
        requires { IfSome (slice_get self.now.cells.items chunk) (λ c. note.old.cell ≡ cell_name c) }
        ensures cell { note.new.cell ≡ note.old.cell }
        ensures value { MatchResult result (λ s. (note.new.known ≡ Some s.now) × Agrees note.old.known s.now)
            (WhyUnopened note.old.known) }
        ensures few { IfOk result (λ _. chunk < length self.now.cells.items) }
        ensures shape { IfOk result (λ s. IsShaped s.now.shape (shape_in self.now chunk)) }
    {
        let Some(cell) = self.cells.get(chunk as usize) else {
            return Err(Refusal::BadKey);
        };
        let shape = self.shape_in(chunk as usize);
        if let Some(found) = cell.get_as(note) {
            let Some(share) = of_shape(found, shape) else {
                return Err(Refusal::BadKey);
            };
            return Ok(share);
        }
        let opened = new_chunk(alloc, shape)?;
        let first = cell.get_or_init_as(move || opened, note);
        let Some(share) = of_shape(first, shape) else {
            return Err(Refusal::BadKey);
        };
        Ok(share)
    }
}
