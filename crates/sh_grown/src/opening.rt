//! How a chunk is opened outside an insert.
ghost use Rattle.std.specs.Prelude.{◌≡◌, Some, length};
ghost use Rattle.sh_grown.specs.Opening.{AreOpen, OpensAhead, OpensNext};

use crate::chunk::Chunk;
use crate::growing::Growing;
use arrayvec::ArrayVec;
use once_cell::race::Note;
use sh_chunk::{CHUNKS, Chunked};
use sh_pool::Share;
use sh_value::Refusal;
use std::alloc::Global;
use std::fmt::{self, Debug, Formatter};

/// The first chunks of a growing heap, in the order of their numbers, each of which was found open. A contract sees
/// what is known of the cell of each. It stays true, since no chunk is closed. It has a byte for each of 256 chunks.
#[derive(Drop)]
pub struct OpenChunks {
    pub(crate) notes: ArrayVec<Option<Note<Share<Chunked>>>, CHUNKS>,
}

impl Debug for OpenChunks {
    fn fmt<W: fmt::Write>(&self, f: &mut Formatter<W>) -> fmt::Result {
        f.write_str("OpenChunks")
    }
}

/// Why no chunk was opened.
#[derive(Debug, Drop)]
pub enum NotOpened {
    /// Each chunk that the heap may have is open: these were found open.
    Full(OpenChunks),
    /// Memory was refused.
    Memory,
}

impl Growing {
    /// Opens the first chunk that is not open, outside an insert, and returns it: it is open then, for good. A later
    /// insert then finds it open. So another thread than those that insert can wait for the memory: all words of a
    /// chunk are written as it opens.
    ///
    /// If another thread opens the same chunk at once, one of them frees its own heap, and both return the chunk.
    /// Refused as `Full` only if each chunk that the heap may have is open, and as `Memory` if memory is refused.
    ///
    /// ```text
    /// let growing = Growing::open(alloc, 64, 256)?;
    /// let chunk = growing.open_next(alloc)?;
    /// assert_eq!(chunk.number(), 1);
    /// ```
    pub fn open_next(&self, alloc: Global) -> Result<Chunk<'_>, NotOpened>
        ensures { OpensNext self.now result }
    {
        let found = self.first_open();
        self.opened_behind(alloc, found)
    }

    /// The same, and returns the number of the chunk alone.
    ///
    /// ```text
    /// let growing = Growing::open(alloc, 64, 256)?;
    /// let chunk = growing.open_ahead(alloc)?;   // 1
    /// ```
    pub fn open_ahead(&self, alloc: Global) -> Result<usize, Refusal>
        ensures { OpensAhead self.now result }
    {
        match self.open_next(alloc) {
            Ok(chunk) => Ok(chunk.number()),
            Err(NotOpened::Full(_)) => Err(Refusal::Full),
            Err(NotOpened::Memory) => Err(Refusal::Memory),
        }
    }

    // The chunks from the first one on that one load each finds open.
    fn first_open(&self) -> OpenChunks
        ensures { AreOpen self.now (length result.notes.items) result }
    {
        let mut found = OpenChunks {
            notes: ArrayVec::new(),
        };
        for number in 0..self.chunks_allowed() {
            let Some(chunk) = self.chunk(number) else {
                return found;
            };
            found.notes.push(Some(chunk.into_note()));
        }
        found
    }

    // The chunk behind these, which is opened if it is not open yet. Refused as `Full` if the heap may not have it. If
    // it has another shape, which no call brings about, the refusal is `Memory`.
    #[tactic(auto, using(crate::proofs::Shapes::shaped_alike))]
    fn opened_behind(&self, alloc: Global, found: OpenChunks) -> Result<Chunk<'_>, NotOpened>
        requires { AreOpen self.now (length found.notes.items) found }
        ensures { OpensNext self.now result }
    {
        let number = found.notes.len();
        let Some(cell) = self.cells.get(number) else {
            return Err(NotOpened::Full(found));
        };
        let mut note = cell.note();
        let Ok(share) = self.opened(alloc, number as u8, &mut note) else {
            return Err(NotOpened::Memory);
        };
        Ok(Chunk {
            number,
            pool: share.pool(),
            note,
        })
    }
}

impl<'a> Chunk<'a> {
    // What is known of the cell that it is in.
    fn into_note(self) -> Note<Share<Chunked>>
        ensures cell { result.cell ≡ self.entry.cell }
        ensures known { result.known ≡ Some self.entry.heap }
    {
        let Chunk {
            number: _,
            pool: _,
            note,
        } = self;
        note
    }
}
