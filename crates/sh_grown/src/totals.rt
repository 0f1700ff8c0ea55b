//! Sums over the chunks of a growing heap.
ghost use Rattle.std.specs.Prelude.{◌≡◌, ◌^◌, IfErr, IfOk, [], length};
ghost use Rattle.sh_whole.specs.declared.refusal.NotTold.TheVariants.{Away};
ghost use Rattle.sh_grown.specs.Receipts.{AreReceiptsIn};
ghost use Rattle.sh_grown.specs.Sums.{AddsFew, AtMostEach, SumsBelow, no_chunks, with_totals};

use crate::growing::Growing;
use crate::receipts::GrownReceipt;
use sh_gather::Totals;
use sh_whole::NotTold;

/// The number of slots of each kind on all pages of the chunks that were found open, and how many chunks these are.
#[derive(Clone, Copy, Debug, PartialEq, Eq)]
pub struct GrownTotals {
    /// Chunks that were found open.
    pub chunks: u64,
    /// Slots with a value that can be got, which is the number of keys in the map.
    pub live: u64,
    /// Slots with a value that was removed and is still held.
    pub marked: u64,
    /// Slots with no generation left, which are never used again.
    pub retired: u64,
    /// Empty slots, for the pass that adopts their shard next.
    pub queued: u64,
    /// Pages that have a class.
    pub used_pages: u64,
    /// Pages that have none.
    pub blank_pages: u64,
}

impl GrownTotals {
    // The sums over no chunk.
    fn new() -> GrownTotals
        ensures { result ≡ no_chunks }
    {
        GrownTotals {
            chunks: 0,
            live: 0,
            marked: 0,
            retired: 0,
            queued: 0,
            used_pages: 0,
            blank_pages: 0,
        }
    }

    // The sums with one chunk more.
    fn with(self, told: &Totals) -> GrownTotals
        requires { AtMostEach (2 ^ 63) self }
        ensures sum { result ≡ with_totals told.now self }
        ensures few { AddsFew self result }
    {
        GrownTotals {
            chunks: self.chunks + 1,
            live: self.live + u64::from(told.live),
            marked: self.marked + u64::from(told.marked),
            retired: self.retired + u64::from(told.retired),
            queued: self.queued + u64::from(told.queued),
            used_pages: self.used_pages + u64::from(told.used_pages),
            blank_pages: self.blank_pages + u64::from(told.blank_pages),
        }
    }
}

impl Growing {
    /// The sums over all pages of each chunk that is open, once `gather` gathered them. Each chunk is looked for once.
    /// Refused as `Away` if the joined pass of one is not in its pool slot. It takes no memory.
    ///
    /// ```text
    /// growing.gather(alloc)?;                // every caller has ended
    /// let keys = growing.totals()?.live;     // in all chunks
    /// ```
    pub fn totals(&self) -> Result<GrownTotals, NotTold>
        ensures sums { IfOk result (SumsBelow self.now [] (length self.now.cells.items)) }
        ensures err { IfErr result (λ why. why ≡ Away) }
    {
        let mut receipt = GrownReceipt::none();
        self.totals_told(&mut receipt)
    }

    /// The same, and each chunk that the receipt covers is counted. The receipt has to be of this growing heap.
    #[tactic(auto, using(crate::proofs::Sums::only_away))]
    pub fn totals_told(&self, receipt: &mut GrownReceipt) -> Result<GrownTotals, NotTold>
        requires { AreReceiptsIn self.now receipt.old.chunks.items }
        ensures sums { IfOk result (SumsBelow self.now receipt.old.chunks.items (length self.now.cells.items)) }
        ensures err { IfErr result (λ why. why ≡ Away) }
        ensures same { receipt.new.chunks.items ≡ receipt.old.chunks.items }
    {
        let mut sums = GrownTotals::new();
        for number in 0..self.chunks_allowed() {
            let Some(chunk) = self.chunk_told(number, receipt) else {
                continue;
            };
            let told = chunk.totals()?;
            sums = sums.with(&told);
        }
        Ok(sums)
    }
}
