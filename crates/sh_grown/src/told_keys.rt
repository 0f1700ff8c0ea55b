// Keys that go from one caller to another with a receipt of their insert.
ghost use Rattle.std.specs.Prelude.{IfOk, length};
ghost use Rattle.sh_chunk.specs.Chunks.{chunked, chunk_of, key_within};
ghost use Rattle.sh_pass.specs.Fetching.{FetchDoes};
ghost use Rattle.sh_member.specs.Sides.{SideDoes};
ghost use Rattle.sh_grown.specs.Callers.{ChunkDoes, GrownDoes, Stays};
ghost use Rattle.sh_grown.specs.Inserts.{Inserts};
ghost use Rattle.sh_grown.specs.Receipts.{AreReceiptsIn, CoversEach};
ghost use Rattle.sh_grown.specs.Steps.{TakesInAll, chunk_most};
ghost use Rattle.sh_grown.specs.ToldKeys.{CoversKey, HeedsThen, IsAsTold, LooksTold, TellsOfKey, key_told};

use crate::caller::Caller;
use crate::receipts::GrownReceipt;
use sh_table::heard_comes_first;
use sh_value::{Refusal, Value};
use std::alloc::Global;

impl Caller {
    /// Stores a value, and returns its key with a receipt of the insert. Refused as `insert` is.
    ///
    /// ```text
    /// let (key, receipt) = caller.insert_told(alloc, &value)?;    // both are sent to another thread
    /// let value = other.fetch_told(key, receipt)?;                // there: `Gone` only if the key was removed
    /// ```
    pub fn insert_told(
        &mut self,
        alloc: Global,
        value: &Value,
    ) -> Result<(u64, GrownReceipt), Refusal>
        ensures inserts { Inserts (length self.old.growing.cells.items) value.now self.old.met.items
            (key_told result) self.new.met.items }
        ensures tells { IfOk result (λ told. CoversKey told.0 value.now told.1.chunks.items) }
        ensures covers { IfOk result (λ told. CoversEach (length self.old.growing.cells.items) self.new.met.items
            told.1.chunks.items) }
        ensures of { IfOk result (λ told. AreReceiptsIn self.old.growing told.1.chunks.items) }
        ensures steps { TakesInAll (chunk_most (length value.now)) self.old self.new }
        ensures stays { Stays self.old self.new }
    {
        let key = self.insert(alloc, value)?;
        let receipt = self.receipt();
        Ok((key, receipt))
    }

    /// The value of a key that came with a receipt: the caller heeds the receipt and looks at the key. The receipt has
    /// to be of the same growing heap. If it covers the insert, the key's chunk is found, and the call returns the
    /// inserted value, or `Gone` only if the key was removed. Refused as a look is, and as `Taken` as `heed` is; as
    /// `HoldsFull` or `Crowded` only if the receipt does not cover the insert.
    pub fn fetch_told(&mut self, key: u64, receipt: GrownReceipt) -> Result<Value, Refusal>
        requires { AreReceiptsIn self.old.growing receipt.chunks.items }
        ensures does { HeedsThen receipt.chunks.items (λ growing number.
            GrownDoes (SideDoes chunked (FetchDoes chunked (key_within key))) growing number (chunk_of key))
            self.old result self.new }
        ensures told { TellsOfKey key receipt.chunks.items → HeedsThen receipt.chunks.items (λ growing number.
            ChunkDoes (SideDoes chunked (LooksTold (key_within key))) growing number (chunk_of key))
            self.old result self.new }
        ensures value { IfOk result (λ value. IsAsTold key value receipt.chunks.items) }
        ensures stays { Stays self.old self.new }
    {
        self.heed(receipt)?;
        heard_comes_first();
        self.look(key)
    }
}
