//! Keys that go from one thread to another with a receipt of their insert.
ghost use Rattle.std.specs.Prelude.{◌≡◌, IfOk};
ghost use Rattle.sh_pass.specs.Receipts.{heeded, receipt_by};
ghost use Rattle.sh_shard.specs.Shards.{InsertServes, StaysOwner, value_class};
ghost use Rattle.sh_pass.specs.Remaining.{Remains};
ghost use Rattle.sh_pass.specs.Fetching.{FetchDoes, LookDoes};
ghost use Rattle.sh_member.specs.ToldKeys.{CoversInsert, TellsOfInsert, IsAsInserted, GoneIfRemoved, key_told};

use crate::reader::Reader;
use sh_key::KeyLayout;
use sh_pass::{KeepsHeap, Receipt};
use sh_shard::shard::ShardOn;
use sh_table::heard_comes_first;
use sh_value::{Refusal, Value};

/// A key, and a receipt that covers its insert, to be sent to another thread.
#[derive(Drop)]
pub struct ToldKey {
    pub key: u64,
    pub receipt: Receipt,
}

/// Stores a value, and returns its key with a receipt of the insert. Refused as an insert is: `Full` or `Memory`.
///
/// ```text
/// let told = insert_told(&mut owner, &value)?;    // goes to another thread, in any way
/// let value = fetch_told(&mut pass, told)?;       // there: `Gone` only if the key was removed
/// ```
pub fn insert_told<L: KeyLayout, H: KeepsHeap<L>>(
    owner: &mut ShardOn<L, H>,
    value: &Value,
) -> Result<ToldKey, Refusal>
    ensures serves { InsertServes L.layout (value_class value.now) value.now owner.old
        (key_told result) owner.new }
    ensures stays { StaysOwner L.layout owner.old owner.new }
    ensures receipt { IfOk result (λ told. told.receipt ≡ receipt_by owner.new.pages.owner) }
    ensures tells { IfOk result (λ told. CoversInsert told.key value.now told.receipt) }
{
    let key = owner.insert(value)?;
    Ok(ToldKey {
        key,
        receipt: owner.receipt(),
    })
}

/// The value of a key that came with a receipt: the reader heeds the receipt and looks at the key. If the receipt
/// covers the insert, it returns the inserted value, or `Gone` only if the key was removed. Refused as a look is; as
/// `HoldsFull` or `Crowded` only if the receipt does not cover the insert.
pub fn fetch_told<R: Reader>(reader: &mut R, told: ToldKey) -> Result<Value, Refusal>
    requires { told.receipt.heap ≡ (R.caller reader.old).heap }
    ensures does { FetchDoes R.layout told.key (heeded (R.caller reader.old) told.receipt) result
        (R.caller reader.new) }
    ensures told { TellsOfInsert told.key told.receipt
        → LookDoes R.layout told.key (heeded (R.caller reader.old) told.receipt) result (R.caller reader.new) }
    ensures value { IfOk result (λ value. IsAsInserted told.key value told.receipt) }
    ensures gone { TellsOfInsert told.key told.receipt → GoneIfRemoved R.layout told.key result (R.caller reader.new) }
    ensures remains { Remains R.layout (R.caller reader.old) (R.caller reader.new) }
{
    let ToldKey { key, receipt } = told;
    reader.heed(receipt);
    heard_comes_first();
    reader.fetch(key)
}
