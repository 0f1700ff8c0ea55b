//! What a receipt guarantees, by the laws of `heard_comes_first`.
ghost use Rattle.std.specs.Prelude.{◌≡◌};
ghost use Rattle.gearlongan.specs.Receipts.{TellsOfInsert, GoneIfRemoved};

use gearlongan::{Hold, KeyLayout, Pass, Receipt, Refusal, heard_comes_first};

/// Takes a hold on a key that another thread sent with a receipt. If the receipt reports the insert, the key is `Gone`
/// only if, in each history, a call removed it before. Refused as `get` is.
pub fn get_heard<L: KeyLayout>(
    pass: &mut Pass<'_, L>,
    receipt: Receipt,
    key: u64,
) -> Result<Hold, Refusal>
    requires { receipt.heap ≡ pass.old.heap }
    ensures gone { TellsOfInsert key receipt → GoneIfRemoved L.layout key result pass.new }
    ensures heap { pass.new.heap ≡ pass.old.heap }
{
    pass.heed(receipt);
    heard_comes_first();
    pass.get(key)
}
