//! A look at a record.
ghost use Rattle.std.specs.Prelude.{◌≡◌, IfSome};
ghost use Rattle.sh_plain.specs.Store.{IsBook, LookLeaves};
ghost use Rattle.sh_typed.specs.Typed.{AsRecord, record_in};

use crate::stored::stored_record;
use sh_plain::Lookup;
use sh_value::{Record, Refusal};

// Looks at a key, and decodes its value.
pub(crate) fn look_record<S: Lookup, R: Record>(store: &mut S, key: u64) -> Result<R, Refusal>
    ensures leaves { IfSome (S.setting store.old) (λ s. AsRecord (record_in R.KIND R.record_of)
        (λ answer. LookLeaves s key (S.book store.old) answer (S.book store.new)) result) }
    ensures stands { IfSome (S.setting store.new) (λ s. IsBook s (S.book store.new)) }
    ensures same { S.setting store.new ≡ S.setting store.old }
    ensures exact { AsRecord (record_in R.KIND R.record_of) (λ answer. S.looks store.old key answer store.new) result }
{
    let value = store.look(key)?;
    match stored_record(&value) {
        Some(found) => Ok(found),
        None => Err(Refusal::WrongKind),
    }
}
