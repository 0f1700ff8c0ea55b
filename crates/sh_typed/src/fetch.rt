//! A get, and what it gives.
ghost use Rattle.std.specs.Prelude.{◌≡◌, IfSome};
ghost use Rattle.sh_plain.specs.Store.{IsBook};
ghost use Rattle.sh_typed.specs.Typed.{FetchLeaves, Fetches, FetchesRecord, RecordLeaves, record_in};

use crate::stored::stored_record;
use sh_plain::Lookup;
use sh_value::{Hold, Record, Refusal, Value};

// Gets a key and reads its value.
fn fetch<S: Lookup>(store: &mut S, key: u64) -> Result<(Hold, Value), Refusal>
    ensures leaves { IfSome (S.setting store.old)
        (λ s. FetchLeaves s key (S.book store.old) result (S.book store.new)) }
    ensures stands { IfSome (S.setting store.new) (λ s. IsBook s (S.book store.new)) }
    ensures same { S.setting store.new ≡ S.setting store.old }
    ensures exact { Fetches S.gets S.reads store.old key result store.new }
{
    let hold = store.get(key)?;
    match store.read(hold) {
        Ok(value) => Ok((hold, value)),
        Err(_) => unreachable!(),
    }
}

// Gets a key and reads its value as a record. If it is none, the hold is released again.
pub(crate) fn fetch_record<S: Lookup, R: Record>(
    store: &mut S,
    key: u64,
) -> Result<(Hold, R), Refusal>
    ensures leaves { IfSome (S.setting store.old) (λ s. RecordLeaves (record_in R.KIND R.record_of) s key
        (S.book store.old) result (S.book store.new)) }
    ensures stands { IfSome (S.setting store.new) (λ s. IsBook s (S.book store.new)) }
    ensures same { S.setting store.new ≡ S.setting store.old }
    ensures exact { FetchesRecord (record_in R.KIND R.record_of) S.gets S.reads S.releases store.old key result
        store.new }
{
    let (hold, value) = fetch(store, key)?;
    match stored_record(&value) {
        Some(found) => Ok((hold, found)),
        None => match store.release(hold) {
            Ok(()) => Err(Refusal::WrongKind),
            Err(refusal) => Err(refusal),
        },
    }
}
