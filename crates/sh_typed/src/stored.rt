//! What a record is stored as.
ghost use Rattle.std.specs.Prelude.{◌≡◌, ◌∷◌};
ghost use Rattle.sh_typed.specs.Typed.{record_in};

use sh_value::{Record, Value};

// The value of a record: its kind, and then its words.
pub(crate) fn stored_value<R: Record>(stored: &R) -> Value
    ensures value { result ≡ R.KIND ∷ R.words stored.now }
    ensures decodes { record_in R.KIND R.record_of (R.KIND ∷ R.words stored.now) ≡ Some stored.now }
{
    Value::prefixed(R::KIND, &stored.encode())
}

// The record that a value is, if it is a record of this kind.
pub(crate) fn stored_record<R: Record>(value: &Value) -> Option<R>
    ensures { result ≡ record_in R.KIND R.record_of value.now }
{
    let (kind, words) = value.words().split_first()?;
    if *kind != R::KIND {
        return None;
    }
    match Value::new(words) {
        Ok(words) => R::decode(&words),
        Err(_) => unreachable!(),
    }
}
