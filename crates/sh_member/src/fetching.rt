//! Reading a key that is not kept.
ghost use Rattle.std.specs.Fn.{FnOnceReturnsAt};
ghost use Rattle.sh_pass.specs.Remaining.{Remains};
ghost use Rattle.sh_pass.specs.Fetching.{FetchDoes};
ghost use Rattle.sh_member.specs.Readers.{WithDoes};

use crate::reader::Reader;
use sh_value::{Refusal, Value};

/// The value of a key. No hold is left behind, whatever it returns.
pub fn fetch<R: Reader>(reader: &mut R, key: u64) -> Result<Value, Refusal>
    ensures does { FetchDoes R.layout key (R.caller reader.old) result (R.caller reader.new) }
    ensures remains { Remains R.layout (R.caller reader.old) (R.caller reader.new) }
{
    // (The initial value has one word, as most values have: reading a value of one word into it is one store.)
    let mut value = Value::from(0);
    reader.look_into(key, &mut value)?;
    Ok(value)
}

/// What the call returns for the value of a key. If the fetch is refused, nothing is called.
pub fn with<R: Reader, T, F: FnOnce(&Value) -> T>(
    reader: &mut R,
    key: u64,
    call: F,
) -> Result<T, Refusal>
where
    F: Drop,
    requires { F.IsAlwaysCallable call }
    ensures does { WithDoes (FnOnceReturnsAt F.FnOnce call) R.layout key (R.caller reader.old) result
        (R.caller reader.new) }
    ensures remains { Remains R.layout (R.caller reader.old) (R.caller reader.new) }
{
    let value = fetch(reader, key)?;
    Ok(call(&value))
}
