//! A get, a removal, a read and a release in one.
ghost use Rattle.sh_pass.specs.Remaining.{Remains};
ghost use Rattle.sh_member.specs.Readers.{TakeDoes};

use crate::reader::Reader;
use sh_value::{Refusal, Value};

/// The value of a key that this call removes. Refused as a get is, and as `Gone` if another caller removed it first. No
/// hold is left behind, whatever it returns.
#[tactic(auto, using(sh_pass::proofs::FirstHold::has_first, sh_pass::proofs::FirstHold::without_first))]
pub fn take<R: Reader>(reader: &mut R, key: u64) -> Result<Value, Refusal>
    ensures does { TakeDoes R.layout key (R.caller reader.old) result (R.caller reader.new) }
    ensures remains { Remains R.layout (R.caller reader.old) (R.caller reader.new) }
{
    let hold = reader.get(key)?;
    let removed = reader.remove(key);
    let Ok(value) = reader.read(hold) else {
        unreachable!()
    };
    let Ok(()) = reader.release(hold) else {
        unreachable!()
    };
    match removed {
        Ok(()) => Ok(value),
        Err(why) => Err(why),
    }
}
