//! A get, a read, a removal and a release in one, if the value fits.
ghost use Rattle.sh_pass.specs.Remaining.{Remains};
ghost use Rattle.sh_member.specs.Readers.{TakeIntoDoes};

use crate::reader::Reader;
use sh_value::{Refusal, Value};

/// The value of a key that this call removes, replacing what the caller's value was. A value of more than `most` words
/// goes there too, but its key is not removed. Refused as `take` is. No hold is left behind, whatever it returns.
#[tactic(auto, using(sh_pass::proofs::FirstHold::has_first, sh_pass::proofs::FirstHold::without_first))]
pub fn take_into<R: Reader>(
    reader: &mut R,
    key: u64,
    most: usize,
    value: &mut Value,
) -> Result<(), Refusal>
    ensures does { TakeIntoDoes R.layout key most (R.caller reader.old) result value.new (R.caller reader.new) }
    ensures remains { Remains R.layout (R.caller reader.old) (R.caller reader.new) }
{
    let hold = reader.get(key)?;
    let Ok(()) = reader.read_into(hold, value) else {
        unreachable!()
    };
    if value.words().len() > most {
        let Ok(()) = reader.release(hold) else {
            unreachable!()
        };
        return Ok(());
    }
    let removed = reader.remove(key);
    let Ok(()) = reader.release(hold) else {
        unreachable!()
    };
    removed
}
