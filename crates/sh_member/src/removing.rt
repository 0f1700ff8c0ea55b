//! Removing the keys that a predicate chooses, among all live ones.
ghost use Rattle.std.specs.Prelude.{◌≡◌, ◌⊎◌};
ghost use Rattle.sh_pass.specs.Passes.{RemoveDoes};
ghost use Rattle.sh_pass.specs.Remaining.{Remains};
ghost use Rattle.sh_member.specs.Removing.{Judges, Removal, RemovesIf, SaysOf, is_removed, walk_end};
ghost use Rattle.sh_member.specs.Walks.{NextLiveDoes};

use crate::reader::Reader;
use crate::walking::next_live_into;
use sh_value::Value;

// Removes the key if the predicate is true of it and of its value. Returns whether this call removed it.
fn remove_one<R: Reader, F: Fn(u64, &Value) -> bool>(
    reader: &mut R,
    predicate: &F,
    key: u64,
    value: &Value,
) -> bool
    requires { F.IsAlwaysCallable predicate.now }
    ensures does { (removal : Removal) × (result ≡ is_removed removal) × Judges (SaysOf F.Fn predicate.now)
        (RemoveDoes R.layout) key value.now removal (R.caller reader.old) (R.caller reader.new) }
    ensures remains { Remains R.layout (R.caller reader.old) (R.caller reader.new)
        ⊎ (R.caller reader.new ≡ R.caller reader.old) }
{
    predicate(key, value) && reader.remove(key).is_ok()
}

/// Removes each key of which the predicate is true, as a walk over all places meets them. Returns how many this call
/// removed.
pub fn remove_if<R: Reader, F: Fn(u64, &Value) -> bool>(reader: &mut R, predicate: F) -> u64
where
    F: Drop,
    requires { F.IsAlwaysCallable predicate }
    ensures does { RemovesIf (SaysOf F.Fn predicate) (λ from. NextLiveDoes R.layout from walk_end)
        (RemoveDoes R.layout) (R.caller reader.old) result (R.caller reader.new) }
    ensures remains { Remains R.layout (R.caller reader.old) (R.caller reader.new) }
{
    let mut value = Value::from(0);
    let mut place = 0;
    let mut count = 0;
    while let Some(next) = next_live_into(reader, place, u64::MAX, &mut value) {
        if remove_one(reader, &predicate, next.key, &value) {
            count += 1;
        }
        place = next.behind;
    }
    count
}
