// Removing the keys that a predicate chooses, among the live keys of all chunks.
ghost use Rattle.std.specs.Prelude.{◌≡◌};
ghost use Rattle.sh_member.specs.Removing.{Judges, Removal, SaysOf, is_removed};
ghost use Rattle.sh_grown.specs.Callers.{Stays};
ghost use Rattle.sh_grown.specs.Removing.{CallerRemoves, CallerRemovesIf};

use crate::caller::Caller;
use sh_pass::NextKey;
use sh_value::{Refusal, Value};

impl Caller {
    /// Removes each key of which the predicate is true, as a walk over the places of all chunks finds them. Returns how
    /// many keys this call removed: a key that another caller removed meanwhile is not counted.
    ///
    /// ```text
    /// let count = caller.remove_if(|_key, value| value.words().first().is_some_and(|end| *end < now))?;
    /// ```
    ///
    /// The predicate is asked once of each key that is found, with the value that the key has. There is no hold while
    /// it runs. Refused as `Taken`, as `next_live_into` is, at the first such chunk: keys of those before it may be
    /// removed.
    pub fn remove_if<F: Fn(u64, &Value) -> bool>(&mut self, predicate: F) -> Result<u64, Refusal>
    where
        F: Drop,
        requires { F.IsAlwaysCallable predicate }
        ensures does { CallerRemovesIf (SaysOf F.Fn predicate) self.old result self.new }
        ensures stays { Stays self.old self.new }
    {
        let mut value = Value::from(0);
        let mut place = 0;
        let mut count = 0;
        while let Some(next) = self.next_live_into(place, u64::MAX, &mut value)? {
            if self.remove_one(&predicate, next.key, &value) {
                count += 1;
            }
            place = next.behind;
        }
        Ok(count)
    }

    // Removes the key if the predicate is true of it and of its value. Returns whether this call removed it.
    fn remove_one<F: Fn(u64, &Value) -> bool>(
        &mut self,
        predicate: &F,
        key: u64,
        value: &Value,
    ) -> bool
        requires { F.IsAlwaysCallable predicate.now }
        ensures does { (removal : Removal) × (result ≡ is_removed removal) × Judges (SaysOf F.Fn predicate.now)
            CallerRemoves key value.now removal self.old self.new }
        ensures stays { Stays self.old self.new }
    {
        predicate(key, value) && self.remove(key).is_ok()
    }
}
