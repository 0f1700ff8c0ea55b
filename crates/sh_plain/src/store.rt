//! What callers of a store may rely on.
ghost use Rattle.std.specs.Prelude.{◌≡◌, ℕ, IfSome, List, Result};
ghost use Rattle.sh_value.specs.declared.refusal.Refusal.{Refusal};
ghost use Rattle.sh_plain.specs.Store.{IsBook, InsertLeaves};

use crate::Lookup;
use sh_value::{Refusal, Value};

/// A store of values under keys that are never used again: it looks keys up, and callers insert values into it.
pub trait Store: Lookup {
    // Which results this store returns for an insert, and when, beyond what its book says.
    ghost inserts: { Self → List ℕ → Result ℕ Refusal → Self → Type 0 };

    /// Stores a value under a new key, and returns the key. Refused as `Full` or `Memory`, and by a caller of a growing
    /// heap also as `NoShard` or `Taken`.
    fn insert(&mut self, value: &Value) -> Result<u64, Refusal>
        ensures leaves { IfSome (Self.setting self.old)
            (λ s. InsertLeaves s value.now (Self.book self.old) result (Self.book self.new)) }
        ensures stands { IfSome (Self.setting self.new) (λ s. IsBook s (Self.book self.new)) }
        ensures same { Self.setting self.new ≡ Self.setting self.old }
        ensures exact { inserts self.old value.now result self.new };
}
