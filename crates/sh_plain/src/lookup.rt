//! The trait of all that look keys up: stores and passes.
ghost use Rattle.std.specs.Prelude.{◌≡◌, ℕ, IfNone, IfSome, List, Option, Result};
ghost use Rattle.sh_value.specs.declared.hold.Hold.{Hold};
ghost use Rattle.sh_value.specs.declared.refusal.Refusal.{Refusal};
ghost use Rattle.sh_history.specs.declared.log.LogEntry.{LogEntry};
ghost use Rattle.sh_plain.specs.Store.{Setting, IsBook, GetLeaves, ReadLeaves, LookLeaves, RemoveLeaves};
ghost use Rattle.sh_plain.specs.Store.{Lends, ReleaseLeaves};

use sh_value::{Hold, Refusal, Value};

/// Access to values under keys that are never used again: get, read, look, remove and release.
///
/// Its book is the list of the results it has returned so far: each call adds exactly its entry. At each moment there
/// is a legal history in which the entries of its passes are the book, in order.
///
/// A caller of a growing heap has no book: it promises its own relations, and `Lends`. Each of its calls may be refused
/// as `BadKey` or `Taken` too, if it cannot meet the key's chunk.
pub trait Lookup {
    // The results that it has returned so far.
    ghost book: { Self → List LogEntry };

    // The pass whose calls follow, and what else stays the same over them; `None` if there is no book.
    ghost setting: { Self → Option Setting };

    // Which results this implementation returns, and when. Each call relates what was before it, its argument, its
    // result, and what is after it. The book bounds all implementations; these add what one promises beyond it, such as
    // the order of its refusals.
    ghost gets: { Self → ℕ → Result Hold Refusal → Self → Type 0 };

    ghost reads: { Self → ℕ → Result (List ℕ) Refusal → Self → Type 0 };

    ghost looks: { Self → ℕ → Result (List ℕ) Refusal → Self → Type 0 };

    ghost removes: { Self → ℕ → Result (Unit {0}) Refusal → Self → Type 0 };

    ghost releases: { Self → ℕ → Result (Unit {0}) Refusal → Self → Type 0 };

    /// Takes a hold on a key, so that its value stays readable. Refused as `BadKey`, `HoldsFull`, `Memory`, `Gone` or
    /// `Crowded`.
    fn get(&mut self, key: u64) -> Result<Hold, Refusal>
        ensures leaves { IfSome (setting self.old) (λ s. GetLeaves s key (book self.old) result (book self.new)) }
        ensures stands { IfSome (setting self.new) (λ s. IsBook s (book self.new)) }
        ensures same { setting self.new ≡ setting self.old }
        ensures exact { gets self.old key result self.new };

    /// The value of a key that is held. Refused as `NotHeld`, exactly if the caller has no hold on the key.
    fn read(&mut self, hold: Hold) -> Result<Value, Refusal>
        ensures leaves { IfSome (setting self.old) (λ s. ReadLeaves s hold.key (book self.old) result (book self.new)) }
        ensures stands { IfSome (setting self.new) (λ s. IsBook s (book self.new)) }
        ensures same { setting self.new ≡ setting self.old }
        ensures exact { reads self.old hold.key result self.new };

    /// The value of a key, with no hold. Refused as `BadKey`, `Memory` or `Gone`; of a key whose insert the caller did
    /// not do, also as `HoldsFull` or `Crowded`.
    fn look(&mut self, key: u64) -> Result<Value, Refusal>
        ensures leaves { IfSome (setting self.old) (λ s. LookLeaves s key (book self.old) result (book self.new)) }
        ensures stands { IfSome (setting self.new) (λ s. IsBook s (book self.new)) }
        ensures same { setting self.new ≡ setting self.old }
        ensures exact { looks self.old key result self.new };

    /// Removes a key: no later get finds it, and its value stays until the last hold is released. Refused as `BadKey`,
    /// `Memory` or `Gone`.
    fn remove(&mut self, key: u64) -> Result<(), Refusal>
        ensures leaves { IfSome (setting self.old) (λ s. RemoveLeaves s key (book self.old) result (book self.new)) }
        ensures stands { IfSome (setting self.new) (λ s. IsBook s (book self.new)) }
        ensures same { setting self.new ≡ setting self.old }
        ensures exact { removes self.old key result self.new };

    /// Gives one hold on a key back. Refused as `NotHeld`, exactly if the caller has no hold on the key, or as
    /// `Memory`.
    fn release(&mut self, hold: Hold) -> Result<(), Refusal>
        ensures leaves { IfSome (setting self.old)
            (λ s. ReleaseLeaves s hold.key (book self.old) result (book self.new)) }
        ensures stands { IfSome (setting self.new) (λ s. IsBook s (book self.new)) }
        ensures same { setting self.new ≡ setting self.old }
        ensures exact { releases self.old hold.key result self.new };

    // What holds without a book, too.
    ghost lends: { (s : Self) → IfNone (setting s) (Lends gets reads looks releases s) };
}
