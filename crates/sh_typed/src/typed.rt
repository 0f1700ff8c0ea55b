//! Records of one type in a store.
ghost use Rattle.std.specs.Prelude.{◌≡◌, ◌∷◌, ℕ, IfSome, List, OnSome};
ghost use Rattle.std.specs.List.{Contains};
ghost use Rattle.sh_history.specs.declared.entry.Entry.TheVariants.{Insert};
ghost use Rattle.sh_history.specs.declared.log.LogEntry.TheVariants.{Known};
ghost use Rattle.sh_plain.specs.Store.{IsBook, InsertLeaves, LookLeaves, RemoveLeaves, ReleaseLeaves};
ghost use Rattle.sh_typed.specs.Typed.{AsRecord, FetchesRecord, GivesBack, RecordLeaves, SeesBack, record_in};

use crate::fetch::fetch_record;
use crate::look::look_record;
use crate::stored::stored_value;
use sh_plain::{Lookup, Store};
use sh_value::{Hold, Record, Refusal};
use std::marker::{Model, PhantomData};

/// The records of one type in a store: each is stored as its kind and then its words.
///
/// Any implementation of `Lookup` may look at, get, remove and release them, as a pass does:
/// `Typed::<_, (u64, u64)>::new(pass)`. Only a store can insert them, as a shard or a caller of a growing heap. A
/// contract sees the store itself. Other keys of the store may have records of another kind.
#[derive(Drop)]
pub struct Typed<S: Lookup, R: Record> {
    store: S,
    record: PhantomData<R>,
}

impl<S: Lookup, R: Record> Model for Typed<S, R> {
    ghost Value = { S };

    ghost view = { λ t. t.store };
}

impl<S: Lookup, R: Record> Typed<S, R> {
    /// The records in a store.
    pub fn new(store: S) -> Self
        ensures { result ≡ store }
    {
        let record = PhantomData;
        Typed { store, record }
    }

    /// The store.
    pub fn into_store(self) -> S
        ensures { result ≡ self }
    {
        let Typed { store, record: _ } = self;
        store
    }

    /// Takes a hold on a key, and returns it with the record. Refused as the store refuses a get, and as `WrongKind` if
    /// the key's value is of another kind or does not decode: then the hold is released again. If that release is
    /// refused for memory, this is refused as `Memory`, and the hold stays.
    ///
    /// A record whose insert is in the book is given back, or the get is refused as the store refuses a get.
    pub fn get(&mut self, key: u64) -> Result<(Hold, R), Refusal>
        ensures leaves { IfSome (S.setting self.old) (λ s. RecordLeaves (record_in R.KIND R.record_of) s key
            (S.book self.old) result (S.book self.new)) }
        ensures given { OnSome (S.setting self.old) ((pass : ℕ) (value : List ℕ) (given : R)
            → Contains (S.book self.old) (Known (Insert pass key value))
            → record_in R.KIND R.record_of value ≡ Some given → GivesBack given result) }
        ensures stands { IfSome (S.setting self.new) (λ s. IsBook s (S.book self.new)) }
        ensures same { S.setting self.new ≡ S.setting self.old }
        ensures exact { FetchesRecord (record_in R.KIND R.record_of) S.gets S.reads S.releases self.old key result
            self.new }
    {
        fetch_record(&mut self.store, key)
    }

    /// The record of a key, with no hold: `let session = sessions.look(key)?;`. Refused as the store refuses a look,
    /// and as `WrongKind` if the key's value is of another kind or does not decode.
    ///
    /// A record whose insert is in the book is given back, or the look is refused as the store refuses a look.
    pub fn look(&mut self, key: u64) -> Result<R, Refusal>
        ensures leaves { IfSome (S.setting self.old) (λ s. AsRecord (record_in R.KIND R.record_of)
            (λ answer. LookLeaves s key (S.book self.old) answer (S.book self.new)) result) }
        ensures given { OnSome (S.setting self.old) ((pass : ℕ) (value : List ℕ) (given : R)
            → Contains (S.book self.old) (Known (Insert pass key value))
            → record_in R.KIND R.record_of value ≡ Some given → SeesBack given result) }
        ensures stands { IfSome (S.setting self.new) (λ s. IsBook s (S.book self.new)) }
        ensures same { S.setting self.new ≡ S.setting self.old }
        ensures exact { AsRecord (record_in R.KIND R.record_of) (λ answer. S.looks self.old key answer self.new)
            result }
    {
        look_record(&mut self.store, key)
    }

    /// Removes a key, whatever its value is, as the store does. Refused as `BadKey`, `Memory` or `Gone`.
    pub fn remove(&mut self, key: u64) -> Result<(), Refusal>
        ensures leaves { IfSome (S.setting self.old)
            (λ s. RemoveLeaves s key (S.book self.old) result (S.book self.new)) }
        ensures stands { IfSome (S.setting self.new) (λ s. IsBook s (S.book self.new)) }
        ensures same { S.setting self.new ≡ S.setting self.old }
        ensures exact { S.removes self.old key result self.new }
    {
        self.store.remove(key)
    }

    /// Gives one hold on a key back, as the store does. Refused as `NotHeld`, exactly if the caller has no hold on the
    /// key, or as `Memory`.
    pub fn release(&mut self, hold: Hold) -> Result<(), Refusal>
        ensures leaves { IfSome (S.setting self.old)
            (λ s. ReleaseLeaves s hold.key (S.book self.old) result (S.book self.new)) }
        ensures stands { IfSome (S.setting self.new) (λ s. IsBook s (S.book self.new)) }
        ensures same { S.setting self.new ≡ S.setting self.old }
        ensures exact { S.releases self.old hold.key result self.new }
    {
        self.store.release(hold)
    }
}

impl<S: Store, R: Record> Typed<S, R> {
    /// Stores a record under a new key, and returns the key. Refused as the store refuses an insert.
    ///
    /// The stored value reads as the same record.
    pub fn insert(&mut self, stored: &R) -> Result<u64, Refusal>
        ensures leaves { IfSome (S.setting self.old)
            (λ s. InsertLeaves s (R.KIND ∷ R.words stored.now) (S.book self.old) result (S.book self.new)) }
        ensures decodes { record_in R.KIND R.record_of (R.KIND ∷ R.words stored.now) ≡ Some stored.now }
        ensures stands { IfSome (S.setting self.new) (λ s. IsBook s (S.book self.new)) }
        ensures same { S.setting self.new ≡ S.setting self.old }
        ensures exact { S.inserts self.old (R.KIND ∷ R.words stored.now) result self.new }
    {
        let value = stored_value(stored);
        self.store.insert(&value)
    }
}
