//! The plain store, which keeps its entries, and beside them an index of what they say.
ghost use Rattle.std.specs.Prelude.{◌≡◌, ◌<◌, ◌≤◌, ◌↔◌, IsTrue, [], IfOk, Some};
ghost use Rattle.std.specs.Option.{option_copied};
ghost use Rattle.sh_history.specs.declared.entry.Entry.TheVariants.{Got, Removed, Released};
ghost use Rattle.sh_history.specs.History.{Allowed, Legal, value_of, present_value, hold_count, holds_by, holds_on};

mod replies;

use crate::index::{Held, Issued, find_hold, hold_count, holds_on, issued_at, make_room};
use crate::{Lookup, Store};
use sh_history::Entry;
use sh_key::KeyLayout;
use sh_value::{HOLDS_MAX, Hold, Refusal, Value};
use std::alloc::Global;
use std::marker::{Model, PhantomData};

/// A store that keeps the entries of all its passes, and computes the result of each call from them.
///
/// It also keeps what the entries say of each key, and the holds that they leave. So no call goes through the entries:
/// there are at most 16 holds a pass.
///
/// It knows no shape: a number is refused as `BadKey` exactly if it is no key of the layout. Its n-th insert, from 0,
/// gives the n-th key of the layout. A contract sees its entries, the pass whose calls follow, and the number of its
/// passes.
#[derive(Drop)]
pub struct PlainStore<L: KeyLayout> {
    entries: Vec<Entry>,
    pass: u32,
    passes: u32,
    issued: Vec<Issued>,
    holds: Vec<Held>,
    layout: PhantomData<L>,
}

impl<L: KeyLayout> Model for PlainStore<L> {
    ghost use Rattle.sh_plain.specs.Plain.{Plain, IsSound};

    ghost Value = { Plain };

    ghost view = { λ s. record { entries = s.entries.items; pass = s.pass; passes = s.passes } };

    ghost invariant = { λ s. IsSound L.layout s.entries.items s.pass s.passes s.issued.items s.holds.items };
}

impl<L: KeyLayout> PlainStore<L> {
    ghost use Rattle.sh_plain.specs.Plain.{plain_book};

    /// An empty store of this many passes, from 1 to 64. The calls that follow are those of pass 0.
    pub fn new(alloc: Global, passes: u32) -> Self
        requires some { 1 ≤ passes }
        requires few { passes ≤ 64 }
        ensures { result ≡ record { entries = []; pass = 0; passes = passes } }
    {
        PlainStore {
            entries: Vec::new(alloc),
            pass: 0,
            passes,
            issued: Vec::new(alloc),
            holds: Vec::new(alloc),
            layout: PhantomData,
        }
    }

    /// Sets the pass whose calls follow.
    pub fn turn(&mut self, pass: u32)
        requires { pass < self.old.passes }
        ensures { self.new ≡ record self.old { pass = pass } }
    {
        self.pass = pass;
    }

    // The value that the key was issued with.
    fn value_of(&self, key: u64) -> Option<&Value>
        ensures { option_copied result ≡ value_of self.now.entries key }
    {
        let issued = issued_at(&self.issued, L::first_key(), key)?;
        Some(&issued.value)
    }

    // The value of the key, if it was issued and not removed.
    fn present_value(&self, key: u64) -> Option<&Value>
        ensures { option_copied result ≡ present_value self.now.entries key }
    {
        let issued = issued_at(&self.issued, L::first_key(), key)?;
        if issued.removed {
            None
        } else {
            Some(&issued.value)
        }
    }

    // Whether the pass whose calls follow has a hold on the key.
    fn has_hold(&self, key: u64) -> bool
        ensures held { IsTrue result ↔ (0 < holds_by self.now.entries self.now.pass key) }
        ensures legal { Legal self.now.passes L.layout.guard_max self.now.entries }
    {
        find_hold(&self.holds, self.pass, key).is_some()
    }

    // Whether the pass whose calls follow has the most holds that it may have.
    fn has_all_holds(&self) -> bool
        ensures { IsTrue result ↔ (16 ≤ hold_count self.now.entries self.now.pass) }
    {
        hold_count(&self.holds, self.pass) >= HOLDS_MAX
    }

    // Whether the key has the most holds that it may have.
    fn is_full_of_holds(&self, key: u64) -> bool
        ensures full { IsTrue result ↔ (L.layout.guard_max ≤ holds_on self.now.entries key) }
        ensures some_pass { 1 ≤ self.now.passes }
    {
        holds_on(&self.holds, key) >= L::GUARD_MAX as usize
    }
}

impl<L: KeyLayout> PlainStore<L> {
    ghost use Rattle.sh_plain.specs.Plain.{IsUnindexed, Noted};

    // Adds an entry that may follow, and that leaves the index as it is.
    fn note(&mut self, entry: Entry) -> Result<(), Refusal>
        requires allowed { Allowed self.old.passes L.layout.guard_max self.old.entries entry }
        requires unindexed { IsUnindexed entry }
        ensures { Noted entry self.old result self.new }
    {
        match self.entries.push(entry) {
            Ok(()) => Ok(()),
            Err(_) => Err(Refusal::Memory),
        }
    }

    // Adds a get of the key, which may follow.
    fn note_got(&mut self, key: u64, value: Value) -> Result<(), Refusal>
        requires { Allowed self.old.passes L.layout.guard_max self.old.entries (Got self.old.pass key value) }
        ensures { Noted (Got self.old.pass key value) self.old result self.new }
    {
        let pass = self.pass;
        make_room(&mut self.holds)?;
        match self.entries.push(Entry::Got(pass, key, value)) {
            Ok(()) => {
                self.holds.push_reserved(Held { pass, key });
                Ok(())
            }
            Err(_) => Err(Refusal::Memory),
        }
    }

    // Adds a removal of the key, which may follow.
    fn note_removed(&mut self, key: u64) -> Result<(), Refusal>
        requires { Allowed self.old.passes L.layout.guard_max self.old.entries (Removed self.old.pass key) }
        ensures { Noted (Removed self.old.pass key) self.old result self.new }
    {
        match self.entries.push(Entry::Removed(self.pass, key)) {
            Ok(()) => {
                let at = (key - L::first_key()) as usize;
                self.issued[at].removed = true;
                Ok(())
            }
            Err(_) => Err(Refusal::Memory),
        }
    }

    // Adds a release of the key, which may follow.
    fn note_released(&mut self, key: u64) -> Result<(), Refusal>
        requires { Allowed self.old.passes L.layout.guard_max self.old.entries (Released self.old.pass key) }
        ensures { Noted (Released self.old.pass key) self.old result self.new }
    {
        let Some(at) = find_hold(&self.holds, self.pass, key) else {
            unreachable!()
        };
        match self.entries.push(Entry::Released(self.pass, key)) {
            Ok(()) => {
                self.holds.swap_remove(at);
                Ok(())
            }
            Err(_) => Err(Refusal::Memory),
        }
    }
}

impl<L: KeyLayout> Lookup for PlainStore<L> {
    ghost use Rattle.sh_plain.specs.Plain.{plain_book, plain_setting, Replied, get_reply, read_answer, remove_reply};
    ghost use Rattle.sh_plain.specs.Plain.{look_reply, release_reply};
    ghost use Rattle.sh_plain.specs.Store.{IsBook, GetLeaves, ReadLeaves, LookLeaves, RemoveLeaves, ReleaseLeaves};

    ghost book = { plain_book };

    ghost setting = { λ store. Some (plain_setting L.layout store) };

    ghost lends = { λ _. tt };

    ghost gets = { λ old key result new. Replied (get_reply L.layout old key) old result new };

    ghost reads = { λ old key result new. (result ≡ read_answer old key) × (new ≡ old) };

    ghost looks = { λ old key result new. Replied (look_reply L.layout old key) old result new };

    ghost removes = { λ old key result new. Replied (remove_reply L.layout old key) old result new };

    ghost releases = { λ old key result new. Replied (release_reply old key) old result new };

    fn get(&mut self, key: u64) -> Result<Hold, Refusal>
        ensures leaves { GetLeaves (plain_setting L.layout self.old) key (plain_book self.old) result
            (plain_book self.new) }
        ensures stands { IsBook (plain_setting L.layout self.new) (plain_book self.new) }
        ensures same { plain_setting L.layout self.new ≡ plain_setting L.layout self.old }
        ensures exact { Replied (get_reply L.layout self.old key) self.old result self.new }
    {
        let _known = &self.entries;
        let result = self.plain_get(key);
        let _known = &self.entries;
        result
    }

    fn read(&mut self, hold: Hold) -> Result<Value, Refusal>
        ensures leaves { ReadLeaves (plain_setting L.layout self.old) hold.key (plain_book self.old) result
            (plain_book self.new) }
        ensures stands { IsBook (plain_setting L.layout self.new) (plain_book self.new) }
        ensures same { plain_setting L.layout self.new ≡ plain_setting L.layout self.old }
        ensures exact { result ≡ read_answer self.old hold.key }
        ensures unchanged { self.new ≡ self.old }
    {
        self.plain_read(hold)
    }

    fn look(&mut self, key: u64) -> Result<Value, Refusal>
        ensures leaves { LookLeaves (plain_setting L.layout self.old) key (plain_book self.old) result
            (plain_book self.new) }
        ensures stands { IsBook (plain_setting L.layout self.new) (plain_book self.new) }
        ensures same { plain_setting L.layout self.new ≡ plain_setting L.layout self.old }
        ensures exact { Replied (look_reply L.layout self.old key) self.old result self.new }
    {
        let result = self.plain_look(key);
        let _known = &self.entries;
        result
    }

    fn remove(&mut self, key: u64) -> Result<(), Refusal>
        ensures leaves { RemoveLeaves (plain_setting L.layout self.old) key (plain_book self.old) result
            (plain_book self.new) }
        ensures stands { IsBook (plain_setting L.layout self.new) (plain_book self.new) }
        ensures same { plain_setting L.layout self.new ≡ plain_setting L.layout self.old }
        ensures exact { Replied (remove_reply L.layout self.old key) self.old result self.new }
    {
        let result = self.plain_remove(key);
        let _known = &self.entries;
        result
    }

    fn release(&mut self, hold: Hold) -> Result<(), Refusal>
        ensures leaves { ReleaseLeaves (plain_setting L.layout self.old) hold.key (plain_book self.old) result
            (plain_book self.new) }
        ensures stands { IsBook (plain_setting L.layout self.new) (plain_book self.new) }
        ensures same { plain_setting L.layout self.new ≡ plain_setting L.layout self.old }
        ensures exact { Replied (release_reply self.old hold.key) self.old result self.new }
    {
        self.plain_release(hold)
    }
}

impl<L: KeyLayout> Store for PlainStore<L> {
    ghost use Rattle.sh_plain.specs.Plain.{IsNewKey, plain_book, plain_setting, Replied, insert_reply};
    ghost use Rattle.sh_plain.specs.Store.{IsBook, InsertLeaves};

    ghost inserts = { λ old value result new. Replied (insert_reply L.layout old value) old result new };

    fn insert(&mut self, value: &Value) -> Result<u64, Refusal>
        ensures leaves { InsertLeaves (plain_setting L.layout self.old) value.now (plain_book self.old) result
            (plain_book self.new) }
        ensures stands { IsBook (plain_setting L.layout self.new) (plain_book self.new) }
        ensures same { plain_setting L.layout self.new ≡ plain_setting L.layout self.old }
        ensures exact { Replied (insert_reply L.layout self.old value.now) self.old result self.new }
        ensures new_key { IfOk result (IsNewKey L.layout self.old.entries) }
    {
        // Reading a field brings in what is true of each plain store: here before the call, and below after it.
        let _known = &self.entries;
        let result = self.plain_insert(value);
        let _known = &self.entries;
        result
    }
}
