//! What the plain store returns for each call, and which entry each call adds.
ghost use Rattle.std.specs.Prelude.{◌≡◌};
ghost use Rattle.sh_history.specs.History.{Legal, present_value};

use super::PlainStore;
use crate::index::{Issued, make_room};
use sh_history::Entry;
use sh_key::KeyLayout;
use sh_value::{Hold, Refusal, Value};

impl<L: KeyLayout> PlainStore<L> {
    ghost use Rattle.sh_plain.specs.Plain.{Replied, insert_reply, got_reply, get_reply, read_answer, looked_reply};
    ghost use Rattle.sh_plain.specs.Plain.{look_reply, removed_reply, remove_reply, release_reply};

    pub(super) fn plain_insert(&mut self, value: &Value) -> Result<u64, Refusal>
        ensures { Replied (insert_reply L.layout self.old value.now) self.old result self.new }
    {
        let inserted = self.issued.len() as u64;
        if inserted >= L::key_count() {
            return Err(Refusal::Full);
        }
        let key = L::first_key() + inserted;
        make_room(&mut self.issued)?;
        match self
            .entries
            .push(Entry::Insert(self.pass, key, value.copy()))
        {
            Ok(()) => {
                self.issued.push_reserved(Issued {
                    value: value.copy(),
                    removed: false,
                });
                Ok(key)
            }
            Err(_) => Err(Refusal::Memory),
        }
    }

    pub(super) fn plain_get(&mut self, key: u64) -> Result<Hold, Refusal>
        ensures { Replied (get_reply L.layout self.old key) self.old result self.new }
    {
        if L::unpack(key).is_none() {
            return Err(Refusal::BadKey);
        }
        if self.has_all_holds() {
            return Err(Refusal::HoldsFull);
        }
        self.get_key(key)
    }

    // A get of a key, if the pass has room for a hold.
    fn get_key(&mut self, key: u64) -> Result<Hold, Refusal>
        ensures { Replied (got_reply L.layout self.old key (present_value self.old.entries key)) self.old result
            self.new }
    {
        let pass = self.pass;
        let crowded = self.is_full_of_holds(key);
        match self.present_value(key) {
            Some(_) if crowded => {
                self.note(Entry::Crowded(pass, key))?;
                Err(Refusal::Crowded)
            }
            Some(value) => {
                let value = value.copy();
                self.note_got(key, value)?;
                Ok(Hold { key })
            }
            None => {
                self.note(Entry::Gone(pass, key))?;
                Err(Refusal::Gone)
            }
        }
    }

    pub(super) fn plain_read(&self, hold: Hold) -> Result<Value, Refusal>
        ensures exact { result ≡ read_answer self.now hold.key }
        ensures legal { Legal self.now.passes L.layout.guard_max self.now.entries }
    {
        if !self.has_hold(hold.key) {
            return Err(Refusal::NotHeld);
        }
        match self.value_of(hold.key) {
            Some(value) => Ok(value.copy()),
            // No history has a hold on a key that was not issued.
            None => Err(Refusal::NotHeld),
        }
    }

    pub(super) fn plain_look(&mut self, key: u64) -> Result<Value, Refusal>
        ensures { Replied (look_reply L.layout self.old key) self.old result self.new }
    {
        if L::unpack(key).is_none() {
            return Err(Refusal::BadKey);
        }
        self.look_key(key)
    }

    // A look at a key of the layout.
    fn look_key(&mut self, key: u64) -> Result<Value, Refusal>
        ensures { Replied (looked_reply self.old key (present_value self.old.entries key)) self.old result self.new }
    {
        let pass = self.pass;
        let Some(value) = self.present_value(key) else {
            self.note(Entry::Gone(pass, key))?;
            return Err(Refusal::Gone);
        };
        let value = value.copy();
        self.note(Entry::Seen(pass, key, value.copy()))?;
        Ok(value)
    }

    pub(super) fn plain_remove(&mut self, key: u64) -> Result<(), Refusal>
        ensures { Replied (remove_reply L.layout self.old key) self.old result self.new }
    {
        if L::unpack(key).is_none() {
            return Err(Refusal::BadKey);
        }
        self.remove_key(key)
    }

    fn remove_key(&mut self, key: u64) -> Result<(), Refusal>
        ensures { Replied (removed_reply self.old key (present_value self.old.entries key)) self.old result self.new }
    {
        let pass = self.pass;
        if self.present_value(key).is_some() {
            self.note_removed(key)
        } else {
            self.note(Entry::Gone(pass, key))?;
            Err(Refusal::Gone)
        }
    }

    pub(super) fn plain_release(&mut self, hold: Hold) -> Result<(), Refusal>
        ensures exact { Replied (release_reply self.old hold.key) self.old result self.new }
        ensures legal { Legal self.old.passes L.layout.guard_max self.old.entries }
    {
        if self.has_hold(hold.key) {
            self.note_released(hold.key)
        } else {
            Err(Refusal::NotHeld)
        }
    }
}
