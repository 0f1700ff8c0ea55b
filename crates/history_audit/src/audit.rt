//! A history that is judged while it comes.
ghost use Rattle.std.specs.Prelude.{◌≡◌, ℕ, List, [], ◌∷◌, ◌++◌, IfOk, OnOk, OnErr, MatchOption};
ghost use Rattle.std.specs.Option.{option_copied};
ghost use Rattle.sh_history.specs.declared.entry.Entry.{Entry as Said};
ghost use Rattle.sh_history.specs.declared.entry.Entry.TheVariants.{Got, Removed, Released};
ghost use Rattle.sh_history.specs.History.{value_of, insert_count, Allowed};
ghost use Rattle.history_audit.specs.Lines.{entries_in};
ghost use Rattle.history_audit.specs.Noted.{IsJudged};
ghost use Rattle.history_audit.specs.Followed.{Follows};

use crate::clash::{Clash, of_crowded, of_gone, of_insert, of_read, of_released, of_removed};
use crate::holds::Holds;
use crate::note::Note;
use sh_history::Entry;
use sh_value::Value;
use std::alloc::{AllocError, Global};
use std::collections::HashMap;

/// What a legal history has said so far, as far as the next entry needs it: a note on each key that was inserted, and
/// the holds.
///
/// ```text
/// let mut audit = Audit::new(alloc, 1, 4);
/// audit.push(1, &Entry::Insert(0, 4096, Value::of([7])))?;                   // None
/// audit.push(2, &Entry::Removed(0, 4096))?;                                  // None
/// audit.push(3, &Entry::Got(0, 4096, Value::of([7])))?;                      // AfterRemoval, by line 2
/// ```
#[derive(Drop)]
pub struct Audit {
    passes: u32,
    guard_max: u32,
    notes: HashMap<u64, Note>,
    holds: Holds,
}

impl Audit {
    /// Before the first entry, of a map with this number of passes. A key may have at most `guard_max` holds.
    pub fn new(alloc: Global, passes: u32, guard_max: u32) -> Audit
        ensures follows { Follows result [] }
        ensures passes { result.passes ≡ passes }
        ensures guard_max { result.guard_max ≡ guard_max }
    {
        Audit {
            passes,
            guard_max,
            notes: HashMap::new(alloc),
            holds: Holds::new(alloc),
        }
    }

    /// How many passes there are.
    pub fn passes(&self) -> u32
        ensures { result ≡ self.now.passes }
    {
        self.passes
    }

    /// How many holds a key may have.
    pub fn guard_max(&self) -> u32
        ensures { result ≡ self.now.guard_max }
    {
        self.guard_max
    }

    /// How many keys were inserted.
    pub fn keys(&self) -> usize
        ensures { (lines : List (ℕ × Said)) → Follows self.now lines → result ≡ insert_count (entries_in lines) }
    {
        self.notes.len()
    }

    /// The value that the key was inserted with.
    pub fn value_of(&self, key: u64) -> Option<&Value>
        ensures { (lines : List (ℕ × Said)) → Follows self.now lines
            → option_copied result ≡ value_of (entries_in lines) key }
    {
        match self.notes.get(&key) {
            Some(note) => Some(&note.value),
            None => None,
        }
    }

    // Why the entry is not allowed now.
    fn clash(&self, entry: &Entry) -> Option<Clash>
        ensures { (lines : List (ℕ × Said)) → Follows self.now lines
            → IsJudged self.now.passes self.now.guard_max lines entry.now result }
    {
        match entry {
            Entry::Insert(_, key, _) => of_insert(self.notes.get(key)),
            Entry::Got(_, key, value) => of_read(self.notes.get(key), value),
            Entry::Seen(_, key, value) => of_read(self.notes.get(key), value),
            Entry::Gone(_, key) => of_gone(self.notes.get(key)),
            Entry::Crowded(_, key) => {
                of_crowded(self.notes.get(key), self.passes, self.guard_max)
            }
            Entry::Removed(_, key) => of_removed(self.notes.get(key)),
            Entry::Released(pass, key) => of_released(self.holds.count(*pass, *key)),
        }
    }

    // Notes a get of a key that was inserted.
    fn note_got(&mut self, pass: u32, key: u64) -> Result<(), AllocError>
        ensures ok { (lines : List (ℕ × Said)) (line : ℕ) (value : List ℕ) → Follows self.old lines
            → Allowed self.old.passes self.old.guard_max (entries_in lines) (Got pass key value)
            → OnOk result (Follows self.new (lines ++ (line, (Got pass key value)) ∷ [])) }
        ensures err { (lines : List (ℕ × Said)) → Follows self.old lines → OnErr result (Follows self.new lines) }
        ensures passes { self.new.passes ≡ self.old.passes }
        ensures guard_max { self.new.guard_max ≡ self.old.guard_max }
    {
        let Some(note) = self.notes.get(&key) else {
            return Ok(());
        };
        let Some(got) = note.got.checked_add(1) else {
            return Err(AllocError);
        };
        self.holds.add(pass, key)?;
        if let Some(note) = self.notes.get_mut(&key) {
            note.got = got;
        }
        Ok(())
    }

    // Notes the removal of a key that was inserted.
    fn note_removed(&mut self, line: u64, key: u64)
        ensures ok { (lines : List (ℕ × Said)) (pass : ℕ) → Follows self.old lines
            → Allowed self.old.passes self.old.guard_max (entries_in lines) (Removed pass key)
            → (Follows self.new (lines ++ (line, (Removed pass key)) ∷ [])) }
        ensures passes { self.new.passes ≡ self.old.passes }
        ensures guard_max { self.new.guard_max ≡ self.old.guard_max }
    {
        if let Some(note) = self.notes.get_mut(&key) {
            note.removed = Some(line);
        }
    }

    // Notes a release of a key that was inserted.
    fn note_released(&mut self, pass: u32, key: u64) -> Result<(), AllocError>
        ensures ok { (lines : List (ℕ × Said)) (line : ℕ) → Follows self.old lines
            → Allowed self.old.passes self.old.guard_max (entries_in lines) (Released pass key)
            → OnOk result (Follows self.new (lines ++ (line, (Released pass key)) ∷ [])) }
        ensures err { (lines : List (ℕ × Said)) → Follows self.old lines → OnErr result (Follows self.new lines) }
        ensures passes { self.new.passes ≡ self.old.passes }
        ensures guard_max { self.new.guard_max ≡ self.old.guard_max }
    {
        let Some(note) = self.notes.get(&key) else {
            return Ok(());
        };
        let Some(released) = note.released.checked_add(1) else {
            return Err(AllocError);
        };
        self.holds.take(pass, key);
        if let Some(note) = self.notes.get_mut(&key) {
            note.released = released;
        }
        Ok(())
    }

    // Notes an entry that is allowed.
    fn note(&mut self, line: u64, entry: &Entry) -> Result<(), AllocError>
        ensures ok { (lines : List (ℕ × Said)) → Follows self.old lines
            → Allowed self.old.passes self.old.guard_max (entries_in lines) entry.now
            → OnOk result (Follows self.new (lines ++ (line, entry.now) ∷ [])) }
        ensures err { (lines : List (ℕ × Said)) → Follows self.old lines → OnErr result (Follows self.new lines) }
        ensures passes { self.new.passes ≡ self.old.passes }
        ensures guard_max { self.new.guard_max ≡ self.old.guard_max }
    {
        match entry {
            Entry::Insert(_, key, value) => {
                self.notes.insert(*key, Note::new(line, value))?;
            }
            Entry::Got(pass, key, _) => self.note_got(*pass, *key)?,
            Entry::Gone(_, _) => {}
            Entry::Crowded(_, _) => {}
            Entry::Seen(_, _, _) => {}
            Entry::Removed(_, key) => self.note_removed(line, *key),
            Entry::Released(pass, key) => self.note_released(*pass, *key)?,
        }
        Ok(())
    }

    /// Judges the next entry, which has this number, as that of its line in a file. `None` says that it is allowed by
    /// those before it, and then it belongs to the history. One that is not allowed is left out, and so is one for
    /// which memory is refused. Then the audit is as before, and may go on.
    ///
    /// Refused if memory is, or if a key was got or released 2^64 - 1 times.
    pub fn push(&mut self, line: u64, entry: &Entry) -> Result<Option<Clash>, AllocError>
        ensures judged { (lines : List (ℕ × Said)) → Follows self.old lines
            → IfOk result (IsJudged self.old.passes self.old.guard_max lines entry.now) }
        ensures taken { (lines : List (ℕ × Said)) → Follows self.old lines
            → IfOk result (λ clash. MatchOption clash (Follows self.new (lines ++ (line, entry.now) ∷ []))
            (λ _. Follows self.new lines)) }
        ensures err { (lines : List (ℕ × Said)) → Follows self.old lines → OnErr result (Follows self.new lines) }
        ensures passes { self.new.passes ≡ self.old.passes }
        ensures guard_max { self.new.guard_max ≡ self.old.guard_max }
    {
        if let Some(clash) = self.clash(entry) {
            return Ok(Some(clash));
        }
        self.note(line, entry)?;
        Ok(None)
    }
}
