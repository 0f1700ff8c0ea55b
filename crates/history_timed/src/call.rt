//! Answers, with the times of their calls.
ghost use Rattle.std.specs.Prelude.{◌≡◌, ℕ, List};
ghost use Rattle.std.specs.Option.{option_copied};
ghost use Rattle.history_audit.specs.Followed.{Follows};
ghost use Rattle.history_audit.specs.Lines.{entries_in};
ghost use Rattle.sh_history.specs.declared.entry.Entry.{Entry as Answer};
ghost use Rattle.history_timed.specs.Calls.{entry_said, key_said, pass_said, inserts, uses, removes, finds, gets};
ghost use Rattle.history_timed.specs.Calls.{releases, returned};
ghost use Rattle.history_timed.specs.Calls.{gets_by, releases_by, changes};
ghost use Rattle.history_timed.specs.Clashes.{inserts_value, is_another};

use crate::span::Span;
use history_audit::Audit;
use sh_history::Entry;
use sh_value::Value;

/// What a line says.
#[derive(Drop, Debug, PartialEq, Eq)]
pub enum Said {
    /// This entry.
    Known(Entry),
    /// The pass got a hold on the key, whose value was not read.
    Unread(u32, u64),
}

/// An answer, the number of its line, and the times of its call.
///
/// ```text
/// let removed = Said::Known(Entry::Removed(0, 4096));
/// let call = Call { line: 7, times: Span::unended(30), said: removed };         // 30 - 0 Removed 4096
/// ```
#[derive(Drop, Debug, PartialEq, Eq)]
pub struct Call {
    /// The number of its line.
    pub line: u64,
    /// When it began and ended. A call that never ended may have done what it says at any time since it began, or not
    /// at all.
    pub times: Span,
    /// The answer.
    pub said: Said,
}

impl Said {
    /// The same again. It takes no memory.
    pub fn copy(&self) -> Said
        ensures { result ≡ self.now }
    {
        match self {
            Said::Known(entry) => Said::Known(entry.copy()),
            Said::Unread(pass, key) => Said::Unread(*pass, *key),
        }
    }

    /// The entry that it is. A get whose value was not read is of the value that the audited key was inserted with.
    pub fn entry(&self, audit: &Audit) -> Entry
        ensures { (lines : List (ℕ × Answer)) → Follows audit.now lines
            → result ≡ entry_said (entries_in lines) self.now }
    {
        match self {
            Said::Known(entry) => entry.copy(),
            Said::Unread(pass, key) => match audit.value_of(*key) {
                Some(value) => Entry::Got(*pass, *key, value.copy()),
                None => Entry::Got(*pass, *key, Value::empty()),
            },
        }
    }

    /// Its key.
    pub fn key(&self) -> u64
        ensures { result ≡ key_said self.now }
    {
        match self {
            Said::Known(entry) => match entry {
                Entry::Insert(_, key, _)
                | Entry::Got(_, key, _)
                | Entry::Gone(_, key)
                | Entry::Crowded(_, key)
                | Entry::Removed(_, key)
                | Entry::Released(_, key)
                | Entry::Seen(_, key, _) => *key,
            },
            Said::Unread(_, key) => *key,
        }
    }

    /// Its pass.
    pub fn pass(&self) -> u32
        ensures { result ≡ pass_said self.now }
    {
        match self {
            Said::Known(entry) => match entry {
                Entry::Insert(pass, _, _)
                | Entry::Got(pass, _, _)
                | Entry::Gone(pass, _)
                | Entry::Crowded(pass, _)
                | Entry::Removed(pass, _)
                | Entry::Released(pass, _)
                | Entry::Seen(pass, _, _) => *pass,
            },
            Said::Unread(pass, _) => *pass,
        }
    }

    /// Whether it inserted the key.
    pub fn inserts(&self, key: u64) -> bool
        ensures { result ≡ inserts key self.now }
    {
        matches!(self, Said::Known(Entry::Insert(_, inserted, _)) if *inserted == key)
    }

    /// Whether it inserted the key with this value.
    pub fn inserts_value(&self, key: u64, value: &Value) -> bool
        ensures { result ≡ inserts_value key value.now self.now }
    {
        match self {
            Said::Known(Entry::Insert(_, inserted, with)) => *inserted == key && with == value,
            _ => false,
        }
    }

    /// Whether it used the value of the key.
    pub fn uses(&self, key: u64) -> bool
        ensures { result ≡ uses key self.now }
    {
        match self {
            Said::Known(Entry::Got(_, used, _) | Entry::Seen(_, used, _) | Entry::Crowded(_, used))
            | Said::Unread(_, used) => *used == key,
            _ => false,
        }
    }

    /// The value of the key that it returned, if it is a get of the key or a look at it, and the value was read.
    pub fn returned(&self, key: u64) -> Option<&Value>
        ensures { option_copied result ≡ returned key self.now }
    {
        match self {
            Said::Known(Entry::Got(_, found, value) | Entry::Seen(_, found, value))
                if *found == key => Some(value),
            _ => None,
        }
    }

    /// Whether it removed the key.
    pub fn removes(&self, key: u64) -> bool
        ensures { result ≡ removes key self.now }
    {
        matches!(self, Said::Known(Entry::Removed(_, removed)) if *removed == key)
    }

    /// Whether it inserted the key or removed it.
    pub fn changes(&self, key: u64) -> bool
        ensures { result ≡ changes key self.now }
    {
        self.inserts(key) || self.removes(key)
    }

    /// Whether the key had been inserted: it inserted the key, used its value, or removed the key.
    pub fn finds(&self, key: u64) -> bool
        ensures { result ≡ finds key self.now }
    {
        self.inserts(key) || self.uses(key) || self.removes(key)
    }

    /// Whether it got a hold on the key.
    pub fn gets(&self, key: u64) -> bool
        ensures { result ≡ gets key self.now }
    {
        match self {
            Said::Known(Entry::Got(_, got, _)) | Said::Unread(_, got) => *got == key,
            _ => false,
        }
    }

    /// Whether it released a hold on the key.
    pub fn releases(&self, key: u64) -> bool
        ensures { result ≡ releases key self.now }
    {
        matches!(self, Said::Known(Entry::Released(_, released)) if *released == key)
    }

    /// Whether the pass got a hold on the key.
    pub fn gets_by(&self, pass: u32, key: u64) -> bool
        ensures { result ≡ gets_by pass key self.now }
    {
        match self {
            Said::Known(Entry::Got(by, got, _)) | Said::Unread(by, got) => {
                *by == pass && *got == key
            }
            _ => false,
        }
    }

    /// Whether the pass released a hold on the key.
    pub fn releases_by(&self, pass: u32, key: u64) -> bool
        ensures { result ≡ releases_by pass key self.now }
    {
        match self {
            Said::Known(Entry::Released(by, released)) => *by == pass && *released == key,
            _ => false,
        }
    }
}

impl Call {
    /// The same again. It takes no memory.
    pub fn copy(&self) -> Call
        ensures { result ≡ self.now }
    {
        Call {
            line: self.line,
            times: self.times,
            said: self.said.copy(),
        }
    }

    /// Whether it ended, and is that of another line.
    pub fn is_another(&self, than: &Call) -> bool
        ensures { result ≡ is_another than.now self.now }
    {
        self.line != than.line && self.times.is_ended()
    }
}
