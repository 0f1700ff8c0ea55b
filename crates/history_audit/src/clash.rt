//! Why an entry is not allowed, judged by what is noted of its key.
ghost use Rattle.std.specs.Prelude.{◌≡◌, ℕ, List, Some, None, option_map};
ghost use Rattle.std.specs.Option.{option_copied};
ghost use Rattle.sh_history.specs.History.{holds_by};
ghost use Rattle.sh_history.specs.declared.entry.Entry.{Entry};
ghost use Rattle.sh_history.specs.declared.entry.Entry.TheVariants.{Insert, Got, Gone, Crowded, Removed, Released};
ghost use Rattle.sh_history.specs.declared.entry.Entry.TheVariants.{Seen};
ghost use Rattle.sh_history.specs.declared.checker.Why.TheVariants.{AfterRemoval};
ghost use Rattle.history_audit.specs.Lines.{entries_in};
ghost use Rattle.history_audit.specs.Noted.{IsNote, IsJudged};

use crate::note::Note;
use sh_history::Why;
use sh_value::Value;

/// Why an entry is not allowed, and what it clashes with.
#[derive(Clone, Copy, Debug, PartialEq, Eq)]
pub struct Clash {
    /// The reason, of several the first in the order of `Why`.
    pub why: Why,
    /// The line of the key's insert for `NotNew`, `OtherValue` and `StillThere`, and that of its first removal for
    /// `AfterRemoval`. The other reasons are about what is missing, and name no line.
    pub by: Option<u64>,
}

// A clash with what is missing.
fn missing(why: Why) -> Option<Clash>
    ensures { result ≡ Some (record { why = why; by = None }) }
{
    Some(Clash { why, by: None })
}

// A clash with the insert.
fn with_insert(why: Why, note: &Note) -> Option<Clash>
    ensures { result ≡ Some (record { why = why; by = Some note.now.inserted }) }
{
    let by = Some(note.inserted);
    Some(Clash { why, by })
}

// A clash with the removal, if there is one.
fn with_removal(note: &Note) -> Option<Clash>
    ensures { result ≡ option_map (λ line. record { why = AfterRemoval; by = Some line }) note.now.removed }
{
    match note.removed {
        Some(line) => Some(Clash {
            why: Why::AfterRemoval,
            by: Some(line),
        }),
        None => None,
    }
}

/// Why the key may not be inserted.
pub fn of_insert(note: Option<&Note>) -> Option<Clash>
    ensures { (passes guard_max : ℕ) (lines : List (ℕ × Entry)) (pass key : ℕ) (value : List ℕ)
        → IsNote lines key (option_copied note.entry)
        → IsJudged passes guard_max lines (Insert pass key value) result }
{
    match note {
        None => None,
        Some(note) => with_insert(Why::NotNew, note),
    }
}

/// Why a get or a look may not give this value.
pub fn of_read(note: Option<&Note>, value: &Value) -> Option<Clash>
    ensures got { (passes guard_max : ℕ) (lines : List (ℕ × Entry)) (pass key : ℕ)
        → IsNote lines key (option_copied note.entry)
        → IsJudged passes guard_max lines (Got pass key value.now) result }
    ensures seen { (passes guard_max : ℕ) (lines : List (ℕ × Entry)) (pass key : ℕ)
        → IsNote lines key (option_copied note.entry)
        → IsJudged passes guard_max lines (Seen pass key value.now) result }
{
    match note {
        None => missing(Why::NotIssued),
        Some(note) => {
            if note.value != *value {
                with_insert(Why::OtherValue, note)
            } else {
                with_removal(note)
            }
        }
    }
}

/// Why the key may not be called gone.
pub fn of_gone(note: Option<&Note>) -> Option<Clash>
    ensures { (passes guard_max : ℕ) (lines : List (ℕ × Entry)) (pass key : ℕ)
        → IsNote lines key (option_copied note.entry)
        → IsJudged passes guard_max lines (Gone pass key) result }
{
    match note {
        None => None,
        Some(note) => match note.removed {
            Some(_) => None,
            None => with_insert(Why::StillThere, note),
        },
    }
}

/// Why the key may not be called crowded.
pub fn of_crowded(note: Option<&Note>, passes: u32, guard_max: u32) -> Option<Clash>
    ensures { (lines : List (ℕ × Entry)) (pass key : ℕ) → IsNote lines key (option_copied note.entry)
        → IsJudged passes guard_max lines (Crowded pass key) result }
{
    match note {
        None => missing(Why::NotIssued),
        Some(note) => match note.removed {
            Some(_) => with_removal(note),
            None => {
                if note.is_crowded(passes, guard_max) {
                    None
                } else {
                    missing(Why::NotCrowded)
                }
            }
        },
    }
}

/// Why the key may not be removed.
pub fn of_removed(note: Option<&Note>) -> Option<Clash>
    ensures { (passes guard_max : ℕ) (lines : List (ℕ × Entry)) (pass key : ℕ)
        → IsNote lines key (option_copied note.entry)
        → IsJudged passes guard_max lines (Removed pass key) result }
{
    match note {
        None => missing(Why::NotIssued),
        Some(note) => with_removal(note),
    }
}

/// Why a pass with this number of holds on the key may not release one.
pub fn of_released(holds: u64) -> Option<Clash>
    ensures { (passes guard_max : ℕ) (lines : List (ℕ × Entry)) (pass key : ℕ)
        → holds ≡ holds_by (entries_in lines) pass key
        → IsJudged passes guard_max lines (Released pass key) result }
{
    if holds == 0 {
        missing(Why::NotHeld)
    } else {
        None
    }
}
