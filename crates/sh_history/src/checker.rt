//! The checker of histories.
ghost use Rattle.std.specs.Prelude.{◌≡◌, ◌↔◌, IsOk, IfErr, MatchOption};
ghost use Rattle.sh_history.specs.History.{Allowed, Legal, MayRead};
ghost use Rattle.sh_history.specs.FirstFault.{IsWhy, IsWhyUnread, IsFirstFault};

use crate::Entry;
use crate::look::{is_crowded, is_held_by, is_removed, value_of};
use sh_value::Value;

/// Why an entry may not follow those before it.
#[derive(Clone, Copy, Debug, PartialEq, Eq)]
pub enum Why {
    /// An insert gives a key that was inserted before.
    NotNew,
    /// The key was not inserted.
    NotIssued,
    /// A get or a look gives another value than the key was inserted with.
    OtherValue,
    /// The key was removed.
    AfterRemoval,
    /// A key is called gone although it was inserted and not removed.
    StillThere,
    /// A key is called crowded although the passes could not have brought its holds above the greatest count.
    NotCrowded,
    /// The pass releases a key on which it has no hold.
    NotHeld,
}

// Why the key may not be read as this value after these: the first reason of the list above that holds, or `None` if
// it may.
fn why_not_read(before: &[Entry], key: u64, value: &Value) -> Option<Why>
    ensures { MatchOption result (MayRead before.now key value.now) (IsWhyUnread before.now key value.now) }
{
    match value_of(before, key) {
        None => Some(Why::NotIssued),
        Some(issued) => {
            if issued != value {
                Some(Why::OtherValue)
            } else if is_removed(before, key) {
                Some(Why::AfterRemoval)
            } else {
                None
            }
        }
    }
}

// Why the entry may not follow these: the first reason of the list above that holds, or `None` if it may follow.
fn why_not(before: &[Entry], entry: &Entry, passes: u32, guard_max: u32) -> Option<Why>
    ensures { MatchOption result (Allowed passes guard_max before.now entry.now)
        (IsWhy passes guard_max before.now entry.now) }
{
    match entry {
        Entry::Insert(_, key, _) => match value_of(before, *key) {
            None => None,
            Some(_) => Some(Why::NotNew),
        },
        Entry::Got(_, key, value) => why_not_read(before, *key, value),
        Entry::Seen(_, key, value) => why_not_read(before, *key, value),
        Entry::Gone(_, key) => match value_of(before, *key) {
            None => None,
            Some(_) => {
                if is_removed(before, *key) {
                    None
                } else {
                    Some(Why::StillThere)
                }
            }
        },
        Entry::Crowded(_, key) => match value_of(before, *key) {
            None => Some(Why::NotIssued),
            Some(_) => {
                if is_removed(before, *key) {
                    Some(Why::AfterRemoval)
                } else if is_crowded(before, *key, passes, guard_max) {
                    None
                } else {
                    Some(Why::NotCrowded)
                }
            }
        },
        Entry::Removed(_, key) => match value_of(before, *key) {
            None => Some(Why::NotIssued),
            Some(_) => {
                if is_removed(before, *key) {
                    Some(Why::AfterRemoval)
                } else {
                    None
                }
            }
        },
        Entry::Released(pass, key) => {
            if is_held_by(before, *pass, *key) {
                None
            } else {
                Some(Why::NotHeld)
            }
        }
    }
}

/// Returns `Ok` if each entry is allowed after those before it. Otherwise it returns the position of the first entry
/// that is not, and why.
pub fn check(entries: &[Entry], passes: u32, guard_max: u32) -> Result<(), (usize, Why)>
    ensures yes { IsOk result ↔ Legal passes guard_max entries.now }
    ensures no { IfErr result (λ fault. IsFirstFault passes guard_max entries.now fault.0 fault.1) }
{
    for (at, entry) in entries.iter().enumerate() {
        if let Some(why) = why_not(&entries[..at], entry, passes, guard_max) {
            return Err((at, why));
        }
    }
    Ok(())
}
