//! What a history says of a key.
ghost use Rattle.std.specs.Prelude.{◌≡◌, ◌+◌, ◌<◌, ◌↔◌, IsTrue, count_by};
ghost use Rattle.std.specs.Option.{option_copied};
ghost use Rattle.sh_history.specs.History.{value_of, is_removed, present_value, got_count, released_count};
ghost use Rattle.sh_history.specs.History.{got_count_by, released_count_by, holds_on, holds_by, hold_count};
ghost use Rattle.sh_history.specs.History.{is_got_from, is_release_from};

use crate::Entry;
use sh_value::Value;

/// The value that the key was issued with.
pub fn value_of(entries: &[Entry], key: u64) -> Option<&Value>
    ensures { option_copied result ≡ value_of entries.now key }
{
    for entry in entries {
        if let Entry::Insert(_, issued, value) = entry
            && *issued == key
        {
            return Some(value);
        }
    }
    None
}

/// Whether the key was removed.
pub fn is_removed(entries: &[Entry], key: u64) -> bool
    ensures { result ≡ is_removed entries.now key }
{
    entries.iter().any(|entry| matches!(entry, Entry::Removed(_, removed) if *removed == key))
}

/// The value of the key, if it was issued and not removed.
pub fn present_value(entries: &[Entry], key: u64) -> Option<&Value>
    ensures { option_copied result ≡ present_value entries.now key }
{
    if is_removed(entries, key) {
        None
    } else {
        value_of(entries, key)
    }
}

// How often the key was got.
fn got_count(entries: &[Entry], key: u64) -> usize
    ensures { result ≡ got_count entries.now key }
{
    entries
        .iter()
        .filter(|entry| matches!(entry, Entry::Got(_, got, _) if *got == key))
        .count()
}

// How often the key was released.
fn released_count(entries: &[Entry], key: u64) -> usize
    ensures { result ≡ released_count entries.now key }
{
    entries
        .iter()
        .filter(|entry| matches!(entry, Entry::Released(_, released) if *released == key))
        .count()
}

// How often the pass got the key.
fn got_count_by(entries: &[Entry], pass: u32, key: u64) -> usize
    ensures { result ≡ got_count_by entries.now pass key }
{
    entries
        .iter()
        .filter(|entry| matches!(entry, Entry::Got(by, got, _) if *by == pass && *got == key))
        .count()
}

// How often the pass released the key.
fn released_count_by(entries: &[Entry], pass: u32, key: u64) -> usize
    ensures { result ≡ released_count_by entries.now pass key }
{
    entries
        .iter()
        .filter(
            |entry| matches!(entry, Entry::Released(by, released) if *by == pass && *released == key),
        )
        .count()
}

/// How many holds the pass has.
pub fn hold_count(entries: &[Entry], pass: u32) -> usize
    ensures { result ≡ hold_count entries.now pass }
{
    got_by(entries, pass).saturating_sub(released_by(entries, pass))
}

// How many holds the pass got.
fn got_by(entries: &[Entry], pass: u32) -> usize
    ensures { result ≡ count_by (is_got_from pass) entries.now }
{
    entries
        .iter()
        .filter(|entry| matches!(entry, Entry::Got(by, _, _) if *by == pass))
        .count()
}

// How many holds the pass released.
fn released_by(entries: &[Entry], pass: u32) -> usize
    ensures { result ≡ count_by (is_release_from pass) entries.now }
{
    entries
        .iter()
        .filter(|entry| matches!(entry, Entry::Released(by, _) if *by == pass))
        .count()
}

/// How many holds there are on the key.
pub fn holds_on(entries: &[Entry], key: u64) -> usize
    ensures { result ≡ holds_on entries.now key }
{
    got_count(entries, key).saturating_sub(released_count(entries, key))
}

/// Whether this many passes, each in the middle of a call, could bring the holds on the key above the greatest count.
pub fn is_crowded(entries: &[Entry], key: u64, passes: u32, guard_max: u32) -> bool
    ensures { IsTrue result ↔ (guard_max < holds_on entries.now key + passes) }
{
    holds_on(entries, key) as u128 + passes as u128 > guard_max as u128
}

/// Whether the pass has a hold on the key.
pub fn is_held_by(entries: &[Entry], pass: u32, key: u64) -> bool
    ensures { IsTrue result ↔ (0 < holds_by entries.now pass key) }
{
    got_count_by(entries, pass, key) > released_count_by(entries, pass, key)
}
