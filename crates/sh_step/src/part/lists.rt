//! The lists of a pass's own part. Lists are newest first, and each call walks one.
ghost use Rattle.std.specs.Prelude.{◌≡◌, ◌==◌, ◌+◌, ◌<◌, ◌≤◌, ◌∷◌, not, filter, IsOk};
ghost use Rattle.std.specs.Prelude.{OnOk, OnErr, IfErr};
ghost use Rattle.std.specs.VecDeque.{deque_len, deque_capacity};
ghost use Rattle.std.specs.List.{list_any, find, position};
ghost use Rattle.sh_step.specs.Collections.{has, noted, without, off};

use sh_value::Refusal;
use std::collections::VecDeque;

// Whether a number is this one.
fn any_number(numbers: &VecDeque<u64>, number: u64) -> bool
    ensures { result ≡ list_any (λ x. x == number) numbers.now.items }
{
    numbers.iter().any(|x| *x == number)
}

// The newest note for the number.
fn newest_note(notes: &VecDeque<(u64, u64)>, number: u64) -> Option<(u64, u64)>
    ensures { result ≡ find (λ x. x.0 == number) notes.now.items }
{
    notes.iter().copied().find(|note| note.0 == number)
}

// The first position of the number.
fn number_at(numbers: &VecDeque<u64>, number: u64) -> Option<usize>
    ensures { result ≡ position (λ x. x == number) numbers.now.items }
{
    numbers.iter().position(|x| *x == number)
}

// The position of the newest note for the number.
fn note_at(notes: &VecDeque<(u64, u64)>, number: u64) -> Option<usize>
    ensures { result ≡ position (λ x. x.0 == number) notes.now.items }
{
    notes.iter().position(|note| note.0 == number)
}

// Keeps the notes for other numbers.
fn keep_other_notes(notes: &mut VecDeque<(u64, u64)>, number: u64)
    ensures items { notes.new.items ≡ filter (λ x. not (x.0 == number)) notes.old.items }
    ensures capacity { deque_capacity notes.new ≡ deque_capacity notes.old }
    ensures fewer { deque_len notes.new ≤ deque_len notes.old }
{
    notes.retain(|note| note.0 != number);
}

// Keeps the words of other keys.
fn keep_other_words(words: &mut VecDeque<(u64, u64, u64)>, key: u64)
    ensures { words.new.items ≡ filter (λ x. not (x.0 == key)) words.old.items }
{
    words.retain(|word| word.0 != key);
}

/// Whether the number is there.
pub fn has_number(numbers: &VecDeque<u64>, number: u64) -> bool
    ensures { result ≡ has (λ x. x == number) numbers.now.items }
{
    any_number(numbers, number)
}

/// What is noted for the number.
pub fn value_noted(notes: &VecDeque<(u64, u64)>, number: u64) -> Option<u64>
    ensures { result ≡ noted number notes.now.items }
{
    match newest_note(notes, number) {
        Some(note) => Some(note.1),
        None => None,
    }
}

/// Takes the number out once, if it is there.
pub fn remove_number(numbers: &mut VecDeque<u64>, number: u64)
    ensures { numbers.new.items ≡ without (λ x. x == number) numbers.old.items }
{
    if let Some(i) = number_at(numbers, number) {
        numbers.remove(i);
    }
}

/// Takes the newest note for the number out, if there is one.
pub fn remove_note(notes: &mut VecDeque<(u64, u64)>, number: u64)
    ensures items { notes.new.items ≡ without (λ x. x.0 == number) notes.old.items }
    ensures capacity { deque_capacity notes.new ≡ deque_capacity notes.old }
    ensures fewer { deque_len notes.new ≤ deque_len notes.old }
{
    if let Some(i) = note_at(notes, number) {
        notes.remove(i);
    }
}

/// Takes all notes for the number out.
pub fn forget_notes(notes: &mut VecDeque<(u64, u64)>, number: u64)
    ensures items { notes.new.items ≡ off (λ x. x.0 == number) notes.old.items }
    ensures capacity { deque_capacity notes.new ≡ deque_capacity notes.old }
    ensures fewer { deque_len notes.new ≤ deque_len notes.old }
{
    keep_other_notes(notes, number);
}

/// Takes all words of the key out.
pub fn forget_words(words: &mut VecDeque<(u64, u64, u64)>, key: u64)
    ensures { words.new.items ≡ off (λ x. x.0 == key) words.old.items }
{
    keep_other_words(words, key);
}

/// Puts the item first. If memory is refused, the list stays as it is; if it has room, none is asked for.
pub fn put_first<T: Copy + Drop>(items: &mut VecDeque<T>, item: T) -> Result<(), Refusal>
    ensures ok { OnOk result (items.new.items ≡ item ∷ items.old.items) }
    ensures err { OnErr result (items.new.items ≡ items.old.items) }
    ensures memory { IfErr result (λ refusal. refusal ≡ Refusal.Memory) }
    ensures room { deque_len items.old < deque_capacity items.old → IsOk result }
    ensures len { OnOk result (deque_len items.new ≡ deque_len items.old + 1) }
    ensures capacity { deque_capacity items.old ≤ deque_capacity items.new }
{
    match items.push_front(item) {
        Ok(()) => Ok(()),
        Err(_) => Err(Refusal::Memory),
    }
}

/// Makes room for this many more items. The list stays as it is.
pub fn make_room<T>(items: &mut VecDeque<T>, more: usize) -> Result<(), Refusal>
    ensures items { items.new.items ≡ items.old.items }
    ensures len { deque_len items.new ≡ deque_len items.old }
    ensures room { OnOk result (deque_len items.new + more ≤ deque_capacity items.new) }
    ensures memory { IfErr result (λ refusal. refusal ≡ Refusal.Memory) }
{
    match items.reserve(more) {
        Ok(()) => Ok(()),
        Err(_) => Err(Refusal::Memory),
    }
}

/// Puts the item first. There is room for it.
pub fn put_in_room<T>(items: &mut VecDeque<T>, item: T)
    requires { deque_len items.old < deque_capacity items.old }
    ensures { items.new.items ≡ item ∷ items.old.items }
{
    items.push_front_reserved(item);
}
