//! Words that are not as the lines begin.
ghost use Rattle.std.specs.Prelude.{◌≡◌, ◌++◌, nat_lt, OnOk, IfOk};
ghost use Rattle.std.specs.List.{filter};
ghost use Rattle.script_orders.specs.Changes.{changes_of, changes_with, word_in};

use std::alloc::{AllocError, Global};

/// A word that is another one than as the lines begin.
#[derive(Clone, Copy, Debug, PartialEq, Eq)]
pub struct Change {
    /// The word's number.
    pub number: usize,
    /// The word.
    pub word: u64,
}

// Adds the changes of words below this number.
fn push_below(out: &mut Vec<Change>, changes: &[Change], number: usize) -> Result<(), AllocError>
    ensures { OnOk result (out.new.items ≡ out.old.items ++ filter (λ c. nat_lt c.number number) changes.now) }
{
    for change in changes {
        if change.number < number {
            out.push(*change)?;
        }
    }
    Ok(())
}

// Adds the changes of words above this number.
fn push_above(out: &mut Vec<Change>, changes: &[Change], number: usize) -> Result<(), AllocError>
    ensures { OnOk result (out.new.items ≡ out.old.items ++ filter (λ c. nat_lt number c.number) changes.now) }
{
    for change in changes {
        if number < change.number {
            out.push(*change)?;
        }
    }
    Ok(())
}

// Adds the word of this number, if it is another one than `opening`.
fn push_word(
    out: &mut Vec<Change>,
    number: usize,
    opening: u64,
    word: u64,
) -> Result<(), AllocError>
    ensures { OnOk result (out.new.items ≡ out.old.items ++ changes_of number opening word) }
{
    if word == opening {
        return Ok(());
    }
    out.push(Change { number, word })?;
    Ok(())
}

/// The word of this number by the changes. As the lines begin it is `was`.
pub fn word_of(changes: &[Change], number: usize, was: u64) -> u64
    ensures { result ≡ word_in changes.now number was }
{
    for change in changes {
        if change.number == number {
            return change.word;
        }
    }
    was
}

/// The changes once the word of this number is `word`. As the lines begin it is `opening`. Changes are in the order of
/// their numbers, and a word as the lines begin is none, so the same words have the same changes.
pub fn with_word(
    alloc: Global,
    changes: &[Change],
    number: usize,
    opening: u64,
    word: u64,
) -> Result<Vec<Change>, AllocError>
    ensures { IfOk result (λ new. new.items ≡ changes_with changes.now number opening word) }
{
    let mut new = Vec::new(alloc);
    push_below(&mut new, changes, number)?;
    push_word(&mut new, number, opening, word)?;
    push_above(&mut new, changes, number)?;
    Ok(new)
}
