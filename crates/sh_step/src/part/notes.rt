//! What a pass noted of numbers.
ghost use Rattle.std.specs.Prelude.{ℕ, ◌≡◌, ◌==◌, ◌∷◌, ◌<◌, [], IfErr, OnOk, OnErr};
ghost use Rattle.std.specs.VecDeque.{deque_len, deque_capacity};
ghost use Rattle.sh_step.specs.Collections.{noted, off};

use crate::part::lists::{forget_notes, make_room, put_in_room, value_noted};
use sh_value::Refusal;
use std::alloc::Global;
use std::collections::VecDeque;
use std::marker::Model;

/// Notes of numbers, the newest first: a number and what was found for it. The newest note of each number is also kept
/// on its own, so a lookup walks one note for each number, and not every note that was ever made.
#[derive(Drop)]
pub struct Notes {
    notes: VecDeque<(u64, u64)>,
    newest: VecDeque<(u64, u64)>,
}

impl Model for Notes {
    ghost use Rattle.std.specs.Prelude.{ℕ, List};
    ghost use Rattle.sh_step.specs.Notes.{NoteTheSame};

    ghost Value = { List (ℕ × ℕ) };

    ghost view = { λ n. n.notes.items };

    ghost invariant = { λ n. NoteTheSame n.newest.items n.notes.items };
}

// Makes it the newest note of its number. There is room for it.
fn put_newest(newest: &mut VecDeque<(u64, u64)>, number: u64, found: u64)
    requires { deque_len newest.old < deque_capacity newest.old }
    ensures { newest.new.items ≡ (number, found) ∷ off (λ x. x.0 == number) newest.old.items }
{
    forget_notes(newest, number);
    put_in_room(newest, (number, found));
}

impl Notes {
    /// Nothing is noted.
    pub fn new(alloc: Global) -> Self
        ensures { result ≡ [] }
    {
        Notes {
            notes: VecDeque::new(alloc),
            newest: VecDeque::new(alloc),
        }
    }

    /// What is noted of the number.
    pub fn of(&self, number: u64) -> Option<u64>
        ensures { result ≡ noted number self.now }
    {
        value_noted(&self.newest, number)
    }

    /// Notes what was found for a number. If memory is refused, all stays as it is.
    pub fn put(&mut self, number: u64, found: u64) -> Result<(), Refusal>
        ensures ok { OnOk result (self.new ≡ (number, found) ∷ self.old) }
        ensures err { OnErr result (self.new ≡ self.old) }
        ensures memory { IfErr result (λ refusal. refusal ≡ Refusal.Memory) }
    {
        make_room(&mut self.notes, 1)?;
        make_room(&mut self.newest, 1)?;
        put_in_room(&mut self.notes, (number, found));
        put_newest(&mut self.newest, number, found);
        Ok(())
    }

    /// Forgets what was noted of the number.
    pub fn forget(&mut self, number: u64)
        ensures { self.new ≡ off (λ x. x.0 == number) self.old }
    {
        forget_notes(&mut self.notes, number);
        forget_notes(&mut self.newest, number);
    }

    /// Forgets everything.
    pub fn clear(&mut self)
        ensures { self.new ≡ [] }
    {
        self.notes.clear();
        self.newest.clear();
    }
}
