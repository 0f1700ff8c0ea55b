//! Own slots in runs, the newest run first. Each call walks the runs once.
ghost use Rattle.std.specs.Prelude.{ℕ, ◌≡◌, get_or, false, ◌==◌, ◌||◌, ◌&&◌, ◌+◌, ◌<◌, ◌≤◌, ◌++◌, not, filter, length};
ghost use Rattle.std.specs.Prelude.{slice_set, Some};
ghost use Rattle.std.specs.VecDeque.{deque_len, deque_capacity};
ghost use Rattle.std.specs.List.{list_any, list_all, position};
ghost use Rattle.sh_shape.specs.Places.{slot_places};
ghost use Rattle.sh_slots.specs.Slots.{same_slot, slot_refs};
ghost use Rattle.sh_step.specs.Collections.{has, without, off, every};
ghost use Rattle.sh_step.specs.Runs.{slots_of, slots_in};

use crate::part::run::{Run, is_empty_run, run_has, run_without};
use sh_shape::SLOT_PLACES;
use sh_slots::SlotRef;
use std::collections::VecDeque;

const PLACES: usize = SLOT_PLACES as usize;

// Whether a run has the slot.
fn any_run_has(runs: &VecDeque<Run>, slot_ref: SlotRef) -> bool
    ensures { result ≡ list_any (λ r. has (same_slot slot_ref) (slots_of r)) runs.now.items }
{
    runs.iter().any(|run| run_has(*run, slot_ref))
}

// Which run has the slot first.
fn run_with(runs: &VecDeque<Run>, slot_ref: SlotRef) -> Option<usize>
    ensures { result ≡ position (λ r. has (same_slot slot_ref) (slots_of r)) runs.now.items }
{
    runs.iter().position(|run| run_has(*run, slot_ref))
}

// Whether all runs are empty.
fn all_empty(runs: &VecDeque<Run>) -> bool
    ensures { result ≡ list_all (λ r. length (slots_of r) == 0) runs.now.items }
{
    runs.iter().all(|run| is_empty_run(*run))
}

// Keeps the runs of other pages.
fn keep_other_pages(runs: &mut VecDeque<Run>, page: u64)
    ensures items { runs.new.items ≡ filter (λ r. not (r.page == page)) runs.old.items }
    ensures capacity { deque_capacity runs.new ≡ deque_capacity runs.old }
    ensures fewer { deque_len runs.new ≤ deque_len runs.old }
{
    runs.retain(|run| run.page != page);
}

/// Whether the slot is there.
pub fn has_slot(runs: &VecDeque<Run>, slot_ref: SlotRef) -> bool
    ensures { result ≡ has (same_slot slot_ref) (slots_in runs.now.items) }
{
    any_run_has(runs, slot_ref)
}

/// Whether no slot is there.
pub fn has_no_slot(runs: &VecDeque<Run>) -> bool
    ensures { result ≡ (length (slots_in runs.now.items) == 0) }
{
    all_empty(runs)
}

// Notes a slot of the page as seen, if the run has it.
fn see_slot(seen: &mut [bool; PLACES], run: Run, page: u64, slot: u64)
    requires { slot < slot_places }
    ensures { (x : ℕ) → x < slot_places → get_or seen.new x false ≡
        (get_or seen.old x false || ((x == slot) && has (same_slot (record { page = page; slot = x }))
        (slots_of run))) }
{
    if run_has(run, SlotRef { page, slot }) {
        seen[slot as usize] = true;
    }
}

// Notes the slots of a run that are of the page as seen.
fn see_run(seen: &mut [bool; PLACES], run: Run, page: u64)
    ensures { (x : ℕ) → x < slot_places → get_or seen.new x false ≡
        (get_or seen.old x false || has (same_slot (record { page = page; slot = x })) (slots_of run)) }
{
    if run.page != page {
        return;
    }
    for slot in 0..SLOT_PLACES as u64 {
        see_slot(seen, run, page, slot);
    }
}

// Which slots of the page are there.
fn slots_seen(runs: &VecDeque<Run>, page: u64) -> [bool; PLACES]
    ensures { (slot : ℕ) → slot < slot_places → get_or result slot false ≡
        has (same_slot (record { page = page; slot = slot })) (slots_in runs.now.items) }
{
    let mut seen = [false; PLACES];
    for i in 0..runs.len() {
        see_run(&mut seen, runs[i], page);
    }
    seen
}

/// Whether the first `count` slots of a page are all there.
pub fn has_slots(runs: &VecDeque<Run>, page: u64, count: u64) -> bool
    requires { count ≤ slot_places }
    ensures { result ≡ every (λ x. has (same_slot x) (slots_in runs.now.items)) (slot_refs page 0 count) }
{
    let seen = slots_seen(runs, page);
    for slot in 0..count {
        if !seen[slot as usize] {
            return false;
        }
    }
    true
}

// Puts a run in the place of another.
fn put_at(runs: &mut VecDeque<Run>, i: usize, run: Run)
    requires { i < deque_len runs.old }
    ensures { runs.new.items ≡ slice_set runs.old.items i run }
{
    runs[i] = run;
}

// Takes the slot out of this run, which has it. A run that is then empty is removed.
fn remove_from(runs: &mut VecDeque<Run>, i: usize, slot_ref: SlotRef)
    requires { position (λ r. has (same_slot slot_ref) (slots_of r)) runs.old.items ≡ Some i }
    ensures { slots_in runs.new.items ≡ without (same_slot slot_ref) (slots_in runs.old.items) }
{
    let left = run_without(runs[i], slot_ref);
    if is_empty_run(left) {
        runs.remove(i);
    } else {
        put_at(runs, i, left);
    }
}

/// Takes the slot out once, if it is there.
pub fn remove_slot(runs: &mut VecDeque<Run>, slot_ref: SlotRef)
    ensures { slots_in runs.new.items ≡ without (same_slot slot_ref) (slots_in runs.old.items) }
{
    if let Some(i) = run_with(runs, slot_ref) {
        remove_from(runs, i, slot_ref);
    }
}

/// Takes all slots of the page out.
pub fn forget_page(runs: &mut VecDeque<Run>, page: u64)
    ensures slots { slots_in runs.new.items ≡ off (λ x. x.page == page) (slots_in runs.old.items) }
    ensures capacity { deque_capacity runs.new ≡ deque_capacity runs.old }
    ensures fewer { deque_len runs.new ≤ deque_len runs.old }
{
    keep_other_pages(runs, page);
}
