//! Some slots of a page, as a pass keeps those that are its own.
ghost use Rattle.std.specs.Prelude.{◌≡◌, ◌≢◌, ◌<◌, ◌≤◌, ◌^◌, ◌-◌, ◌/◌, ◌==◌, ◌&&◌, ◌∷◌, [], length, IsTrue};
ghost use Rattle.sh_shape.specs.Places.{slot_places};
ghost use Rattle.sh_slots.specs.Slots.{same_slot, slot_refs};
ghost use Rattle.sh_step.specs.Collections.{has, without};
ghost use Rattle.sh_step.specs.Runs.{odd, picked, slots_of};

use sh_slots::SlotRef;

// The number of slots for which a run has places: a bit of a word each.
const PLACES: u64 = 64;

/// A run of own slots: of the 64 slots of a page from the first on, those whose bit is set, in rising order.
#[derive(Clone, Copy, Debug)]
pub struct Run {
    /// The page, numbered over the whole heap.
    pub page: u64,
    /// The slot of the lowest bit.
    pub first: u64,
    /// A bit for each slot, the lowest for the first.
    pub bits: u64,
}

// Whether a bit is set.
fn has_bit(bits: u64, i: u64) -> bool
    requires { i < 64 }
    ensures { result ≡ odd (bits / 2 ^ i) }
{
    (bits >> i) % 2 == 1
}

// A power of two.
fn power_of_two(i: u64) -> u64
    requires { i < 64 }
    ensures { result ≡ 2 ^ i }
{
    1 << i
}

// The bits without one that is set.
fn without_bit(bits: u64, i: u64) -> u64
    requires small { i < 64 }
    requires set { 2 ^ i ≤ bits }
    ensures { result ≡ bits - 2 ^ i }
{
    bits - power_of_two(i)
}

/// The run of one slot.
pub fn run_of_slot(slot_ref: SlotRef) -> Run
    ensures { slots_of result ≡ slot_ref ∷ [] }
{
    Run {
        page: slot_ref.page,
        first: slot_ref.slot,
        bits: 1,
    }
}

/// The run of the first `count` slots of a page.
pub fn run_of_page(page: u64, count: u64) -> Run
    requires { count ≤ slot_places }
    ensures { slots_of result ≡ slot_refs page 0 count }
{
    Run {
        page,
        first: 0,
        bits: power_of_two(count) - 1,
    }
}

/// Whether a slot is in the run.
pub fn run_has(run: Run, slot_ref: SlotRef) -> bool
    ensures { result ≡ has (same_slot slot_ref) (slots_of run) }
{
    if run.page != slot_ref.page {
        return false;
    }
    if slot_ref.slot < run.first {
        return false;
    }
    if slot_ref.slot - run.first >= PLACES {
        return false;
    }
    has_bit(run.bits, slot_ref.slot - run.first)
}

// Whether no bit is set.
fn no_bit(page: u64, first: u64, bits: u64) -> bool
    ensures { result ≡ (length (picked page first 64 bits) == 0) }
{
    bits == 0
}

/// Whether no slot is in the run.
pub fn is_empty_run(run: Run) -> bool
    ensures { result ≡ (length (slots_of run) == 0) }
{
    no_bit(run.page, run.first, run.bits)
}

/// The run without a slot that is in it.
pub fn run_without(run: Run, slot_ref: SlotRef) -> Run
    requires { IsTrue (has (same_slot slot_ref) (slots_of run)) }
    ensures slots { slots_of result ≡ without (same_slot slot_ref) (slots_of run) }
    ensures page { result.page ≡ run.page }
{
    Run {
        page: run.page,
        first: run.first,
        bits: without_bit(run.bits, slot_ref.slot - run.first),
    }
}
