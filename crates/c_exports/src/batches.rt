//! Loads of several keys in one call, whose waits for memory overlap.
ghost use Rattle.c_exports.specs.Batches.{LoadsEach, LoadsOne, LoadsTold};

use crate::codes::{EMPTY, OK};
use c_handles::{HeldPass, PassHandle};
use sh_member::batches::BLOCK;
use sh_value::WORDS_MAX;
use std::alloc::Global;

/// A key to load, and what its load returned, as C has them.
#[repr(C)]
#[derive(Clone, Copy)]
pub struct Loaded {
    /// The key, which the caller writes.
    pub key: u64,
    /// How many words the value has, if the code is 0.
    pub length: u64,
    /// What the load returned: 0, or the number of a refusal.
    pub code: u32,
    /// The words of the value at the front, if the code is 0.
    pub words: [u64; WORDS_MAX],
}

// Warms the first keys of the rest of a batch.
fn warm_block(member: &HeldPass, loads: &[Loaded]) {
    for load in loads.iter().take(BLOCK) {
        member.warm_value(load.key);
    }
}

// Loads a key, and writes what the load returned.
fn load_one(member: &mut HeldPass, load: &mut Loaded)
    ensures { LoadsOne load.old member.old load.new member.new }
{
    if let Err(refusal) = member.look_into(load.key, load) {
        load.code = refusal.number();
    }
}

// Loads each key.
fn load_all(member: &mut HeldPass, loads: &mut [Loaded])
    ensures { LoadsEach loads.old member.old loads.new member.new }
{
    for at in 0..loads.len() {
        if at % BLOCK == 0 {
            warm_block(member, &loads[at..]);
        }
        load_one(member, &mut loads[at]);
    }
}

/// Loads each key, in order, and writes what its load returned beside it. A refused load stops nothing. The holds stay
/// as they were.
#[unsafe(no_mangle)]
pub extern "C" fn shardheap_raw_load_each(
    _alloc: Global,
    pass: &mut PassHandle,
    loads: &mut [Loaded],
) -> u32
    ensures { LoadsTold result loads.old loads.new pass.old.slot.value pass.new.slot.value }
{
    if !pass.is_full() {
        return EMPTY;
    }
    load_all(pass.held(), loads);
    OK
}
