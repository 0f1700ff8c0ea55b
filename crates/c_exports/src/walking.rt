//! Walks over the live keys of a heap, by any of its passes.
ghost use Rattle.sh_member.specs.Walks.{with_value};
ghost use Rattle.c_handles.specs.HeldPasses.{HeldNextHeld, HeldNextLive};
ghost use Rattle.c_exports.specs.Walks.{HeldWritten, LiveWritten, WalkTold, WalkWritten};

use crate::codes::{EMPTY, NO_KEY, OK};
use crate::values::write_words;
use c_handles::PassHandle;
use sh_member::NextHeld;
use sh_pass::NextKey;
use sh_value::{Value, WORDS_MAX};
use std::alloc::Global;

/// A live key with its value, as C has them.
#[repr(C)]
#[derive(Clone, Copy)]
pub struct LiveKey {
    /// The key.
    pub key: u64,
    /// The place behind that of the key.
    pub behind: u64,
    /// How many words the value has.
    pub length: u64,
    /// The words of the value at the front.
    pub words: [u64; WORDS_MAX],
}

/// A live key, and whether it is held, as C has them.
#[repr(C)]
#[derive(Clone, Copy)]
pub struct HeldKey {
    /// The key.
    pub key: u64,
    /// The place behind that of the key.
    pub behind: u64,
    /// 1 with a hold on the key, and 0 if it has as many as it may have.
    pub held: u32,
}

// Writes the key that was met, the place behind it and its value.
fn write_live(met: Option<NextKey>, value: &Value, next: &mut LiveKey) -> u32
    ensures { WalkWritten (λ key. LiveWritten (with_value key value.now)) met result next.old next.new }
{
    let Some(met) = met else {
        return NO_KEY;
    };
    next.key = met.key;
    next.behind = met.behind;
    write_words(value.words(), &mut next.words, &mut next.length)
}

// Writes the key that was met, the place behind it and whether it is held.
fn write_held(met: Option<NextHeld>, next: &mut HeldKey) -> u32
    ensures { WalkWritten HeldWritten met result next.old next.new }
{
    let Some(met) = met else {
        return NO_KEY;
    };
    next.key = met.key;
    next.behind = met.behind;
    next.held = u32::from(met.hold.is_some());
    OK
}

/// Writes the first live key of the heap at a place from `from` on and before `before`, with its value, and the place
/// behind it. The holds stay as they were.
#[unsafe(no_mangle)]
pub extern "C" fn shardheap_raw_next_live(
    _alloc: Global,
    pass: &mut PassHandle,
    from: u64,
    before: u64,
    next: &mut LiveKey,
) -> u32
    ensures { WalkTold LiveWritten (HeldNextLive from before) result next.old next.new pass.old.slot.value
        pass.new.slot.value }
{
    if !pass.is_full() {
        return EMPTY;
    }
    // (It has one word, as most values have: reading a value of one word into it is one store.)
    let mut value = Value::from(0);
    match pass.held().next_live_into(from, before, &mut value) {
        Ok(met) => write_live(met, &value, next),
        Err(refusal) => refusal.number(),
    }
}

/// The same with a hold on the key, in place of its value.
#[unsafe(no_mangle)]
pub extern "C" fn shardheap_raw_next_held(
    _alloc: Global,
    pass: &mut PassHandle,
    from: u64,
    before: u64,
    next: &mut HeldKey,
) -> u32
    ensures { WalkTold HeldWritten (HeldNextHeld from before) result next.old next.new pass.old.slot.value
        pass.new.slot.value }
{
    if !pass.is_full() {
        return EMPTY;
    }
    match pass.held().next_held(from, before) {
        Ok(met) => write_held(met, next),
        Err(refusal) => refusal.number(),
    }
}
