//! The live keys of a heap, or of the shard that a pass owns, one after the other.
ghost use Rattle.std.specs.Prelude.{◌≡◌};
ghost use Rattle.c_exports.specs.Keys.{KeyWritten, NextKeyTold, NextOwnKeyTold};

use crate::accounts::why;
use crate::codes::{EMPTY, NO_KEY, OK};
use c_handles::{HeapHandle, PassHandle};
use sh_pass::NextKey;
use std::alloc::Global;

// Writes the next key, and the place from which to continue.
fn write_next(next: Option<NextKey>, place: &mut u64, key: &mut u64) -> u32
    ensures { KeyWritten next result place.old place.new key.old key.new }
{
    let Some(next) = next else {
        return NO_KEY;
    };
    *place = next.behind;
    *key = next.key;
    OK
}

/// Writes the first live key from a place on, and the place behind it. It needs a pass that carries the tales of all.
#[unsafe(no_mangle)]
pub extern "C" fn shardheap_raw_next_key(
    alloc: Global,
    heap: &mut HeapHandle,
    place: &mut u64,
    key: &mut u64,
) -> u32
    ensures { NextKeyTold result place.old place.new key.old key.new heap.old.slot.value heap.new.slot.value }
{
    let Some(held) = heap.take(alloc) else {
        return EMPTY;
    };
    let answer = held.next_key(*place);
    *heap = HeapHandle::of(held);
    match answer {
        Ok(next) => write_next(next, place, key),
        Err(refusal) => why(refusal),
    }
}

/// Writes the first live key of the shard that the pass owns from a place on, and the place behind it.
#[unsafe(no_mangle)]
pub extern "C" fn shardheap_raw_next_own_key(
    _alloc: Global,
    pass: &mut PassHandle,
    place: &mut u64,
    key: &mut u64,
) -> u32
    ensures { NextOwnKeyTold result place.old place.new key.old key.new pass.old.slot.value pass.new.slot.value }
{
    if !pass.is_full() {
        return EMPTY;
    }
    match pass.held().next_own_key(*place) {
        Ok(next) => write_next(next, place, key),
        Err(refusal) => refusal.number(),
    }
}
