//! The calls of a pass that name a key, and those of the owner of a shard that name no value.
ghost use Rattle.std.specs.Prelude.{◌≡◌};
ghost use Rattle.c_handles.specs.HeldPasses.{HeldAdopts, HeldCollects, HeldGets, HeldLeaves, HeldLeavesIdle};
ghost use Rattle.c_handles.specs.HeldPasses.{HeldReleases, HeldRemoves};
ghost use Rattle.c_exports.specs.Told.{Asked};

use crate::codes::{EMPTY, code};
use c_handles::PassHandle;
use sh_value::Hold;
use std::alloc::Global;

/// Takes a hold on a key.
#[unsafe(no_mangle)]
pub extern "C" fn shardheap_raw_get(_alloc: Global, pass: &mut PassHandle, key: u64) -> u32
    ensures { Asked (HeldGets key) result pass.old.slot.value pass.new.slot.value }
{
    if !pass.is_full() {
        return EMPTY;
    }
    let answer = pass.held().get(key);
    code(&answer)
}

/// Gives one hold on a key back.
#[unsafe(no_mangle)]
pub extern "C" fn shardheap_raw_release(_alloc: Global, pass: &mut PassHandle, key: u64) -> u32
    ensures { Asked (HeldReleases key) result pass.old.slot.value pass.new.slot.value }
{
    if !pass.is_full() {
        return EMPTY;
    }
    let answer = pass.held().release(Hold { key });
    code(&answer)
}

/// Removes a key.
#[unsafe(no_mangle)]
pub extern "C" fn shardheap_raw_remove(_alloc: Global, pass: &mut PassHandle, key: u64) -> u32
    ensures { Asked (HeldRemoves key) result pass.old.slot.value pass.new.slot.value }
{
    if !pass.is_full() {
        return EMPTY;
    }
    let answer = pass.held().remove(key);
    code(&answer)
}

/// Makes the pass the owner of a shard. In a growing heap no shard has a number.
#[unsafe(no_mangle)]
pub extern "C" fn shardheap_raw_adopt(alloc: Global, pass: &mut PassHandle, shard: u64) -> u32
    ensures { Asked (HeldAdopts shard) result pass.old.slot.value pass.new.slot.value }
{
    if !pass.is_full() {
        return EMPTY;
    }
    let answer = pass.held().adopt(alloc, shard);
    code(&answer)
}

/// Leaves the shard that the pass owns, or all of them in a growing heap.
#[unsafe(no_mangle)]
pub extern "C" fn shardheap_raw_leave(_alloc: Global, pass: &mut PassHandle) -> u32
    ensures { Asked HeldLeaves result pass.old.slot.value pass.new.slot.value }
{
    if !pass.is_full() {
        return EMPTY;
    }
    let answer = pass.held().leave();
    code(&answer)
}

/// Leaves the shard that the pass owns, or in a growing heap each of them in which no other pass is in a free.
#[unsafe(no_mangle)]
pub extern "C" fn shardheap_raw_leave_idle(_alloc: Global, pass: &mut PassHandle) -> u32
    ensures { Asked HeldLeavesIdle result pass.old.slot.value pass.new.slot.value }
{
    if !pass.is_full() {
        return EMPTY;
    }
    let answer = pass.held().leave_idle();
    code(&answer)
}

/// Collects what others freed in the shard that the pass owns, or in all of them in a growing heap.
#[unsafe(no_mangle)]
pub extern "C" fn shardheap_raw_collect(_alloc: Global, pass: &mut PassHandle) -> u32
    ensures { Asked HeldCollects result pass.old.slot.value pass.new.slot.value }
{
    if !pass.is_full() {
        return EMPTY;
    }
    let answer = pass.held().collect();
    code(&answer)
}
