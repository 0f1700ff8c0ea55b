//! How full the shard of an owner is.
ghost use Rattle.sh_shard.specs.Pages.{blank_pages, slots_out};
ghost use Rattle.sh_member.specs.Sides.{SideCounts};
ghost use Rattle.c_handles.specs.Members.{AnyDoes};
ghost use Rattle.c_handles.specs.HeldPasses.{EitherDoes, NamesNoShard};
ghost use Rattle.c_exports.specs.Told.{AskedNumber};

use crate::codes::{EMPTY, code};
use crate::values::write_number;
use c_handles::PassHandle;
use std::alloc::Global;

/// Writes the number of pages without a class in the shard that the pass owns.
#[unsafe(no_mangle)]
pub extern "C" fn shardheap_raw_pages_left(
    _alloc: Global,
    pass: &mut PassHandle,
    pages: &mut u64,
) -> u32
    ensures { AskedNumber (EitherDoes (AnyDoes (λ l. SideCounts blank_pages)) NamesNoShard) result pages.old pages.new
        pass.old.slot.value pass.new.slot.value }
{
    if !pass.is_full() {
        return EMPTY;
    }
    let answer = pass.held().pages_left();
    write_number(&answer, pages);
    code(&answer)
}

/// Writes the number of slots, in pages with a class, that the owner cannot use now.
#[unsafe(no_mangle)]
pub extern "C" fn shardheap_raw_slots_out(
    _alloc: Global,
    pass: &mut PassHandle,
    slots: &mut u64,
) -> u32
    ensures { AskedNumber (EitherDoes (AnyDoes (λ l. SideCounts slots_out)) NamesNoShard) result slots.old slots.new
        pass.old.slot.value pass.new.slot.value }
{
    if !pass.is_full() {
        return EMPTY;
    }
    let answer = pass.held().slots_out();
    write_number(&answer, slots);
    code(&answer)
}
