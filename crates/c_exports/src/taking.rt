//! A load and a removal in one.
ghost use Rattle.std.specs.Prelude.{length};
ghost use Rattle.c_handles.specs.HeldPasses.{HeldTakes};
ghost use Rattle.c_exports.specs.Told.{ReadTold};

use crate::codes::EMPTY;
use crate::values::write_words;
use c_handles::PassHandle;
use sh_value::Value;
use std::alloc::Global;

/// Takes the value of a key: a get, a read, a removal and a release in one call. If the value does not fit the room,
/// the key is not removed. The holds stay as they were.
#[unsafe(no_mangle)]
pub extern "C" fn shardheap_raw_take_value(
    _alloc: Global,
    pass: &mut PassHandle,
    key: u64,
    words: &mut [u64],
    count: &mut u64,
) -> u32
    ensures { ReadTold (HeldTakes key (length words.old)) result words.old words.new count.old count.new
        pass.old.slot.value pass.new.slot.value }
{
    if !pass.is_full() {
        return EMPTY;
    }
    // (It has one word, as most values have: reading a value of one word into it is one store.)
    let mut value = Value::from(0);
    let answer = pass.held().take_into(key, words.len(), &mut value);
    match answer {
        Ok(()) => write_words(value.words(), words, count),
        Err(refusal) => refusal.number(),
    }
}
