//! The calls that say which key they ended, with the words of its value or without.
ghost use Rattle.std.specs.Prelude.{◌≡◌, true, false};
ghost use Rattle.c_handles.specs.Ended.{HeldGetTells, HeldReleaseTells, HeldRemoveTells};
ghost use Rattle.c_exports.specs.Ended.{EndKeyTold, EndTold, EndedTakes, emptied, ended_number, no_room, no_takes};

use crate::codes::{EMPTY, code};
use crate::values::copy_words;
use c_handles::PassHandle;
use sh_pass::{EndRoom, NoWords};
use sh_value::{Hold, WORDS_MAX};
use std::alloc::Global;

/// A key that a call ended, with its value, as C has them.
#[repr(C)]
#[derive(Clone, Copy)]
pub struct Ended {
    /// The key, and 0 if none ended, which is no key of any layout.
    pub key: u64,
    /// How many words its value has.
    pub length: u64,
    /// The words of the value at the front.
    pub words: [u64; WORDS_MAX],
}

impl Ended {
    // No key and no words.
    fn clear(&mut self)
        ensures { self.new ≡ emptied self.old }
    {
        self.key = 0;
        self.length = 0;
    }
}

impl EndRoom for Ended {
    ghost asks = { true };

    ghost takes = { EndedTakes };

    #[inline(always)]
    fn asks() -> bool {
        true
    }

    fn put(&mut self, words: &[u64]) {
        self.length = words.len() as u64;
        copy_words(words, &mut self.words);
    }
}

// The number for C of the key that ended.
fn number(ended: Option<u64>) -> u64
    ensures { result ≡ ended_number ended }
{
    ended.unwrap_or(0)
}

/// Takes a hold on a key, and writes the key that the call ended, which a refused get may.
#[unsafe(no_mangle)]
pub extern "C" fn shardheap_raw_get_ended(
    _alloc: Global,
    pass: &mut PassHandle,
    key: u64,
    ended: &mut Ended,
) -> u32
    ensures { EndTold (HeldGetTells true EndedTakes key) result ended.old ended.new pass.old.slot.value
        pass.new.slot.value }
{
    ended.clear();
    if !pass.is_full() {
        return EMPTY;
    }
    let (answer, told) = pass.held().get_ended(key, ended);
    ended.key = number(told);
    code(&answer)
}

/// Gives one hold on a key back, and writes the key that the call ended.
#[unsafe(no_mangle)]
pub extern "C" fn shardheap_raw_release_ended(
    _alloc: Global,
    pass: &mut PassHandle,
    key: u64,
    ended: &mut Ended,
) -> u32
    ensures { EndTold (HeldReleaseTells true EndedTakes key) result ended.old ended.new pass.old.slot.value
        pass.new.slot.value }
{
    ended.clear();
    if !pass.is_full() {
        return EMPTY;
    }
    let (answer, told) = pass.held().release_ended(Hold { key }, ended);
    ended.key = number(told);
    code(&answer)
}

/// Removes a key, and writes the key that the call ended.
#[unsafe(no_mangle)]
pub extern "C" fn shardheap_raw_remove_ended(
    _alloc: Global,
    pass: &mut PassHandle,
    key: u64,
    ended: &mut Ended,
) -> u32
    ensures { EndTold (HeldRemoveTells true EndedTakes key) result ended.old ended.new pass.old.slot.value
        pass.new.slot.value }
{
    ended.clear();
    if !pass.is_full() {
        return EMPTY;
    }
    let (answer, told) = pass.held().remove_ended(key, ended);
    ended.key = number(told);
    code(&answer)
}

/// Takes a hold on a key, and writes the key that the call ended without its value.
#[unsafe(no_mangle)]
pub extern "C" fn shardheap_raw_get_ended_key(
    _alloc: Global,
    pass: &mut PassHandle,
    key: u64,
    ended: &mut u64,
) -> u32
    ensures { EndKeyTold (λ v answer w. HeldGetTells false no_takes key no_room v answer no_room w) result ended.new
        pass.old.slot.value pass.new.slot.value }
{
    *ended = 0;
    if !pass.is_full() {
        return EMPTY;
    }
    let (answer, told) = pass.held().get_ended(key, &mut NoWords);
    *ended = number(told);
    code(&answer)
}

/// Gives one hold on a key back, and writes the key that the call ended without its value.
#[unsafe(no_mangle)]
pub extern "C" fn shardheap_raw_release_ended_key(
    _alloc: Global,
    pass: &mut PassHandle,
    key: u64,
    ended: &mut u64,
) -> u32
    ensures { EndKeyTold (λ v answer w. HeldReleaseTells false no_takes key no_room v answer no_room w) result ended.new
        pass.old.slot.value pass.new.slot.value }
{
    *ended = 0;
    if !pass.is_full() {
        return EMPTY;
    }
    let (answer, told) = pass.held().release_ended(Hold { key }, &mut NoWords);
    *ended = number(told);
    code(&answer)
}

/// Removes a key, and writes the key that the call ended without its value.
#[unsafe(no_mangle)]
pub extern "C" fn shardheap_raw_remove_ended_key(
    _alloc: Global,
    pass: &mut PassHandle,
    key: u64,
    ended: &mut u64,
) -> u32
    ensures { EndKeyTold (λ v answer w. HeldRemoveTells false no_takes key no_room v answer no_room w) result ended.new
        pass.old.slot.value pass.new.slot.value }
{
    *ended = 0;
    if !pass.is_full() {
        return EMPTY;
    }
    let (answer, told) = pass.held().remove_ended(key, &mut NoWords);
    *ended = number(told);
    code(&answer)
}
