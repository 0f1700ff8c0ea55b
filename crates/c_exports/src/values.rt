//! The calls that name a value: what they store, and what they write into the caller's room.
ghost use Rattle.std.specs.Prelude.{◌≡◌, ◌≤◌, ◌+◌, ◌++◌, drop, length};
ghost use Rattle.c_handles.specs.HeldPasses.{HeldFetches, HeldReads};
ghost use Rattle.c_exports.specs.Told.{InsertTold, InsertsWords, PrepareTold, PreparesFor, ReadTold, ReadWritten, WordsTold};
ghost use Rattle.c_exports.specs.Told.{number_told};

use crate::codes::{EMPTY, OK, SHORT, code};
use crate::rooms::WordsRoom;
use c_handles::{HeldPass, PassHandle};
use sh_shape::classes;
use sh_value::{Hold, Refusal, Value, WORDS_MAX};
use std::alloc::Global;

// Copies words to the front of the room. (Most values have one word, and one store takes less than a call that copies.)
pub(crate) fn copy_words(told: &[u64], words: &mut [u64])
    requires { length told.now ≤ length words.old }
    ensures { words.new ≡ told.now ++ drop (length told.now) words.old }
{
    if told.len() == 1 {
        words[0] = told[0];
    } else {
        words[..told.len()].copy_from_slice(told);
    }
}

// Writes the words of a value to the front of the room, and how many they are.
pub(crate) fn write_words(told: &[u64], words: &mut [u64], count: &mut u64) -> u32
    ensures count { count.new ≡ length told.now }
    ensures words { WordsTold told.now words.old result words.new }
{
    *count = told.len() as u64;
    if told.len() > words.len() {
        return SHORT;
    }
    copy_words(told, words);
    OK
}

/// Reads the value of a key that the pass holds.
#[unsafe(no_mangle)]
pub extern "C" fn shardheap_raw_read(
    _alloc: Global,
    pass: &mut PassHandle,
    key: u64,
    words: &mut [u64],
    count: &mut u64,
) -> u32
    ensures { ReadTold (HeldReads key) result words.old words.new count.old count.new pass.old.slot.value
        pass.new.slot.value }
{
    if !pass.is_full() {
        return EMPTY;
    }
    // (It has one word, as most values have: reading a value of one word into it is one store.)
    let mut value = Value::from(0);
    let answer = pass.held().read_into(Hold { key }, &mut value);
    match answer {
        Ok(()) => write_words(value.words(), words, count),
        Err(refusal) => refusal.number(),
    }
}

// Looks at a key, and puts into the room what the look returned.
fn look_into(member: &mut HeldPass, key: u64, room: &mut WordsRoom)
    ensures words { room.new.words.ghost_name ≡ room.old.words.ghost_name }
    ensures count { room.new.count.ghost_name ≡ room.old.count.ghost_name }
    ensures looks { ReadWritten (HeldFetches key) room.new.code room.old.words.now room.new.words.now room.old.count.now
        room.new.count.now member.old member.new }
{
    if let Err(refusal) = member.look_into(key, room) {
        room.code = refusal.number();
    }
}

/// Loads the value of a key, by a look. The holds stay as they were.
#[unsafe(no_mangle)]
pub extern "C" fn shardheap_raw_load(
    _alloc: Global,
    pass: &mut PassHandle,
    key: u64,
    words: &mut [u64],
    count: &mut u64,
) -> u32
    ensures { ReadTold (HeldFetches key) result words.old words.new count.old count.new pass.old.slot.value
        pass.new.slot.value }
{
    if !pass.is_full() {
        return EMPTY;
    }
    let mut room = WordsRoom::new(words, count);
    look_into(pass.held(), key, &mut room);
    room.code
}

// Appends the words to the value in place, so that the value is not copied.
fn put_words(value: &mut Value, words: &[u64])
    requires { length value.old + length words.now ≤ 16 }
    ensures { value.new ≡ value.old ++ words.now }
{
    for word in words {
        value.push(*word);
    }
}

// Stores the words as a value, in the shard that the pass owns, or in a chunk of a growing heap.
fn insert_words(alloc: Global, member: &mut HeldPass, words: &[u64]) -> Result<u64, Refusal>
    ensures { InsertsWords words.now member.old result member.new }
{
    if words.len() > WORDS_MAX {
        return Err(Refusal::TooLong);
    }
    let mut value = Value::empty();
    put_words(&mut value, words);
    member.insert(alloc, &value)
}

// Writes the number that a call returned, such as the key of a stored value.
pub(crate) fn write_number(answer: &Result<u64, Refusal>, key: &mut u64)
    ensures { key.new ≡ number_told key.old answer.now }
{
    if let Ok(stored) = answer {
        *key = *stored;
    }
}

/// Stores a value under a new key in the shard that the pass owns, or in a chunk of a growing heap, and writes the key.
#[unsafe(no_mangle)]
pub extern "C" fn shardheap_raw_insert(
    alloc: Global,
    pass: &mut PassHandle,
    words: &[u64],
    key: &mut u64,
) -> u32
    ensures { InsertTold words.now result key.old key.new pass.old.slot.value pass.new.slot.value }
{
    if !pass.is_full() {
        return EMPTY;
    }
    let answer = insert_words(alloc, pass.held(), words);
    write_number(&answer, key);
    code(&answer)
}

// Gives a page of the shard that the pass owns to the class of values of `words` words.
fn prepare_for(member: &mut HeldPass, words: u32) -> Result<u32, Refusal>
    ensures { PreparesFor words member.old result member.new }
{
    match classes::class_of(words as usize) {
        Some(class) => member.prepare(class),
        None => Err(Refusal::TooLong),
    }
}

// Writes the page that was prepared.
fn write_page(answer: &Result<u32, Refusal>, page: &mut u32)
    ensures { page.new ≡ number_told page.old answer.now }
{
    if let Ok(prepared) = answer {
        *page = *prepared;
    }
}

/// Gives a page of the shard that the pass owns to values of `words` words, and writes its number.
#[unsafe(no_mangle)]
pub extern "C" fn shardheap_raw_prepare(
    _alloc: Global,
    pass: &mut PassHandle,
    words: u32,
    page: &mut u32,
) -> u32
    ensures { PrepareTold words result page.old page.new pass.old.slot.value pass.new.slot.value }
{
    if !pass.is_full() {
        return EMPTY;
    }
    let answer = prepare_for(pass.held(), words);
    write_page(&answer, page);
    code(&answer)
}
