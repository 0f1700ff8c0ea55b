//! Calls that say which key they ended: with the words of its value, and without.
use super::codes::{BAD_KEY, CROWDED, EMPTY, GONE, HOLDS_FULL, NOT_HELD, OK};
use super::{agree, ended, given, left, opened, owner, stored, taken};
use crate::opening::shardheap_raw_open_growing;
use crate::telling::{
    Ended, shardheap_raw_get_ended, shardheap_raw_get_ended_key, shardheap_raw_release_ended,
    shardheap_raw_release_ended_key, shardheap_raw_remove_ended, shardheap_raw_remove_ended_key,
};
use c_handles::{HeapHandle, PassHandle};
use std::alloc::Global;
use std::process::Abort;

// What a call told: its code, the key that it ended, and the length and the first words of its value.
type Told = (u32, u64, u64, [u64; 4]);

// What a room has before a call.
fn room() -> Ended {
    Ended {
        key: 77,
        length: 99,
        words: [5; 16],
    }
}

fn told(code: u32, ended: &Ended) -> Told {
    let [a, b, c, d, ..] = ended.words;
    (code, ended.key, ended.length, [a, b, c, d])
}

// A call with this code that ended no key.
fn none(code: u32) -> Told {
    (code, 0, 0, [5; 4])
}

fn got(alloc: Global, pass: &mut PassHandle, key: u64) -> Told {
    let mut ended = room();
    let code = shardheap_raw_get_ended(alloc, pass, key, &mut ended);
    told(code, &ended)
}

fn removed(alloc: Global, pass: &mut PassHandle, key: u64) -> Told {
    let mut ended = room();
    let code = shardheap_raw_remove_ended(alloc, pass, key, &mut ended);
    told(code, &ended)
}

fn released(alloc: Global, pass: &mut PassHandle, key: u64) -> Told {
    let mut ended = room();
    let code = shardheap_raw_release_ended(alloc, pass, key, &mut ended);
    told(code, &ended)
}

// The same without the words: the code, and the key that the call ended.
fn got_key(alloc: Global, pass: &mut PassHandle, key: u64) -> (u32, u64) {
    let mut over = 77;
    let code = shardheap_raw_get_ended_key(alloc, pass, key, &mut over);
    (code, over)
}

fn removed_key(alloc: Global, pass: &mut PassHandle, key: u64) -> (u32, u64) {
    let mut over = 77;
    let code = shardheap_raw_remove_ended_key(alloc, pass, key, &mut over);
    (code, over)
}

fn released_key(alloc: Global, pass: &mut PassHandle, key: u64) -> (u32, u64) {
    let mut over = 77;
    let code = shardheap_raw_release_ended_key(alloc, pass, key, &mut over);
    (code, over)
}

// A get and a remove are refused with this code, and end nothing.
fn is_refused(rt: &impl Abort, alloc: Global, pass: &mut PassHandle, key: u64, wanted: u32) {
    agree(rt, got(alloc, pass, key), none(wanted));
    agree(rt, removed(alloc, pass, key), none(wanted));
    agree(rt, got_key(alloc, pass, key), (wanted, 0));
    agree(rt, removed_key(alloc, pass, key), (wanted, 0));
}

// So is a release.
fn is_not_held(rt: &impl Abort, alloc: Global, pass: &mut PassHandle, key: u64, wanted: u32) {
    agree(rt, released(alloc, pass, key), none(wanted));
    agree(rt, released_key(alloc, pass, key), (wanted, 0));
}

#[test]
fn an_empty_handle_tells_no_end(rt: HostRuntime) {
    let alloc = rt.alloc();
    let mut pass = PassHandle::empty(alloc);
    is_refused(&rt, alloc, &mut pass, 4_096, EMPTY);
    is_not_held(&rt, alloc, &mut pass, 4_096, EMPTY);
    ended(alloc, pass);
}

// A key that nobody holds ends as it is removed, and then no call on it ends anything.
fn ends_by_its_removal(rt: &impl Abort, alloc: Global, one: &mut PassHandle, two: &mut PassHandle) {
    let key = stored(rt, alloc, one, &[7, 8, 9]);
    let end = (OK, key, 3, [7, 8, 9, 5]);
    agree(rt, removed(alloc, two, key), end);
    is_refused(rt, alloc, one, key, GONE);
    is_not_held(rt, alloc, one, key, NOT_HELD);
    let key = stored(rt, alloc, one, &[6]);
    agree(rt, removed_key(alloc, one, key), (OK, key));
    let key = stored(rt, alloc, one, &[]);
    agree(rt, removed(alloc, one, key), (OK, key, 0, [5; 4]));
}

// A key that is held ends by its last release.
fn ends_by_a_release(rt: &impl Abort, alloc: Global, one: &mut PassHandle, two: &mut PassHandle) {
    let key = stored(rt, alloc, one, &[7, 8, 9]);
    agree(rt, got(alloc, one, key), none(OK));
    agree(rt, got(alloc, two, key), none(OK));
    agree(rt, got_key(alloc, two, key), (OK, 0));
    agree(rt, released(alloc, two, key), none(OK));
    agree(rt, removed(alloc, two, key), none(OK));
    is_refused(rt, alloc, one, key, GONE);
    agree(rt, released_key(alloc, one, key), (OK, 0));
    let end = (OK, key, 3, [7, 8, 9, 5]);
    agree(rt, released(alloc, two, key), end);
    is_not_held(rt, alloc, two, key, NOT_HELD);
    let key = stored(rt, alloc, one, &[6]);
    agree(rt, got_key(alloc, two, key), (OK, 0));
    agree(rt, removed_key(alloc, one, key), (OK, 0));
    agree(rt, released_key(alloc, two, key), (OK, key));
}

#[test]
fn the_last_that_uses_a_key_ends_it(rt: HostRuntime) {
    let alloc = rt.alloc();
    let mut heap = opened(&rt, alloc, 1, 2);
    let mut one = owner(&rt, alloc, &mut heap, 0);
    let mut two = taken(&rt, alloc, &mut heap);
    ends_by_its_removal(&rt, alloc, &mut one, &mut two);
    ends_by_a_release(&rt, alloc, &mut one, &mut two);
    left(&rt, alloc, one);
    given(&rt, alloc, two);
}

// A value of sixteen words is told whole.
#[test]
fn all_words_are_told(rt: HostRuntime) {
    let alloc = rt.alloc();
    let mut heap = opened(&rt, alloc, 1, 1);
    let mut one = owner(&rt, alloc, &mut heap, 0);
    let all = [1, 2, 3, 4, 5, 6, 7, 8, 9, 10, 11, 12, 13, 14, 15, 16];
    let key = stored(&rt, alloc, &mut one, &all);
    let mut end = room();
    let code = shardheap_raw_remove_ended(alloc, &mut one, key, &mut end);
    agree(
        &rt,
        (code, end.key, end.length, end.words),
        (OK, key, 16, all),
    );
    left(&rt, alloc, one);
}

// A key of layout tiny may have four holds, and a pass sixteen. What is no key is refused as such.
#[test]
fn a_refused_call_of_one_thread_ends_nothing(rt: HostRuntime) {
    let alloc = rt.alloc();
    let mut heap = opened(&rt, alloc, 1, 1);
    let mut one = owner(&rt, alloc, &mut heap, 0);
    is_refused(&rt, alloc, &mut one, 0, BAD_KEY);
    is_refused(&rt, alloc, &mut one, u64::MAX, BAD_KEY);
    is_refused(&rt, alloc, &mut one, 8_192, GONE);
    for n in 0..4 {
        let key = stored(&rt, alloc, &mut one, &[n]);
        for _ in 0..4 {
            agree(&rt, got(alloc, &mut one, key), none(OK));
        }
        let wanted = if n == 3 { HOLDS_FULL } else { CROWDED };
        agree(&rt, got(alloc, &mut one, key), none(wanted));
        agree(&rt, got_key(alloc, &mut one, key), (wanted, 0));
    }
    left(&rt, alloc, one);
}

// In a growing heap the first chunk is full, so that the last key is of the second one.
#[test]
fn a_key_of_a_further_chunk_is_told_with_its_chunk(rt: HostRuntime) {
    let alloc = rt.alloc();
    let mut heap = HeapHandle::empty(alloc);
    let code = shardheap_raw_open_growing(alloc, &mut heap, 1, 1, 1, 2, 2);
    agree(&rt, code, OK);
    let mut one = taken(&rt, alloc, &mut heap);
    let mut two = taken(&rt, alloc, &mut heap);
    let mut key = 0;
    for n in 0..385 {
        key = stored(&rt, alloc, &mut one, &[n]);
    }
    agree(&rt, key >> 56, 1);
    agree(&rt, got(alloc, &mut two, key), none(OK));
    agree(&rt, removed(alloc, &mut one, key), none(OK));
    is_refused(&rt, alloc, &mut one, key, GONE);
    let end = (OK, key, 1, [384, 5, 5, 5]);
    agree(&rt, released(alloc, &mut two, key), end);
    is_not_held(&rt, alloc, &mut two, key, NOT_HELD);
    is_refused(&rt, alloc, &mut two, 3 << 56 | key, BAD_KEY);
    is_not_held(&rt, alloc, &mut two, 3 << 56 | key, BAD_KEY);
    given(&rt, alloc, one);
    given(&rt, alloc, two);
}
