//! Several keys that one call loads.
use super::codes::{BAD_KEY, EMPTY, GONE, HOLDS_FULL, OK};
use super::{agree, ended, given, left, opened, owner, stored, taken};
use crate::batches::{Loaded, shardheap_raw_load_each};
use crate::calls::{shardheap_raw_get, shardheap_raw_release, shardheap_raw_remove};
use c_handles::PassHandle;
use std::alloc::Global;
use std::process::Abort;

// A key to load.
fn wanted(key: u64) -> Loaded {
    Loaded {
        key,
        length: 99,
        code: 66,
        words: [5; 16],
    }
}

// What is written for a load that is refused: the code alone.
fn is_refused(rt: &impl Abort, load: &Loaded, key: u64, code: u32) {
    agree(rt, (load.key, load.code, load.length), (key, code, 99));
    agree(rt, load.words, [5; 16]);
}

// What is written for a value of two words, of which the first is given and the second is 8.
fn is_loaded(rt: &impl Abort, load: &Loaded, key: u64, first: u64) {
    agree(rt, (load.key, load.code, load.length), (key, OK, 2));
    let mut words = [5; 16];
    words[0] = first;
    words[1] = 8;
    agree(rt, load.words, words);
}

#[test]
fn an_empty_handle_loads_nothing(rt: HostRuntime) {
    let alloc = rt.alloc();
    let mut pass = PassHandle::empty(alloc);
    let mut batch = [wanted(4_096)];
    agree(
        &rt,
        shardheap_raw_load_each(alloc, &mut pass, &mut batch),
        EMPTY,
    );
    is_refused(&rt, &batch[0], 4_096, 66);
    ended(alloc, pass);
}

// A number that is no key and a removed key stop no other load. One with four holds, as many as it may have, is loaded.
fn each_has_its_code(
    rt: &impl Abort,
    alloc: Global,
    owner: &mut PassHandle,
    pass: &mut PassHandle,
) {
    let gone = stored(rt, alloc, owner, &[6, 8]);
    let one = stored(rt, alloc, owner, &[7, 8]);
    let held = stored(rt, alloc, owner, &[8, 8]);
    let last = stored(rt, alloc, owner, &[9, 8]);
    agree(rt, shardheap_raw_remove(alloc, owner, gone), OK);
    for _ in 0..4 {
        agree(rt, shardheap_raw_get(alloc, pass, held), OK);
    }
    let mut batch = [
        wanted(0),
        wanted(one),
        wanted(gone),
        wanted(held),
        wanted(last),
    ];
    agree(rt, shardheap_raw_load_each(alloc, pass, &mut batch), OK);
    is_refused(rt, &batch[0], 0, BAD_KEY);
    is_loaded(rt, &batch[1], one, 7);
    is_refused(rt, &batch[2], gone, GONE);
    is_loaded(rt, &batch[3], held, 8);
    is_loaded(rt, &batch[4], last, 9);
}

#[test]
fn each_load_has_its_code(rt: HostRuntime) {
    let alloc = rt.alloc();
    let mut heap = opened(&rt, alloc, 1, 2);
    let mut one = owner(&rt, alloc, &mut heap, 0);
    let mut other = taken(&rt, alloc, &mut heap);
    each_has_its_code(&rt, alloc, &mut one, &mut other);
    left(&rt, alloc, one);
    given(&rt, alloc, other);
}

// A load of the key, and of that of the next slot, which was not issued: that load goes on to a get.
fn next_is_refused(rt: &impl Abort, alloc: Global, pass: &mut PassHandle, key: u64, code: u32) {
    let next = key.wrapping_add(1);
    let mut batch = [wanted(next), wanted(key)];
    agree(rt, shardheap_raw_load_each(alloc, pass, &mut batch), OK);
    is_refused(rt, &batch[0], next, code);
    is_loaded(rt, &batch[1], key, 7);
}

// Nine loads, one more than a block has, by a pass that has sixteen holds.
fn nine_loads(rt: &impl Abort, alloc: Global, pass: &mut PassHandle) {
    let mut key = 0;
    for _ in 0..4 {
        key = stored(rt, alloc, pass, &[7, 8]);
        for _ in 0..4 {
            agree(rt, shardheap_raw_get(alloc, pass, key), OK);
        }
    }
    let mut batch = [wanted(key); 9];
    agree(rt, shardheap_raw_load_each(alloc, pass, &mut batch), OK);
    for load in &batch {
        is_loaded(rt, load, key, 7);
    }
    next_is_refused(rt, alloc, pass, key, HOLDS_FULL);
    agree(rt, shardheap_raw_release(alloc, pass, key), OK);
    next_is_refused(rt, alloc, pass, key, GONE);
    agree(rt, shardheap_raw_load_each(alloc, pass, &mut []), OK);
}

#[test]
fn a_batch_needs_no_hold(rt: HostRuntime) {
    let alloc = rt.alloc();
    let mut heap = opened(&rt, alloc, 1, 1);
    let mut pass = owner(&rt, alloc, &mut heap, 0);
    nine_loads(&rt, alloc, &mut pass);
    left(&rt, alloc, pass);
}
