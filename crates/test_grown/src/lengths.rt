//! Values of another length where all others were removed: no chunk is opened for them.
use sh_grown::{Caller, GrowingShare};
use sh_value::Value;
use std::alloc::Global;
use std::fmt::Debug;
use std::process::Abort;

// The most words of a value of each class: a page has 48 words, and so 48 values of one word, or 3 of 16.
const LENGTHS: [usize; 8] = [1, 2, 3, 4, 6, 8, 12, 16];

// The words of the first chunk: 2 shards of 8 pages.
const WORDS: usize = 768;

// Who removes the values that are stored first.
#[derive(Clone, Copy)]
enum Remover {
    Owner,
    Other,
    OtherOnceTheOwnerIsGone,
}

// Asserts that what was found is what is wanted. Each assertion that is written out is proved anew.
fn agree<T: PartialEq + Debug + Drop>(rt: &impl Abort, found: T, wanted: T) {
    assert_eq!(rt; found, wanted);
}

// Fills the first chunk with values of this many words, and returns their keys.
fn filled(rt: &impl Abort, alloc: Global, caller: &mut Caller, length: usize) -> Vec<u64> {
    let words = [7; 16];
    let value = Value::new(words.get(..length).expect(rt, "16 words at most")).expect(
        rt, "a value",
    );
    let mut keys = Vec::new(alloc);
    for _ in 0..WORDS.checked_div(length).expect(rt, "some words") {
        let key = caller.insert(alloc, &value).expect(rt, "a key");
        keys.push(key).expect(rt, "room for a key");
    }
    keys
}

fn remove_all(rt: &impl Abort, caller: &mut Caller, keys: &[u64]) {
    for key in keys {
        agree(rt, caller.remove(*key), Ok(()));
    }
}

// Fills a heap with values of one length, has them removed, and fills it with those of another.
fn changes(rt: &impl Abort, alloc: Global, first: usize, then: usize, remover: Remover) {
    let growing = GrowingShare::open(alloc, 2, 2).expect(rt, "a heap");
    let mut caller = growing.claim(alloc).expect(rt, "a caller");
    let mut other = growing.claim(alloc).expect(rt, "another caller");
    let keys = filled(rt, alloc, &mut caller, first);
    match remover {
        Remover::Owner => {
            remove_all(rt, &mut caller, &keys);
            filled(rt, alloc, &mut caller, then);
        }
        Remover::Other => {
            remove_all(rt, &mut other, &keys);
            filled(rt, alloc, &mut caller, then);
        }
        Remover::OtherOnceTheOwnerIsGone => {
            agree(rt, caller.leave_idle(), Ok(()));
            remove_all(rt, &mut other, &keys);
            filled(rt, alloc, &mut other, then);
        }
    }
    agree(rt, growing.heap().chunks(), 1);
}

// All 56 pairs of classes.
fn each_pair_changes(rt: &impl Abort, alloc: Global, remover: Remover) {
    for first in LENGTHS {
        for then in LENGTHS {
            if first != then {
                changes(rt, alloc, first, then, remover);
            }
        }
    }
}

#[test]
fn lengths_change_where_the_owner_removed(rt: HostRuntime) {
    each_pair_changes(&rt, rt.alloc(), Remover::Owner);
}

#[test]
fn lengths_change_where_another_removed(rt: HostRuntime) {
    each_pair_changes(&rt, rt.alloc(), Remover::Other);
}

#[test]
fn lengths_change_where_the_owner_is_gone(rt: HostRuntime) {
    each_pair_changes(&rt, rt.alloc(), Remover::OtherOnceTheOwnerIsGone);
}
