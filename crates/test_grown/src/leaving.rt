//! Callers that leave their shards between their inserts, and what is left as a caller is given back.
//!
//! No clause says which shard an insert finds, nor that a pass which was given back is in its pool.
use sh_grown::{Caller, GrowingShare};
use sh_value::{Refusal, Value};
use std::alloc::Global;
use std::fmt::Debug;
use std::process::Abort;

// Asserts that what was found is what is wanted. Each assertion that is written out is proved anew.
fn agree<T: PartialEq + Debug + Drop>(rt: &impl Abort, found: T, wanted: T) {
    assert_eq!(rt; found, wanted);
}

// 64 callers store a number each in a heap of one chunk with this many shards. Each finds room if those before it left
// their shards, and otherwise while a shard has no owner.
fn inserts_one_each(
    rt: &impl Abort,
    alloc: Global,
    growing: &GrowingShare,
    shards: u64,
    leaves: bool,
) {
    let mut callers = Vec::new(alloc);
    for n in 0..64 {
        let mut caller = growing.claim(alloc).expect(rt, "a caller");
        let stored = caller.insert(alloc, &Value::from(n)).map(|_key| n);
        agree(
            rt,
            stored,
            if leaves || n < shards {
                Ok(n)
            } else {
                Err(Refusal::NoShard)
            },
        );
        if leaves {
            agree(rt, caller.leave_idle(), Ok(()));
        }
        callers.push(caller).expect(rt, "room for a caller");
    }
}

// One shard with room for 1,000 values serves them all if each leaves it. If none does, only the first has a shard, and
// the others are refused as NoShard. Each has one if the heap was opened for 64 owners.
#[test]
fn sixty_four_callers_insert_a_value_each(rt: HostRuntime) {
    let shared = GrowingShare::open_for(rt.alloc(), 1, 1000, 1, 64, 1).expect(&rt, "a heap");
    inserts_one_each(&rt, rt.alloc(), &shared, 1, true);
    let owned = GrowingShare::open_for(rt.alloc(), 1, 1000, 1, 64, 1).expect(&rt, "a heap");
    inserts_one_each(&rt, rt.alloc(), &owned, 1, false);
    let wide = GrowingShare::open_for(rt.alloc(), 64, 1, 1, 64, 1).expect(&rt, "a heap");
    inserts_one_each(&rt, rt.alloc(), &wide, 64, false);
}

// A caller that owns a full shard is Full, one that owns none is NoShard, and Full too once it can own that one.
#[test]
fn a_caller_learns_why_an_insert_finds_no_room(rt: HostRuntime) {
    let growing = GrowingShare::open_for(rt.alloc(), 1, 1, 1, 2, 1).expect(&rt, "a heap");
    let mut caller = growing.claim(rt.alloc()).expect(&rt, "a caller");
    let mut other = growing.claim(rt.alloc()).expect(&rt, "another caller");
    let one = Value::from(1);
    for _ in 0..384 {
        agree(&rt, caller.insert(rt.alloc(), &one).is_ok(), true);
    }
    agree(&rt, caller.insert(rt.alloc(), &one), Err(Refusal::Full));
    agree(&rt, other.insert(rt.alloc(), &one), Err(Refusal::NoShard));
    agree(&rt, caller.leave(), Ok(()));
    agree(&rt, other.insert(rt.alloc(), &one), Err(Refusal::Full));
    agree(&rt, caller.insert(rt.alloc(), &one), Err(Refusal::NoShard));
}

// The caller leaves its shards in two chunks, also if it owns none, and inserts again.
#[test]
fn a_caller_leaves_its_idle_shards_in_each_chunk(rt: HostRuntime) {
    let growing = GrowingShare::open_for(rt.alloc(), 1, 1, 1, 2, 2).expect(&rt, "a heap");
    let mut caller = growing.claim(rt.alloc()).expect(&rt, "a caller");
    let mut other = growing.claim(rt.alloc()).expect(&rt, "another caller");
    agree(&rt, caller.leave_idle(), Ok(()));
    let one = Value::from(1);
    for _ in 0..385 {
        agree(&rt, caller.insert(rt.alloc(), &one).is_ok(), true);
    }
    agree(&rt, other.insert(rt.alloc(), &one), Err(Refusal::NoShard));
    agree(&rt, caller.leave_idle(), Ok(()));
    agree(&rt, caller.leave_idle(), Ok(()));
    let key = other.insert(rt.alloc(), &one).expect(&rt, "a key");
    agree(&rt, key >> 56, 1);
    agree(&rt, other.leave_idle(), Ok(()));
    agree(&rt, caller.insert(rt.alloc(), &one).is_ok(), true);
}

// A caller that is given back with its shards comes home, and its shards can be adopted.
#[test]
fn a_caller_that_is_given_back_leaves_its_shards(rt: HostRuntime) {
    let growing = GrowingShare::open_for(rt.alloc(), 1, 1, 1, 1, 2).expect(&rt, "a heap");
    let mut caller = growing.claim(rt.alloc()).expect(&rt, "a caller");
    let one = Value::from(1);
    let mut last = 0;
    for _ in 0..385 {
        last = caller.insert(rt.alloc(), &one).expect(&rt, "a key");
    }
    caller.give_back();
    let mut again = growing.claim(rt.alloc()).expect(&rt, "the caller again");
    agree(&rt, again.remove(last), Ok(()));
    agree(&rt, again.insert(rt.alloc(), &one).is_ok(), true);
    agree(&rt, growing.heap().chunks(), 2);
    agree(&rt, again.end().is_ok(), true);
    agree(&rt, growing.heap().gather_chunks(rt.alloc()), Ok(2));
}
