//! Walks over the live keys of growing heaps.
//!
//! No clause says that a chunk which is open is found, so none says that the walks here find the keys of later chunks.
//! 768 values fill chunk 0, and 384 more fill chunk 1.
use sh_grown::{Caller, GrowingShare};
use sh_value::{Refusal, Value};
use std::alloc::Global;
use std::fmt::Debug;
use std::process::Abort;

// Asserts that what was found is what is wanted. Each assertion that is written out is proved anew.
fn agree<T: PartialEq + Debug + Drop>(rt: &impl Abort, found: T, wanted: T) {
    assert_eq!(rt; found, wanted);
}

// Stores the numbers below `count`, and returns the last key.
fn stored(rt: &impl Abort, alloc: Global, caller: &mut Caller, count: u64) -> u64 {
    let mut last = 0;
    for n in 0..count {
        last = caller.insert(alloc, &Value::from(n)).expect(rt, "a key");
    }
    last
}

// Walks over the places from `from` on and before `before`, and returns how many keys it found and the sum of their
// values. Each key is of a place behind the one before, and a look finds its value.
fn walked(rt: &impl Abort, caller: &mut Caller, from: u64, before: u64) -> (u64, u64) {
    let (mut count, mut sum, mut place) = (0_u64, 0_u64, from);
    // There are at most 1,536 keys: a walk that goes round ends here.
    for _ in 0..2000 {
        let Some(next) = caller.next_live(place, before).expect(rt, "a walk") else {
            break;
        };
        agree(rt, place < next.behind, true);
        agree(rt, next.behind >> 56, next.key >> 56);
        agree(rt, caller.look(next.key), Ok(next.value.copy()));
        count = count.wrapping_add(1);
        sum = sum.wrapping_add(next.value.words().first().copied().unwrap_or(0));
        place = next.behind;
    }
    (count, sum)
}

// The other caller meets chunks 1 and 2 in its walk. 1,200 values have the sum 1,199 x 600 = 719,400; the first 768 of
// them 767 x 384 = 294,528, and the next 384 of them 384 x 768 + 383 x 192 = 368,448.
#[test]
fn a_walk_finds_the_keys_of_each_chunk(rt: HostRuntime) {
    let growing = GrowingShare::open(rt.alloc(), 2, 3).expect(&rt, "a heap");
    let mut caller = growing.claim(rt.alloc()).expect(&rt, "a caller");
    let mut other = growing.claim(rt.alloc()).expect(&rt, "another caller");
    agree(&rt, walked(&rt, &mut other, 0, u64::MAX), (0, 0));
    let last = stored(&rt, rt.alloc(), &mut caller, 1200);
    agree(&rt, last >> 56, 2);
    agree(&rt, walked(&rt, &mut other, 0, u64::MAX), (1200, 719_400));
    agree(&rt, walked(&rt, &mut other, 0, 1 << 56), (768, 294_528));
    agree(
        &rt,
        walked(&rt, &mut other, 1 << 56, 2 << 56),
        (384, 368_448),
    );
    agree(&rt, walked(&rt, &mut other, 3 << 56, u64::MAX), (0, 0));
    agree(&rt, walked(&rt, &mut other, 2 << 56, 1 << 56), (0, 0));
    // Its holds are as they were: 16 find room.
    for _ in 0..16 {
        agree(&rt, other.get(last).is_ok(), true);
    }
}

// The keys that the janitor finds are removed. The last one is removed before the walk comes to it.
#[test]
fn a_janitor_removes_each_key(rt: HostRuntime) {
    let growing = GrowingShare::open(rt.alloc(), 2, 3).expect(&rt, "a heap");
    let mut caller = growing.claim(rt.alloc()).expect(&rt, "a caller");
    let mut janitor = growing.claim(rt.alloc()).expect(&rt, "a janitor");
    let last = stored(&rt, rt.alloc(), &mut caller, 1200);
    let (mut count, mut place) = (0_u64, 0);
    for _ in 0..2000 {
        let Some(next) = janitor.next_live(place, u64::MAX).expect(&rt, "a walk") else {
            break;
        };
        agree(&rt, janitor.remove(next.key), Ok(()));
        if count == 500 {
            agree(&rt, caller.remove(last), Ok(()));
        }
        count = count.wrapping_add(1);
        place = next.behind;
    }
    agree(&rt, count, 1199);
    agree(&rt, walked(&rt, &mut caller, 0, u64::MAX), (0, 0));
}

// Of 1,200 values in three chunks, those of chunk 1 are removed by their keys, then those below 100 by their values, and
// then the others.
#[test]
fn a_caller_removes_the_keys_that_are_chosen(rt: HostRuntime) {
    let growing = GrowingShare::open(rt.alloc(), 2, 3).expect(&rt, "a heap");
    let mut caller = growing.claim(rt.alloc()).expect(&rt, "a caller");
    let mut janitor = growing.claim(rt.alloc()).expect(&rt, "a janitor");
    let last = stored(&rt, rt.alloc(), &mut caller, 1200);
    agree(&rt, janitor.remove_if(|_key, _value| false), Ok(0));
    agree(
        &rt,
        janitor.remove_if(|key, _value| key >> 56 == 1),
        Ok(384),
    );
    agree(&rt, walked(&rt, &mut caller, 1 << 56, 2 << 56), (0, 0));
    agree(
        &rt,
        janitor.remove_if(|_key, value| value.words().first().copied().unwrap_or(0) < 100),
        Ok(100),
    );
    agree(&rt, walked(&rt, &mut caller, 0, u64::MAX).0, 716);
    agree(&rt, caller.remove(last), Ok(()));
    agree(&rt, janitor.remove_if(|_key, _value| true), Ok(715));
    agree(&rt, walked(&rt, &mut caller, 0, u64::MAX), (0, 0));
}

// Chunk 1 is opened while the walk is in chunk 0.
#[test]
fn a_walk_finds_keys_of_a_chunk_that_opens_meanwhile(rt: HostRuntime) {
    let growing = GrowingShare::open(rt.alloc(), 2, 2).expect(&rt, "a heap");
    let mut caller = growing.claim(rt.alloc()).expect(&rt, "a caller");
    let mut other = growing.claim(rt.alloc()).expect(&rt, "another caller");
    let _key = stored(&rt, rt.alloc(), &mut caller, 768);
    let first = other.next_live(0, u64::MAX).expect(&rt, "a walk");
    let place = first.map(|next| next.behind).unwrap_or(0);
    agree(&rt, place > 0, true);
    let key = caller
        .insert(rt.alloc(), &Value::from(7))
        .expect(&rt, "a key");
    agree(&rt, key >> 56, 1);
    agree(&rt, walked(&rt, &mut other, place, u64::MAX).0, 768);
}

// A caller has 16 holds in each chunk: the walk is refused at the next key, and goes on after a release.
#[test]
fn a_walk_holds_sixteen_keys_in_each_chunk(rt: HostRuntime) {
    let growing = GrowingShare::open(rt.alloc(), 2, 3).expect(&rt, "a heap");
    let mut caller = growing.claim(rt.alloc()).expect(&rt, "a caller");
    let mut other = growing.claim(rt.alloc()).expect(&rt, "another caller");
    let _last = stored(&rt, rt.alloc(), &mut caller, 1200);
    let mut held = 0;
    for chunk in 0..3_u64 {
        let mut place = chunk << 56;
        for _ in 0..16 {
            let next = other
                .next_held(place, u64::MAX)
                .expect(&rt, "a walk")
                .expect(&rt, "a key");
            agree(&rt, next.key >> 56, chunk);
            agree(&rt, next.hold.map(|hold| hold.key), Some(next.key));
            held = next.key;
            place = next.behind;
        }
        agree(
            &rt,
            other.next_held(place, u64::MAX).err(),
            Some(Refusal::HoldsFull),
        );
        agree(&rt, caller.remove(held), Ok(()));
        let hold = sh_value::Hold { key: held };
        agree(&rt, other.read(hold).is_ok(), true);
        agree(&rt, other.release(hold), Ok(()));
        let next = other.next_held(place, u64::MAX).expect(&rt, "a walk");
        agree(&rt, next.map(|next| next.behind > place), Some(true));
    }
}
