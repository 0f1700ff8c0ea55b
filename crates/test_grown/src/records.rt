//! Records of one type in a growing heap, stored and removed by four threads.
//!
//! No clause says that an insert finds room, or which chunk it goes to.
use sh_grown::{Caller, GrowingShare};
use sh_typed::Typed;
use sh_value::Refusal;
use std::alloc::Global;
use std::fmt::Debug;
use std::process::Abort;
use std::thread::join;

// How many records a thread stores. Four times as many are more than the first chunk has room for: of its 4 shards each
// has 8 pages, of 16 slots of three words.
const EACH: u64 = 400;

// Asserts that what was found is what is wanted. Each assertion that is written out is proved anew.
fn agree<T: PartialEq + Debug + Drop>(rt: &impl Abort, found: T, wanted: T) {
    assert_eq!(rt; found, wanted);
}

// Asserts that the keys have the records from `from` on, by looks.
fn has_all(rt: &impl Abort, points: &mut Typed<Caller, (u64, u64)>, keys: &[u64], from: u64) {
    let mut wanted = from;
    for key in keys {
        agree(rt, points.look(*key), Ok((wanted, 7)));
        wanted = wanted.wrapping_add(1);
    }
}

// A thread's work: its caller stores records, and comes back with their keys. Each is found, and a second one that is
// stored meanwhile is removed again.
fn works(rt: &impl Abort, alloc: Global, caller: Caller, from: u64) -> (Caller, Vec<u64>) {
    let mut points = Typed::<_, (u64, u64)>::new(caller);
    let mut keys = Vec::new(alloc);
    for n in 0..EACH {
        let point = (from.wrapping_add(n), 7);
        let key = points.insert(&point).expect(rt, "a key");
        let gone = points.insert(&(n, 8)).expect(rt, "another key");
        let (hold, found) = points.get(key).expect(rt, "a hold");
        agree(rt, found, point);
        agree(rt, points.release(hold), Ok(()));
        agree(rt, points.remove(gone), Ok(()));
        agree(rt, points.look(gone), Err(Refusal::Gone));
        keys.push(key).expect(rt, "room for a key");
    }
    has_all(rt, &mut points, &keys, from);
    (points.into_store(), keys)
}

#[test]
fn four_threads_store_records(rt: HostRuntime) {
    let growing = GrowingShare::open(rt.alloc(), 4, 256).expect(&rt, "a heap");
    let alloc = rt.alloc();
    let one = growing.claim(alloc).expect(&rt, "a caller");
    let two = growing.claim(alloc).expect(&rt, "a second caller");
    let three = growing.claim(alloc).expect(&rt, "a third caller");
    let four = growing.claim(alloc).expect(&rt, "a fourth caller");
    let (((one, first), (_two, second)), ((_three, third), (_four, fourth))) = join(
        &rt,
        || {
            join(
                &rt,
                || works(&rt, alloc, one, 0),
                || works(&rt, alloc, two, 1_000),
            )
        },
        || {
            join(
                &rt,
                || works(&rt, alloc, three, 2_000),
                || works(&rt, alloc, four, 3_000),
            )
        },
    );
    agree(&rt, growing.heap().chunks() > 1, true);
    let mut points = Typed::<_, (u64, u64)>::new(one);
    has_all(&rt, &mut points, &first, 0);
    has_all(&rt, &mut points, &second, 1_000);
    has_all(&rt, &mut points, &third, 2_000);
    has_all(&rt, &mut points, &fourth, 3_000);
}

// A value of one word is no record of two, and a number of a chunk that is not open is no key.
#[test]
fn a_record_of_another_kind_is_refused(rt: HostRuntime) {
    let growing = GrowingShare::open(rt.alloc(), 1, 2).expect(&rt, "a heap");
    let caller = growing.claim(rt.alloc()).expect(&rt, "a caller");
    let mut counts = Typed::<_, u64>::new(caller);
    let key = counts.insert(&9).expect(&rt, "a key");
    let mut points = Typed::<_, (u64, u64)>::new(counts.into_store());
    agree(&rt, points.look(key), Err(Refusal::WrongKind));
    agree(&rt, points.get(key).err(), Some(Refusal::WrongKind));
    agree(&rt, points.look(1 << 56 | key), Err(Refusal::BadKey));
    let mut counts = Typed::<_, u64>::new(points.into_store());
    agree(&rt, counts.look(key), Ok(9));
}
