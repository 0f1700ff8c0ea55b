//! Worked calls on the chunks of a growing heap.
//!
//! No clause says that a chunk which is open is found, or that the first one which is not open is opened.
use sh_grown::{Growing, GrowingShare, NotOpened, NotTold};
use sh_value::{Refusal, Value};
use std::fmt::Debug;
use std::process::Abort;

// Asserts that what was found is what is wanted. Each assertion that is written out is proved anew.
fn agree<T: PartialEq + Debug + Drop>(rt: &impl Abort, found: T, wanted: T) {
    assert_eq!(rt; found, wanted);
}

// The shards of a chunk that is open, and the segments of each.
fn size_of(growing: &Growing, number: usize) -> Option<(u32, u32)> {
    let chunk = growing.chunk(number)?;
    Some((chunk.shape().shards(), chunk.shape().segments()))
}

// 384 slots a segment: 500 values take two of them. The later chunks have the shapes of their numbers.
#[test]
fn the_first_chunk_alone_has_the_shape_that_is_asked_for(rt: HostRuntime) {
    let growing = GrowingShare::open_for(rt.alloc(), 3, 500, 1, 2, 3).expect(&rt, "a heap");
    agree(&rt, growing.heap().open_ahead(rt.alloc()), Ok(1));
    agree(&rt, size_of(growing.heap(), 0), Some((3, 2)));
    agree(&rt, size_of(growing.heap(), 1), Some((1, 1)));
    agree(&rt, size_of(growing.heap(), 2), None);
}

// Chunks 1 and 2 have one shard each, and the heap may have no more.
#[test]
fn the_next_chunk_is_opened_and_returned(rt: HostRuntime) {
    let growing = GrowingShare::open(rt.alloc(), 2, 3).expect(&rt, "a heap");
    agree(&rt, growing.heap().chunk(1).is_none(), true);
    let opened = growing.heap().open_next(rt.alloc()).expect(&rt, "a chunk");
    agree(&rt, opened.number(), 1);
    agree(&rt, opened.shape().shards(), 1);
    let last = growing.heap().open_next(rt.alloc()).expect(&rt, "a chunk");
    agree(&rt, last.number(), 2);
    let full = growing.heap().open_next(rt.alloc());
    agree(&rt, matches!(full, Err(NotOpened::Full(_))), true);
    let ahead = growing.heap().open_ahead(rt.alloc());
    agree(&rt, ahead, Err(Refusal::Full));
    let found = growing.heap().chunk(1).map(|chunk| chunk.number());
    agree(&rt, found, Some(1));
    agree(&rt, growing.heap().chunk(3).is_none(), true);
}

// Two shards of 384 slots, each with an owner: the one that is full does not use the room of the other.
#[test]
fn a_shard_with_an_owner_is_refused(rt: HostRuntime) {
    let growing = GrowingShare::open(rt.alloc(), 2, 1).expect(&rt, "a heap");
    let mut caller = growing.claim(rt.alloc()).expect(&rt, "a caller");
    let mut other = growing.claim(rt.alloc()).expect(&rt, "another caller");
    let one = Value::from(1);
    agree(&rt, other.insert(rt.alloc(), &one).is_ok(), true);
    for _ in 0..384 {
        agree(&rt, caller.insert(rt.alloc(), &one).is_ok(), true);
    }
    agree(&rt, caller.insert(rt.alloc(), &one), Err(Refusal::Full));
    agree(&rt, other.insert(rt.alloc(), &one).is_ok(), true);
    agree(&rt, other.end().is_ok(), true);
    agree(&rt, caller.insert(rt.alloc(), &one).is_ok(), true);
}

// 768 values fill the 16 pages of chunk 0. Chunk 1 has 8 pages, of which the first one has the last value.
#[test]
fn totals_are_summed_over_the_chunks(rt: HostRuntime) {
    let growing = GrowingShare::open(rt.alloc(), 2, 3).expect(&rt, "a heap");
    let mut caller = growing.claim(rt.alloc()).expect(&rt, "a caller");
    let one = Value::from(1);
    for _ in 0..769 {
        agree(&rt, caller.insert(rt.alloc(), &one).is_ok(), true);
    }
    agree(&rt, growing.heap().totals().err(), Some(NotTold::Away));
    agree(&rt, caller.end().is_ok(), true);
    agree(&rt, growing.heap().gather_chunks(rt.alloc()), Ok(2));
    let sums = growing.heap().totals().expect(&rt, "the totals");
    agree(&rt, (sums.chunks, sums.live, sums.marked), (2, 769, 0));
    agree(&rt, (sums.used_pages, sums.blank_pages), (17, 7));
}

// Chunks of 2, 1, 1, 2, 2, 4, 4, 8, 8, 16, 16 and 32 segments, which are 96 of 8 pages. Nothing is stored in them.
#[test]
fn twelve_chunks_are_gathered_and_counted(rt: HostRuntime) {
    let growing = GrowingShare::open(rt.alloc(), 1, 12).expect(&rt, "a heap");
    for _ in 1..12 {
        agree(&rt, growing.heap().open_ahead(rt.alloc()).is_ok(), true);
    }
    agree(&rt, growing.heap().chunks(), 12);
    agree(&rt, growing.heap().gather_chunks(rt.alloc()), Ok(12));
    let sums = growing.heap().totals().expect(&rt, "the totals");
    agree(&rt, (sums.chunks, sums.blank_pages), (12, 768));
}
