//! Tests of passes that meet: when they are the whole, and the accounts of pages that nobody has owned.
use crate::assertions::agree;
use sh_gather::{Accounts, Whole, join, whole};
use sh_key::{KeyLayout, Tagged, Tiny, Wide};
use sh_pass::Heap;
use sh_shape::Shape;
use sh_value::Refusal;
use std::alloc::Global;
use std::process::Abort;
use std::test::Fail;

// A page without a class, of whose slots nothing is counted.
const BLANK: Accounts = Accounts {
    class: None,
    live: 0,
    marked: 0,
    retired: 0,
    mine: 0,
    hand: 0,
    queued: 0,
};

// Joins two of three passes, and then all three.
fn whole_needs_all<L: KeyLayout>(rt: &impl Abort, alloc: Global) {
    let shape = Shape::new(1, 1, 3).expect(rt, "a shape");
    let (heap, seats) = Heap::<L>::open(alloc, shape).expect(rt, "a heap");
    let Ok(mut passes) = heap.passes(alloc, seats) else {
        panic!(rt; "no passes")
    };
    let (Some(third), Some(second), Some(first)) = (passes.pop(), passes.pop(), passes.pop()) else {
        panic!(rt; "not three passes")
    };
    let Err(first) = whole(first) else {
        panic!(rt; "one of three passes is no whole")
    };
    let Err(both) = whole(join(first, third)) else {
        panic!(rt; "two of three passes are no whole")
    };
    agree(rt, whole(join(both, second)).is_ok(), true);
}

#[test]
fn a_whole_needs_all_passes(rt: HostRuntime) -> Result<(), Fail> {
    whole_needs_all::<Tiny>(&rt, rt.alloc());
    whole_needs_all::<Wide>(&rt, rt.alloc());
    whole_needs_all::<Tagged>(&rt, rt.alloc());
    Ok(())
}

// Two shards of one segment have 8 pages each, and as nobody has owned a shard, none of them has a class. The get is
// refused: it enters a slot and leaves it.
fn pages_are_blank<L: KeyLayout>(rt: &impl Abort, alloc: Global, key: u64) {
    let shape = Shape::new(2, 1, 2).expect(rt, "a shape");
    let (heap, seats) = Heap::<L>::open(alloc, shape).expect(rt, "a heap");
    let Ok(mut passes) = heap.passes(alloc, seats) else {
        panic!(rt; "no passes")
    };
    let (Some(mut second), Some(first)) = (passes.pop(), passes.pop()) else {
        panic!(rt; "not two passes")
    };
    agree(rt, second.get(key), Err(Refusal::Gone));
    let Ok(mut all) = whole(join(first, second)) else {
        panic!(rt; "both passes are the whole")
    };
    blank_in_each_shard(rt, &mut all);
    none_past_the_last(rt, &mut all);
    // Words that were noted before change no result.
    blank_in_each_shard(rt, &mut all);
}

fn blank_in_each_shard<L: KeyLayout>(rt: &impl Abort, all: &mut Whole<'_, L>) {
    for shard in 0..2 {
        for page in 0..8 {
            agree(
                rt,
                (shard, page, all.accounts(shard, page)),
                (shard, page, Some(BLANK)),
            );
        }
    }
}

fn none_past_the_last<L: KeyLayout>(rt: &impl Abort, all: &mut Whole<'_, L>) {
    agree(rt, all.accounts(0, 8), None);
    agree(rt, all.accounts(1, 8), None);
    agree(rt, all.accounts(2, 0), None);
    agree(rt, all.accounts(4294967295, 4294967295), None);
}

// The least key of each layout names slot 0 of page 0 of shard 0, in generation 1.
#[test]
fn pages_without_an_owner_are_blank(rt: HostRuntime) -> Result<(), Fail> {
    pages_are_blank::<Tiny>(&rt, rt.alloc(), 4096);
    pages_are_blank::<Wide>(&rt, rt.alloc(), 16777216);
    pages_are_blank::<Tagged>(&rt, rt.alloc(), 1048576);
    Ok(())
}
