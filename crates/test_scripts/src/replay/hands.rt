//! Tests of a shard that changes hands: each owner gives pages a class, and after all passes are joined, the accounts
//! of each page add up.
use crate::assertions::agree;
use sh_core::Accounts;
use sh_gather::{Whole, join, whole};
use sh_key::{KeyLayout, Tiny};
use sh_pass::Heap;
use sh_shape::Shape;
use sh_shard::Shard;
use std::process::Abort;

// The accounts of a page of this class, or of none, whose slots are all queued.
fn empty(class: Option<u32>, queued: u32) -> Accounts {
    Accounts {
        class,
        live: 0,
        marked: 0,
        retired: 0,
        mine: 0,
        hand: 0,
        queued,
    }
}

fn add_up<L: KeyLayout>(rt: &impl Abort, all: &mut Whole<'_, L>) {
    agree(rt, all.accounts(0, 0), Some(empty(Some(7), 3)));
    agree(rt, all.accounts(0, 1), Some(empty(Some(0), 48)));
    agree(rt, all.accounts(0, 2), Some(empty(Some(7), 3)));
    for page in 3..8 {
        agree(
            rt,
            (page, all.accounts(0, page)),
            (page, Some(empty(None, 0))),
        );
    }
    agree(rt, all.accounts(0, 8), None);
}

#[test]
fn pages_of_two_owners_add_up(rt: HostRuntime) {
    let shape = Shape::new(1, 1, 2).expect(&rt, "a shape");
    let (heap, seats) = Heap::<Tiny>::open(rt.alloc(), shape).expect(&rt, "a heap");
    let Ok(mut passes) = heap.passes(rt.alloc(), seats) else {
        panic!(rt; "no passes")
    };
    let (Some(second), Some(first)) = (passes.pop(), passes.pop()) else {
        panic!(rt; "not two passes")
    };
    let Ok(mut shard) = Shard::adopt(rt.alloc(), first, 0) else {
        panic!(rt; "the first pass adopts the shard")
    };
    assert_eq!(rt; shard.prepare(7), Ok(0));
    assert_eq!(rt; shard.prepare(0), Ok(1));
    let Ok(first) = shard.leave() else {
        panic!(rt; "the first owner leaves")
    };
    let Ok(mut shard) = Shard::adopt(rt.alloc(), second, 0) else {
        panic!(rt; "the second pass adopts the shard")
    };
    assert_eq!(rt; shard.prepare(7), Ok(2));
    let Ok(second) = shard.leave() else {
        panic!(rt; "the second owner leaves")
    };
    let Ok(mut all) = whole(join(first, second)) else {
        panic!(rt; "both passes are the whole")
    };
    add_up(&rt, &mut all);
}
