//! What no clause says: a missing pass is noticed, the passes that a refused gather took are back in their pool slots,
//! and passes that were joined once stay joined.
use super::{all_are_away, comes_home, is_away, is_given, shared_pass, taken, taken_at};
use crate::assertions::{agree, holds};
use sh_gather::{Accounts, Totals};
use sh_key::Tiny;
use sh_pool::{Pool, Share};
use sh_shape::Shape;
use sh_shard::shard::ShardOn;
use sh_value::Value;
use sh_whole::{NotTold, gather_pool, pool_accounts, pool_totals};
use std::alloc::Global;
use std::process::Abort;

// One shard of 8 pages.
fn opened(rt: &impl Abort, alloc: Global, passes: u32) -> Pool<Tiny> {
    let shape = Shape::new(1, 1, passes).expect(rt, "a shape");
    Pool::<Tiny>::open(alloc, shape).expect(rt, "a pool")
}

const NOTHING: Totals = Totals {
    live: 0,
    marked: 0,
    retired: 0,
    queued: 0,
    used_pages: 0,
    blank_pages: 8,
};

#[test]
fn a_pass_that_is_away_is_missed(rt: HostRuntime) {
    let pool = opened(&rt, rt.alloc(), 3);
    let away = taken_at(&rt, &pool, 1);
    assert_eq!(rt; gather_pool(rt.alloc(), &pool), Err(NotTold::Away));
    assert_eq!(rt; pool_totals(&pool), Err(NotTold::Away));
    assert_eq!(rt; pool_accounts(&pool, 0, 0), Err(NotTold::Away));
    // Both of the others are back in their pool slots, and still two.
    let one = taken_at(&rt, &pool, 0);
    let other = taken_at(&rt, &pool, 2);
    assert_eq!(rt; gather_pool(rt.alloc(), &pool), Err(NotTold::Away));
    holds(&rt, comes_home(&pool, one));
    holds(&rt, comes_home(&pool, away));
    holds(&rt, comes_home(&pool, other));
    assert_eq!(rt; gather_pool(rt.alloc(), &pool), Ok(()));
    assert_eq!(rt; pool_totals(&pool), Ok(NOTHING));
}

#[test]
fn passes_that_met_are_one(rt: HostRuntime) {
    let pool = opened(&rt, rt.alloc(), 4);
    agree(&rt, pool_totals(&pool), Err(NotTold::Away));
    agree(&rt, gather_pool(rt.alloc(), &pool), Ok(()));
    let carrier = taken(&rt, &pool);
    holds(&rt, all_are_away(&pool));
    agree(&rt, pool_totals(&pool), Err(NotTold::Away));
    holds(&rt, comes_home(&pool, carrier));
    agree(&rt, gather_pool(rt.alloc(), &pool), Ok(()));
    agree(&rt, pool_totals(&pool), Ok(NOTHING));
    agree(&rt, pool_accounts(&pool, 1, 0), Err(NotTold::NoPage));
    agree(&rt, pool_accounts(&pool, 0, 8), Err(NotTold::NoPage));
}

// Inserts two values by a pass of the pool, and removes the first.
fn one_value(rt: &impl Abort, alloc: Global, share: &Share<Tiny>) {
    let (pass, pool_slot) = shared_pass(rt, share);
    let Ok(mut shard) = ShardOn::adopt(alloc, pass, 0) else {
        panic!(rt; "the shard is not adopted")
    };
    let key = shard.insert(&Value::of([7])).expect(rt, "a key");
    holds(rt, shard.insert(&Value::of([8])).is_ok());
    holds(rt, shard.remove(key).is_ok());
    let Ok(pass) = shard.leave() else {
        panic!(rt; "the shard is not left")
    };
    holds(rt, is_given(pass, pool_slot));
}

#[test]
fn what_was_inserted_is_told(rt: HostRuntime) {
    let pool = opened(&rt, rt.alloc(), 2);
    let share = Share::new(rt.alloc(), pool).expect(&rt, "a share");
    one_value(&rt, rt.alloc(), &share);
    agree(&rt, gather_pool(rt.alloc(), share.pool()), Ok(()));
    let page = Accounts {
        class: Some(0),
        live: 1,
        marked: 0,
        retired: 0,
        mine: 0,
        hand: 0,
        queued: 47,
    };
    agree(&rt, pool_accounts(share.pool(), 0, 0), Ok(page));
    let sums = Totals {
        live: 1,
        queued: 47,
        used_pages: 1,
        blank_pages: 7,
        ..NOTHING
    };
    agree(&rt, pool_totals(share.pool()), Ok(sums));
    // The joined pass can be used again.
    one_value(&rt, rt.alloc(), &share);
    let live = pool_totals(share.pool()).map(|sums| sums.live);
    agree(&rt, live, Ok(2));
}

// If memory is refused, each pass is back in its pool slot.
#[test]
fn refused_memory_calls_nobody(rt: HostRuntime) {
    let Ok(shape) = Shape::new(1, 1, 2) else {
        panic!(rt; "no shape")
    };
    let Ok(pool) = Pool::<Tiny>::open(rt.alloc(), shape) else {
        return;
    };
    if gather_pool(rt.alloc(), &pool) == Err(NotTold::Memory) {
        holds(&rt, !is_away(&pool, 0));
        holds(&rt, !is_away(&pool, 1));
    }
}
