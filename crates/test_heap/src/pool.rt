//! Tests of pools: passes are taken one by one and given back, by one thread and by two, and they are joined.
//!
//! What no clause says. At first each pass is in its pool slot, no call finds a pass that was taken, and a pass that
//! was given back can be taken again.
ghost use Rattle.std.specs.Prelude.{◌≡◌};

mod whole;

use crate::assertions::{agree, holds};
use sh_key::Tiny;
use sh_pass::PassState;
use sh_pass::pass::PassOn;
use sh_pool::{Pool, PoolSlot, Share, Taken, give_pass, take_pass};
use sh_shape::Shape;
use sh_value::Refusal;
use std::alloc::Global;
use std::process::Abort;
use std::thread::join;

fn opened(rt: &impl Abort, alloc: Global, passes: u32) -> Pool<Tiny> {
    let shape = Shape::new(1, 1, passes).expect(rt, "a shape");
    Pool::<Tiny>::open(alloc, shape).expect(rt, "a pool")
}

// The pass that is taken from the first pool slot that has one.
pub(crate) fn taken(rt: &impl Abort, pool: &Pool<Tiny>) -> Taken<Tiny>
    ensures { result.state.heap ≡ pool.now }
{
    match pool.take() {
        Some(taken) => taken,
        None => panic!(rt; "no pass is at home"),
    }
}

// The pass of the pool slot of this number.
pub(crate) fn taken_at(rt: &impl Abort, pool: &Pool<Tiny>, number: usize) -> Taken<Tiny>
    ensures { result.state.heap ≡ pool.now }
{
    match pool.take_at(number) {
        Some(taken) => taken,
        None => panic!(rt; "the pass is away"),
    }
}

// Whether each pool slot is empty. A pass that is found is lost.
pub(crate) fn all_are_away(pool: &Pool<Tiny>) -> bool {
    match pool.take() {
        Some(taken) => {
            taken.lose();
            false
        }
        None => true,
    }
}

// Whether the pool slot of this number is empty or does not exist. A pass that is found is lost.
pub(crate) fn is_away(pool: &Pool<Tiny>, number: usize) -> bool {
    match pool.take_at(number) {
        Some(taken) => {
            taken.lose();
            false
        }
        None => true,
    }
}

// Gives a pass back, and returns whether that succeeded. A refused pass is lost.
pub(crate) fn comes_home(pool: &Pool<Tiny>, taken: Taken<Tiny>) -> bool
    requires { taken.state.heap ≡ pool.now }
{
    let Taken { state, pool_slot } = taken;
    match pool.give(state, pool_slot) {
        Ok(()) => true,
        Err((_state, pool_slot)) => {
            pool_slot.lose();
            false
        }
    }
}

#[test]
fn each_pass_is_taken_once_and_comes_home(rt: HostRuntime) {
    let pool = opened(&rt, rt.alloc(), 2);
    agree(&rt, pool.pool_slots(), 2);
    let one = taken(&rt, &pool);
    let other = taken(&rt, &pool);
    agree(
        &rt,
        (one.pool_slot.number(), other.pool_slot.number()),
        (0, 1),
    );
    holds(&rt, all_are_away(&pool));
    holds(&rt, comes_home(&pool, other));
    holds(&rt, is_away(&pool, 0));
    holds(&rt, is_away(&pool, 2));
    let again = taken(&rt, &pool);
    agree(&rt, again.pool_slot.number(), 1);
    holds(&rt, comes_home(&pool, one));
    holds(&rt, comes_home(&pool, again));
    holds(&rt, !all_are_away(&pool));
}

// A lost pass never comes back, and the other stays in its pool slot.
#[test]
fn a_pass_that_is_lost_stays_away(rt: HostRuntime) {
    let pool = opened(&rt, rt.alloc(), 2);
    taken_at(&rt, &pool, 0).lose();
    holds(&rt, is_away(&pool, 0));
    let other = taken(&rt, &pool);
    agree(&rt, other.pool_slot.number(), 1);
    holds(&rt, all_are_away(&pool));
    holds(&rt, comes_home(&pool, other));
    holds(&rt, is_away(&pool, 0));
}

// Gives a pass back with the pool slot of another pass, which is refused.
fn refused(
    rt: &impl Abort,
    pool: &Pool<Tiny>,
    state: PassState<Tiny>,
    pool_slot: PoolSlot<Tiny>,
) -> (PassState<Tiny>, PoolSlot<Tiny>)
    requires { state.heap ≡ pool.now }
    ensures { result.0.heap ≡ pool.now }
{
    match pool.give(state, pool_slot) {
        Ok(()) => panic!(rt; "the pool slot of another pass serves"),
        Err(back) => back,
    }
}

// The same with a pool slot of another pool, which is lost. Returns the pass and the number of that pool slot.
fn refused_there(
    rt: &impl Abort,
    pool: &Pool<Tiny>,
    state: PassState<Tiny>,
    pool_slot: PoolSlot<Tiny>,
) -> (PassState<Tiny>, usize)
    requires { state.heap ≡ pool.now }
    ensures { result.0.heap ≡ pool.now }
{
    let (state, pool_slot) = refused(rt, pool, state, pool_slot);
    let number = pool_slot.number();
    pool_slot.lose();
    (state, number)
}

// Both pool slots are empty, and each takes its own pass alone.
#[test]
fn a_pass_comes_home_to_its_own_pool_slot_alone(rt: HostRuntime) {
    let pool = opened(&rt, rt.alloc(), 2);
    let Taken {
        state: one,
        pool_slot: first,
    } = taken_at(&rt, &pool, 0);
    let Taken {
        state: other,
        pool_slot: second,
    } = taken_at(&rt, &pool, 1);
    agree(&rt, (one.number(), other.number()), (0, 1));
    let (one, second) = refused(&rt, &pool, one, second);
    let (other, first) = refused(&rt, &pool, other, first);
    holds(&rt, all_are_away(&pool));
    holds(
        &rt,
        comes_home(
            &pool,
            Taken {
                state: one,
                pool_slot: first,
            },
        ),
    );
    holds(
        &rt,
        comes_home(
            &pool,
            Taken {
                state: other,
                pool_slot: second,
            },
        ),
    );
    holds(&rt, !is_away(&pool, 0));
    holds(&rt, !is_away(&pool, 1));
}

// The pool slots of another pool, neither of which is for pass 1. The third one's number is too large.
#[test]
fn a_pool_slot_of_another_pool_is_refused(rt: HostRuntime) {
    let pool = opened(&rt, rt.alloc(), 2);
    let larger = opened(&rt, rt.alloc(), 3);
    let Taken {
        state: _,
        pool_slot: first,
    } = taken_at(&rt, &larger, 0);
    let Taken {
        state: _,
        pool_slot: third,
    } = taken_at(&rt, &larger, 2);
    let Taken { state, pool_slot } = taken_at(&rt, &pool, 1);
    let (state, first) = refused_there(&rt, &pool, state, first);
    let (state, third) = refused_there(&rt, &pool, state, third);
    agree(&rt, (first, third), (0, 2));
    holds(&rt, comes_home(&pool, Taken { state, pool_slot }));
    holds(&rt, !is_away(&pool, 1));
}

// Takes a pass with a share of its pool.
pub(crate) fn shared_pass(
    rt: &impl Abort,
    share: &Share<Tiny>,
) -> (PassOn<Tiny, Share<Tiny>>, PoolSlot<Tiny>) {
    match take_pass(share) {
        Some(taken) => taken,
        None => panic!(rt; "no pass"),
    }
}

// Gives a pass back, and returns whether that succeeded. A refused pass is lost.
pub(crate) fn is_given(pass: PassOn<Tiny, Share<Tiny>>, pool_slot: PoolSlot<Tiny>) -> bool {
    match give_pass(pass, pool_slot) {
        Ok(()) => true,
        Err((_pass, pool_slot)) => {
            pool_slot.lose();
            false
        }
    }
}

#[test]
fn a_pass_outlives_the_share_that_it_was_taken_by(rt: HostRuntime) {
    let pool = opened(&rt, rt.alloc(), 1);
    let share = Share::new(rt.alloc(), pool).expect(&rt, "a share");
    let (mut pass, pool_slot) = shared_pass(&rt, &share);
    holds(&rt, all_are_away(share.pool()));
    drop(share);
    agree(&rt, pass.get(0), Err(Refusal::BadKey));
    agree(&rt, pass.get(4_096), Err(Refusal::Gone));
    holds(&rt, is_given(pass, pool_slot));
}

// Takes a pass, looks a key up and gives the pass back, over and over. Returns how often there was a pass, and how
// often a give was refused.
fn taken_and_given(share: Share<Tiny>) -> (u32, u32) {
    let mut taken = 0u32;
    let mut refused = 0u32;
    for _ in 0..1_000 {
        if let Some((mut pass, pool_slot)) = take_pass(&share) {
            taken = taken.saturating_add(1);
            let _gone = pass.get(4_096);
            if !is_given(pass, pool_slot) {
                refused = refused.saturating_add(1);
            }
        }
    }
    (taken, refused)
}

#[test]
fn two_threads_share_a_pool(rt: HostRuntime) {
    let pool = opened(&rt, rt.alloc(), 2);
    let share = Share::new(rt.alloc(), pool).expect(&rt, "a share");
    let one = share.share().expect(&rt, "a share");
    let other = share.share().expect(&rt, "another share");
    let (seen, seen_too) = join(
        &rt,
        move || taken_and_given(one),
        move || taken_and_given(other),
    );
    agree(&rt, (seen.1, seen_too.1), (0, 0));
    holds(&rt, seen.0 > 0 && seen_too.0 > 0);
    holds(&rt, !all_are_away(share.pool()));
}

// A pool of two passes, opened again if memory was refused.
fn opened_with_memory(rt: &impl Abort, alloc: Global) -> Pool<Tiny> {
    let shape = Shape::new(1, 1, 2).expect(rt, "a shape");
    match Pool::<Tiny>::open(alloc, shape) {
        Ok(pool) => pool,
        Err(why) => {
            agree(rt, why, Refusal::Memory);
            opened(rt, alloc, 2)
        }
    }
}

// If memory is refused nothing is opened or shared, and the same call then succeeds.
#[test]
fn refused_memory_is_told(rt: HostRuntime) {
    let pool = opened_with_memory(&rt, rt.alloc());
    let share = match Share::new(rt.alloc(), pool) {
        Ok(share) => share,
        Err(why) => {
            agree(&rt, why, Refusal::Memory);
            let pool = opened(&rt, rt.alloc(), 2);
            Share::new(rt.alloc(), pool).expect(&rt, "a share")
        }
    };
    agree(&rt, share.pool().pool_slots(), 2);
    holds(&rt, !all_are_away(share.pool()));
}
