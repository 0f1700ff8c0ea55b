mod bells;
mod classes;
mod handing_over;
mod holds;
mod looks;
mod removers;
mod stacks;

use crate::facts::Fact;
use crate::program::Program;
use crate::steps::{Steps, WIDEST};
use crate::walk::{Walked, walk};
use sh_shape::Shape;
use std::alloc::Global;
use std::fmt::Debug;
use std::process::Abort;
use std::test::Fail;

// The key of the first slot of a heap's first page, in its first generation.
const FIRST: u64 = 4096;

// The key of the slot after it.
const SECOND: u64 = 4097;

// The difference between the keys of a slot in two generations, one after the other.
const GENERATION: u64 = 4096;

// Pass 0 owns the shard, and its first page of three slots has `values` values of one word, in its first slots.
fn opened(alloc: Global, values: u64) -> Steps {
    Steps::new(alloc)
        .opens(0, 0, WIDEST)
        .inserts_first(0, values)
}

// Walks the steps of passes on a heap of this shape that was brought to a state, and prints the counts.
fn walked(
    rt: &(impl Abort + Print),
    alloc: Global,
    shape: Shape,
    before: Steps,
    then: Steps,
) -> Result<Walked, Fail> {
    let program = Program {
        shape,
        before: before.complete()?,
        then: then.complete()?,
    };
    let walked = walk(rt, alloc, &program)?;
    let states = walked.states;
    let ends = walked.ends.len();
    let orders = walked.orders();
    println!(rt; "{states} states, {ends} ends, {orders} orders")?;
    assert!(rt; orders > 1, "there is more than one order");
    Ok(walked)
}

// Asserts that two values are equal. It is a function, since each assertion in the text is proved anew.
fn agree<T: PartialEq + Debug + Drop>(rt: &impl Abort, found: T, wanted: T) {
    assert_eq!(rt; found, wanted);
}

// Asserts that `orders` orders lead to an end state in which all of these facts hold.
fn leads(rt: &impl Abort, walked: &Walked, facts: &[Fact], orders: u64) {
    agree(rt, walked.orders_with(facts), orders);
}

// Asserts that none of these counts is 0.
fn are_some(rt: &impl Abort, counts: &[u64]) {
    for count in counts {
        agree(rt, *count > 0, true);
    }
}

// Asserts that there are `orders` orders.
fn has_orders(rt: &impl Abort, walked: &Walked, orders: u64) {
    agree(rt, walked.orders(), orders);
}

// The same, with a heap of one shard and three passes.
fn three_passes(
    rt: &(impl Abort + Print),
    alloc: Global,
    before: Steps,
    then: Steps,
) -> Result<Walked, Fail> {
    walked(rt, alloc, Shape::new(1, 1, 3)?, before, then)
}
