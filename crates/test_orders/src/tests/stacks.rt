use super::{FIRST, GENERATION, SECOND, has_orders, leads, opened, three_passes};
use crate::facts::Fact;
use crate::steps::{PAGE, Steps, slot};
use std::test::Fail;

// Two frees run independently of each other if nobody arms and nobody collects: six steps and six steps have 924
// orders.
#[test]
fn two_frees_do_not_wait_for_each_other(rt: HostRuntime) -> Result<(), Fail> {
    let before = opened(rt.alloc(), 2);
    let then = Steps::new(rt.alloc()).removes(1, FIRST).removes(2, SECOND);
    let walked = three_passes(&rt, rt.alloc(), before, then)?;
    has_orders(&rt, &walked, 924);
    leads(&rt, &walked, &[Fact::Mine(0, 1), Fact::Queued(0, 2)], 924);
    Ok(())
}

// Two passes put a slot each and tie it, while the owner takes the page and follows it twice. Counted by hand, it takes
// before both puts in 6 orders, between them in 58, after both in 48. In 20 of these each link is stored when read.
#[test]
fn two_frees_under_a_follow(rt: HostRuntime) -> Result<(), Fail> {
    let before = opened(rt.alloc(), 2).empties(1, FIRST).empties(2, SECOND);
    let then = Steps::new(rt.alloc())
        .collects(0, PAGE, 2)
        .gives_back(1)
        .gives_back(2);
    let walked = three_passes(&rt, rt.alloc(), before, then)?;
    has_orders(&rt, &walked, 112);
    leads(&rt, &walked, &[Fact::Mine(0, 3)], 20);
    Ok(())
}

// A slot that was put and collected before is put again, on top of another, while the owner collects: its old link is
// not read again. Counted by hand there are seven orders. In three the owner takes before the put, and in four later.
// In two of these four the link is stored before it is first read.
#[test]
fn a_slot_is_put_again_under_a_follow(rt: HostRuntime) -> Result<(), Fail> {
    let before = opened(rt.alloc(), 2)
        .removes(1, FIRST)
        .collects(0, PAGE, 1)
        .inserts(0, slot(0), 6)
        .removes(2, SECOND)
        .empties(1, FIRST + GENERATION);
    let then = Steps::new(rt.alloc()).collects(0, PAGE, 2).gives_back(1);
    let walked = three_passes(&rt, rt.alloc(), before, then)?;
    has_orders(&rt, &walked, 7);
    leads(&rt, &walked, &[Fact::Mine(0, 3)], 2);
    Ok(())
}
