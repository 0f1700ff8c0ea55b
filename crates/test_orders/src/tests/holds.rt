use super::{FIRST, agree, are_some, has_orders, leads, opened, three_passes};
use crate::facts::Fact;
use crate::steps::{PAGE, Steps, slot};
use sh_history::Entry;
use sh_value::Value;
use std::test::Fail;

// A value's last hold frees it if it is released after the removal gave its count back. That is one order of four: in
// the other three it is released before.
#[test]
fn a_last_hold_frees(rt: HostRuntime) -> Result<(), Fail> {
    let before = opened(rt.alloc(), 1).gets(1, FIRST);
    let then = Steps::new(rt.alloc()).removes(0, FIRST).releases(1, FIRST);
    let walked = three_passes(&rt, rt.alloc(), before, then)?;
    has_orders(&rt, &walked, 4);
    leads(&rt, &walked, &[Fact::Mine(0, 3)], 3);
    leads(&rt, &walked, &[Fact::Queued(0, 1)], 1);
    Ok(())
}

// A key may have four holds and has three. Two passes get it while one hold is released: the second get is crowded if
// the release comes after both. Then the crowded one gives its count back before the release or after it, so four of
// eight orders have a crowded get.
#[test]
fn a_fifth_hold_is_crowded(rt: HostRuntime) -> Result<(), Fail> {
    let before = opened(rt.alloc(), 1)
        .gets(0, FIRST)
        .gets(0, FIRST)
        .gets(0, FIRST);
    let then = Steps::new(rt.alloc())
        .releases(0, FIRST)
        .gets(1, FIRST)
        .gets(2, FIRST);
    let walked = three_passes(&rt, rt.alloc(), before, then)?;
    has_orders(&rt, &walked, 8);
    for pass in [1, 2] {
        let crowded = Fact::Logged(Entry::Crowded(pass, FIRST));
        leads(&rt, &walked, &[crowded], 2);
    }
    Ok(())
}

// A get that is crowded is on the slot for a moment, so it may be the one that frees the slot.
#[test]
fn a_crowded_get_beside_a_removal(rt: HostRuntime) -> Result<(), Fail> {
    let before = opened(rt.alloc(), 1)
        .gets(2, FIRST)
        .gets(2, FIRST)
        .gets(2, FIRST)
        .gets(2, FIRST);
    let then = Steps::new(rt.alloc())
        .removes(0, FIRST)
        .gets(1, FIRST)
        .releases(1, FIRST)
        .releases(2, FIRST)
        .releases(2, FIRST)
        .releases(2, FIRST)
        .releases(2, FIRST);
    let walked = three_passes(&rt, rt.alloc(), before, then)?;
    let value = Value::from(0);
    are_some(
        &rt,
        &[walked.orders_with(&[Fact::Logged(Entry::Got(1, FIRST, value))])],
    );
    are_some(
        &rt,
        &[walked.orders_with(&[Fact::Logged(Entry::Crowded(1, FIRST))])],
    );
    are_some(
        &rt,
        &[walked.orders_with(&[Fact::Logged(Entry::Gone(1, FIRST))])],
    );
    let mine = walked.orders_with(&[Fact::Mine(0, 3)]);
    let queued = walked.orders_with(&[Fact::Mine(0, 2), Fact::Queued(0, 1)]);
    agree(&rt, walked.orders(), mine.saturating_add(queued));
    Ok(())
}

// A value can be got after it is published. A get that enters before finds nothing, and gives its count back at any
// later time: that makes nine orders. In one more order it enters last.
#[test]
fn a_get_beside_an_insert(rt: HostRuntime) -> Result<(), Fail> {
    let before = opened(rt.alloc(), 0);
    let then = Steps::new(rt.alloc()).inserts(0, slot(0), 5).gets(1, FIRST);
    let walked = three_passes(&rt, rt.alloc(), before, then)?;
    has_orders(&rt, &walked, 10);
    leads(&rt, &walked, &[Fact::Logged(Entry::Gone(1, FIRST))], 9);
    let value = Value::from(5);
    leads(
        &rt,
        &walked,
        &[Fact::Logged(Entry::Got(1, FIRST, value))],
        1,
    );
    Ok(())
}

// A held value can be read, though it is removed and the owner reuses each slot that it finds.
#[test]
fn a_held_value_is_read_beside_its_removal(rt: HostRuntime) -> Result<(), Fail> {
    let before = opened(rt.alloc(), 1).gets(1, FIRST);
    let then = Steps::new(rt.alloc())
        .collects(0, PAGE, 1)
        .inserts(0, slot(0), 9)
        .reads(1, FIRST)
        .releases(1, FIRST)
        .removes(2, FIRST);
    let walked = three_passes(&rt, rt.alloc(), before, then)?;
    let used_again = walked.orders_with(&[Fact::Live(0, 1), Fact::Queued(0, 0)]);
    let queued = walked.orders_with(&[Fact::Live(0, 0), Fact::Queued(0, 1)]);
    are_some(&rt, &[used_again, queued]);
    agree(&rt, walked.orders(), used_again.saturating_add(queued));
    Ok(())
}
