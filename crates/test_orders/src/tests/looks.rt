use super::{FIRST, agree, are_some, has_orders, leads, opened, three_passes};
use crate::facts::Fact;
use crate::steps::{PAGE, Steps, slot};
use sh_history::Entry;
use sh_value::Value;
use std::test::Fail;

// The owner removes a key in four steps, and its second one marks the slot. A look loads five words if it begins before
// the mark, and one if it begins after it. It sees the value in six orders: those in which it ends before the mark. If
// it begins before the mark and ends after it, which 99 orders do, or if it begins later, in 3, the key is gone.
#[test]
fn a_look_beside_a_removal(rt: HostRuntime) -> Result<(), Fail> {
    let before = opened(rt.alloc(), 1);
    let then = Steps::new(rt.alloc()).removes(0, FIRST).looks(1, FIRST);
    let walked = three_passes(&rt, rt.alloc(), before, then)?;
    has_orders(&rt, &walked, 108);
    let seen = Fact::Logged(Entry::Seen(1, FIRST, Value::from(0)));
    leads(&rt, &walked, &[seen], 6);
    leads(&rt, &walked, &[Fact::Logged(Entry::Gone(1, FIRST))], 102);
    Ok(())
}

// The same beside an owner that uses the slot again, in three more steps. A look that begins after the mark has six
// places. One that begins before it and ends after it is in 534 orders. In some of them it loads the word of the next
// value, and then the key is gone, as in the others.
#[test]
fn a_look_beside_the_next_value(rt: HostRuntime) -> Result<(), Fail> {
    let before = opened(rt.alloc(), 1);
    let then = Steps::new(rt.alloc())
        .removes(0, FIRST)
        .inserts(0, slot(0), 9)
        .looks(1, FIRST);
    let walked = three_passes(&rt, rt.alloc(), before, then)?;
    has_orders(&rt, &walked, 546);
    let seen = Fact::Logged(Entry::Seen(1, FIRST, Value::from(0)));
    leads(&rt, &walked, &[seen], 6);
    leads(&rt, &walked, &[Fact::Logged(Entry::Gone(1, FIRST))], 540);
    Ok(())
}

// A look that begins before the value is published, which it does in three orders, is not answered. In one more order
// it begins last, and sees the value.
#[test]
fn a_look_beside_an_insert(rt: HostRuntime) -> Result<(), Fail> {
    let before = opened(rt.alloc(), 0);
    let then = Steps::new(rt.alloc())
        .inserts(0, slot(0), 5)
        .looks(1, FIRST);
    let walked = three_passes(&rt, rt.alloc(), before, then)?;
    has_orders(&rt, &walked, 4);
    let seen = Fact::Logged(Entry::Seen(1, FIRST, Value::from(5)));
    leads(&rt, &walked, &[seen], 1);
    leads(&rt, &walked, &[Fact::Logged(Entry::Gone(1, FIRST))], 0);
    Ok(())
}

// The same beside a pass that removes the key, and an owner that fills the slot again if it finds it. Each look sees the
// first value or finds the key gone, and never returns the next value.
#[test]
fn a_look_beside_a_remover_and_an_owner(rt: HostRuntime) -> Result<(), Fail> {
    let before = opened(rt.alloc(), 1);
    let then = Steps::new(rt.alloc())
        .collects(0, PAGE, 1)
        .inserts(0, slot(0), 9)
        .looks(1, FIRST)
        .removes(2, FIRST);
    let walked = three_passes(&rt, rt.alloc(), before, then)?;
    let first = Fact::Logged(Entry::Seen(1, FIRST, Value::from(0)));
    let seen = walked.orders_with(&[first]);
    let gone = walked.orders_with(&[Fact::Logged(Entry::Gone(1, FIRST))]);
    let filled_again = walked.orders_with(&[Fact::Live(0, 1)]);
    are_some(&rt, &[seen, gone, filled_again]);
    agree(&rt, walked.orders(), seen.saturating_add(gone));
    Ok(())
}
