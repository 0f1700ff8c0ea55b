use super::{FIRST, GENERATION, agree, are_some, has_orders, leads, opened, three_passes};
use crate::facts::Fact;
use crate::steps::{Steps, slot};
use sh_history::Entry;
use std::test::Fail;

// Two passes remove one key: one removes it, and the other finds it gone. Counted by hand there are 21 orders in which
// the first one marks first: in 6 both entered before that mark, and in 15 the other entered later.
#[test]
fn one_of_two_removers_removes(rt: HostRuntime) -> Result<(), Fail> {
    let before = opened(rt.alloc(), 1);
    let then = Steps::new(rt.alloc()).removes(1, FIRST).removes(2, FIRST);
    let walked = three_passes(&rt, rt.alloc(), before, then)?;
    has_orders(&rt, &walked, 42);
    for (remover, other) in [(1, 2), (2, 1)] {
        let facts = [
            Fact::Logged(Entry::Removed(remover, FIRST)),
            Fact::Logged(Entry::Gone(other, FIRST)),
        ];
        leads(&rt, &walked, &facts, 21);
    }
    Ok(())
}

// The last pass on a slot that is marked frees it: the owner keeps it, and any other pass puts it on the page.
#[test]
fn the_last_of_three_visitors_frees(rt: HostRuntime) -> Result<(), Fail> {
    let before = opened(rt.alloc(), 1);
    let then = Steps::new(rt.alloc())
        .gets(0, FIRST)
        .releases(0, FIRST)
        .removes(1, FIRST)
        .gets(2, FIRST)
        .releases(2, FIRST);
    let walked = three_passes(&rt, rt.alloc(), before, then)?;
    let mine = walked.orders_with(&[Fact::Mine(0, 3)]);
    let queued = walked.orders_with(&[Fact::Mine(0, 2), Fact::Queued(0, 1)]);
    are_some(&rt, &[mine, queued]);
    agree(&rt, walked.orders(), mine.saturating_add(queued));
    Ok(())
}

// A visitor that found its key gone may be the last pass on the slot in the next generation.
#[test]
fn a_late_visitor_frees_the_next_generation(rt: HostRuntime) -> Result<(), Fail> {
    let second = FIRST + GENERATION;
    let before = opened(rt.alloc(), 1);
    let then = Steps::new(rt.alloc())
        .removes(0, FIRST)
        .inserts(0, slot(0), 6)
        .removes(0, second)
        .gets(1, FIRST)
        .releases(1, FIRST);
    let walked = three_passes(&rt, rt.alloc(), before, then)?;
    let late = walked.orders_with(&[
        Fact::Logged(Entry::Gone(1, FIRST)),
        Fact::Logged(Entry::Removed(0, second)),
        Fact::Queued(0, 1),
    ]);
    are_some(&rt, &[late]);
    Ok(())
}

// A slot whose last generation ends is nobody's, no matter which pass was the last on it.
#[test]
fn a_last_generation_retires(rt: HostRuntime) -> Result<(), Fail> {
    let second = FIRST + GENERATION;
    let last = second + GENERATION;
    let before = opened(rt.alloc(), 1)
        .removes(0, FIRST)
        .inserts(0, slot(0), 6)
        .removes(0, second)
        .inserts(0, slot(0), 7);
    let then = Steps::new(rt.alloc())
        .removes(0, last)
        .removes(1, last)
        .gets(2, last)
        .releases(2, last);
    let walked = three_passes(&rt, rt.alloc(), before, then)?;
    let retired = walked.orders_with(&[Fact::Retired(0, 1), Fact::Mine(0, 2)]);
    agree(&rt, retired, walked.orders());
    Ok(())
}
