use super::{FIRST, agree, are_some, has_orders, leads, opened, three_passes};
use crate::facts::Fact;
use crate::steps::{PAGE, Steps, WIDEST, slot};
use sh_step::Action;
use std::test::Fail;

// The class of four slots, one more than the widest one has.
const FOUR_SLOTS: u64 = 6;

// An owner removes what another pass holds, collects, and changes the page's class if all slots are its own. Counted by
// hand there are nine orders: in three the hold goes first. In three the owner takes before the holder puts, and so
// keeps the class. In three it takes later, and in one of these it meets a link that is not stored.
#[test]
fn a_class_changes_beside_a_late_release(rt: HostRuntime) -> Result<(), Fail> {
    let before = opened(rt.alloc(), 1).gets(1, FIRST);
    let then = Steps::new(rt.alloc())
        .removes(0, FIRST)
        .collects(0, PAGE, 1)
        .does(0, Action::SetClass(PAGE, FOUR_SLOTS))
        .releases(1, FIRST);
    let walked = three_passes(&rt, rt.alloc(), before, then)?;
    has_orders(&rt, &walked, 9);
    leads(&rt, &walked, &[Fact::Class(0, 6), Fact::Mine(0, 4)], 5);
    leads(&rt, &walked, &[Fact::Class(0, 7), Fact::Queued(0, 1)], 4);
    Ok(())
}

// A visitor may be on a slot while its page gets a class with fewer slots. Such a slot keeps its generation, and
// becomes nobody's.
#[test]
fn a_slot_above_the_class_is_visited(rt: HostRuntime) -> Result<(), Fail> {
    let key = FIRST + 3;
    let before = Steps::new(rt.alloc())
        .opens(0, 0, FOUR_SLOTS)
        .inserts(0, slot(3), 5);
    let then = Steps::new(rt.alloc())
        .removes(0, key)
        .does(0, Action::SetClass(PAGE, WIDEST))
        .inserts(0, slot(0), 6)
        .gets(1, key)
        .removes(2, key);
    let walked = three_passes(&rt, rt.alloc(), before, then)?;
    // The slot is empty in its second generation, and nobody is on it.
    let changed = walked.orders_with(&[
        Fact::Class(0, 7),
        Fact::Live(0, 1),
        Fact::Mine(0, 2),
        Fact::Word(6, 8589934592),
    ]);
    let kept = walked.orders_with(&[Fact::Class(0, 6)]);
    are_some(&rt, &[changed, kept]);
    agree(&rt, walked.orders(), changed.saturating_add(kept));
    Ok(())
}
