use super::{FIRST, GENERATION, SECOND, are_some, has_orders, leads, opened, three_passes, walked};
use crate::facts::Fact;
use crate::steps::{PAGE, Steps, WIDEST, slot};
use sh_shape::Shape;
use sh_step::{Action, PageName, SlotName};
use std::test::Fail;

// The head word of the first page.
const HEAD: usize = 1;

// The bell of a heap of one shard, which has eight pages.
const BELL: usize = 1561;

// The word of a bell on which the first page is.
const RUNG: u64 = 1;

// Two passes free into an armed page. The one that puts first rings, so it makes eight steps and the other six. In 2289
// orders of eight and six steps the fifth of the eight comes before the fifth of the six.
#[test]
fn one_of_two_frees_rings(rt: HostRuntime) -> Result<(), Fail> {
    let before = opened(rt.alloc(), 2).arms(0, PAGE, 0);
    let then = Steps::new(rt.alloc()).removes(1, FIRST).removes(2, SECOND);
    let walked = three_passes(&rt, rt.alloc(), before, then)?;
    has_orders(&rt, &walked, 4578);
    leads(&rt, &walked, &[Fact::Word(BELL, RUNG)], 4578);
    Ok(())
}

// A free rings if the page was armed before its put, which is one order. If it puts first, arming takes the slot, and
// one of two follows finds the link if it is stored by then: in three of four orders.
#[test]
fn arming_beside_a_free(rt: HostRuntime) -> Result<(), Fail> {
    let before = opened(rt.alloc(), 1).empties(1, FIRST);
    let then = Steps::new(rt.alloc()).arms(0, PAGE, 2).gives_back(1);
    let walked = three_passes(&rt, rt.alloc(), before, then)?;
    has_orders(&rt, &walked, 5);
    leads(&rt, &walked, &[Fact::Word(BELL, RUNG)], 1);
    leads(&rt, &walked, &[Fact::Mine(0, 3)], 3);
    leads(&rt, &walked, &[Fact::Cursor(0, Some(0))], 1);
    Ok(())
}

// A removal into an armed page, an owner that takes its bell and collects, and a visitor. The owner finds the slot with
// the ring or without it. If it collects before the ring, the page stays armed until it takes the bell.
#[test]
fn a_removal_beside_an_owner_that_answers_and_collects(rt: HostRuntime) -> Result<(), Fail> {
    let before = opened(rt.alloc(), 1).arms(0, PAGE, 0);
    let then = Steps::new(rt.alloc())
        .answers(0, 2)
        .collects(0, PAGE, 2)
        .removes(1, FIRST)
        .gets(2, FIRST)
        .releases(2, FIRST);
    let walked = three_passes(&rt, rt.alloc(), before, then)?;
    let with_ring = walked.orders_with(&[Fact::Mine(0, 3), Fact::Armed(0, 0, false)]);
    let without_ring = walked.orders_with(&[Fact::Mine(0, 3), Fact::Armed(0, 0, true)]);
    let unseen = walked.orders_with(&[Fact::Mine(0, 2), Fact::Cursor(0, None)]);
    are_some(&rt, &[with_ring, without_ring, unseen]);
    Ok(())
}

// Two frees beside an owner that takes the bell and arms the page again. The page never waits for a ring that does not
// come: in each end state the owner can leave after it has taken the bell.
#[test]
fn two_frees_beside_an_owner_that_arms_again(rt: HostRuntime) -> Result<(), Fail> {
    let before = opened(rt.alloc(), 2).arms(0, PAGE, 0);
    let then = Steps::new(rt.alloc())
        .answers(0, 1)
        .arms(0, PAGE, 2)
        .removes(1, FIRST)
        .removes(2, SECOND);
    let walked = three_passes(&rt, rt.alloc(), before, then)?;
    let armed_again = [
        Fact::Armed(0, 0, true),
        Fact::Word(HEAD, 1),
        Fact::Mine(0, 3),
    ];
    are_some(&rt, &[walked.orders_with(&armed_again)]);
    Ok(())
}

// The second page.
const SECOND_PAGE: PageName = PageName { shard: 0, page: 1 };

// The key of its first slot: a page more.
const THERE: u64 = FIRST + 64;

// The owner fills the first slot of a page, and a pass frees it and rings. The owner takes the bell, collects the slot,
// fills it again and arms the page again.
fn freed_once(before: Steps, pass: u32, page: PageName, key: u64) -> Steps {
    let slot = SlotName {
        shard: page.shard,
        page: page.page,
        slot: 0,
    };
    before
        .inserts(0, slot, 5)
        .arms(0, page, 0)
        .removes(pass, key)
        .answers(0, 1)
        .collects(0, page, 1)
        .inserts(0, slot, 6)
        .arms(0, page, 0)
}

// Two passes each ring for a page, while the owner takes the bell and follows it twice. Both pages were on the bell
// before. The bell is a stack of pages, so there are as many orders as for two frees under a follow.
#[test]
fn two_rings_under_a_follow(rt: HostRuntime) -> Result<(), Fail> {
    let opened = Steps::new(rt.alloc())
        .opens(0, 0, WIDEST)
        .does(0, Action::ReadPage(SECOND_PAGE))
        .does(0, Action::SetClass(SECOND_PAGE, WIDEST));
    let once = freed_once(opened, 1, PAGE, FIRST);
    let twice = freed_once(once, 2, SECOND_PAGE, THERE);
    let before = twice
        .empties(1, FIRST + GENERATION)
        .does(1, Action::Put)
        .does(1, Action::Tie)
        .empties(2, THERE + GENERATION)
        .does(2, Action::Put)
        .does(2, Action::Tie);
    let then = Steps::new(rt.alloc())
        .answers(0, 2)
        .gives_back(1)
        .gives_back(2);
    let walked = three_passes(&rt, rt.alloc(), before, then)?;
    has_orders(&rt, &walked, 112);
    let heard = [Fact::Armed(0, 0, false), Fact::Armed(0, 1, false)];
    leads(&rt, &walked, &heard, 20);
    Ok(())
}

// Two owners each remove the other's value, and then take their bells and collect. The one that takes its page last
// finds its slot there, since the other had removed before it took its own. So in no order both lack a slot.
#[test]
fn two_owners_free_each_others_values(rt: HostRuntime) -> Result<(), Fail> {
    let other = PageName { shard: 1, page: 0 };
    let there = SlotName {
        shard: 1,
        page: 0,
        slot: 0,
    };
    // The key of that slot: a shard more.
    let key = FIRST + 1024;
    let before = Steps::new(rt.alloc())
        .opens(0, 0, WIDEST)
        .opens(1, 1, WIDEST)
        .inserts(0, slot(0), 5)
        .inserts(1, there, 6)
        .arms(0, PAGE, 0)
        .arms(1, other, 0);
    let then = Steps::new(rt.alloc())
        .removes(0, key)
        .answers(0, 1)
        .collects(0, PAGE, 1)
        .removes(1, FIRST)
        .answers(1, 1)
        .collects(1, other, 1);
    let walked = walked(&rt, rt.alloc(), Shape::new(2, 1, 2)?, before, then)?;
    are_some(
        &rt,
        &[walked.orders_with(&[Fact::Mine(0, 3), Fact::Mine(1, 3)])],
    );
    leads(&rt, &walked, &[Fact::Mine(0, 2), Fact::Mine(1, 2)], 0);
    Ok(())
}
