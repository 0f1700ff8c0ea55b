use super::{FIRST, agree, are_some, has_orders, leads, opened, three_passes};
use crate::facts::Fact;
use crate::steps::{PAGE, Steps, slot};
use sh_step::Action;
use std::test::Fail;

// The owner leaves and another pass adopts and collects, while a third one puts a slot and ties it. The page has two
// slots that the owner put. Counted by hand there are 38 orders: in 6 the adopter finds the shard taken, in 6 it takes
// the page before the put, and in 26 it takes it later and follows three times.
#[test]
fn a_shard_changes_hands_between_put_and_tie(rt: HostRuntime) -> Result<(), Fail> {
    let before = opened(rt.alloc(), 1)
        .puts(0, slot(1))
        .puts(0, slot(2))
        .empties(1, FIRST);
    let then = Steps::new(rt.alloc())
        .does(0, Action::Leave)
        .gives_back(1)
        .adopts(2, 0)
        .collects(2, PAGE, 3);
    let walked = three_passes(&rt, rt.alloc(), before, then)?;
    has_orders(&rt, &walked, 38);
    leads(&rt, &walked, &[Fact::Owns(2, 0)], 32);
    are_some(&rt, &[walked.orders_with(&[Fact::Mine(0, 3)])]);
    Ok(())
}

// A shard that is left has at most one owner. In two of ten orders both adopters come before the leave, so that nobody
// owns the shard. In the other eight each of them is the owner in four.
#[test]
fn one_of_two_adopters_owns(rt: HostRuntime) -> Result<(), Fail> {
    let before = opened(rt.alloc(), 0)
        .puts(0, slot(0))
        .puts(0, slot(1))
        .puts(0, slot(2));
    let then = Steps::new(rt.alloc())
        .does(0, Action::Leave)
        .adopts(1, 0)
        .collects(1, PAGE, 0)
        .adopts(2, 0)
        .collects(2, PAGE, 0);
    let walked = three_passes(&rt, rt.alloc(), before, then)?;
    has_orders(&rt, &walked, 10);
    leads(&rt, &walked, &[Fact::Owns(1, 0)], 4);
    leads(&rt, &walked, &[Fact::Owns(2, 0)], 4);
    leads(&rt, &walked, &[Fact::Owns(1, 0), Fact::Owns(2, 0)], 0);
    Ok(())
}

// An owner removes its value while another pass visits it. If the visitor frees the slot, the owner leaves. If the
// owner frees the slot itself, it has a slot of its own, and keeps the shard.
#[test]
fn an_owner_with_a_slot_of_its_own_stays(rt: HostRuntime) -> Result<(), Fail> {
    let before = opened(rt.alloc(), 1).puts(0, slot(1)).puts(0, slot(2));
    let then = Steps::new(rt.alloc())
        .removes(0, FIRST)
        .does(0, Action::Leave)
        .gets(1, FIRST)
        .releases(1, FIRST)
        .adopts(2, 0)
        .collects(2, PAGE, 3);
    let walked = three_passes(&rt, rt.alloc(), before, then)?;
    let stayed = walked.orders_with(&[Fact::Owns(0, 0)]);
    let with_its_slot = walked.orders_with(&[Fact::Owns(0, 0), Fact::Mine(0, 1)]);
    agree(&rt, stayed, with_its_slot);
    let left = walked.orders_with(&[Fact::Owns(2, 0)]);
    are_some(&rt, &[stayed, left]);
    Ok(())
}
