use super::{PAGE, empty_world, event, moves, opened, skips, slot, step, value};
use crate::assertions::agree;
use crate::world::same::assert_same;
use sh_core::{Outcome, World};
use sh_key::Tiny;
use sh_step::{Action, Event, PageName, SlotName};
use std::process::Abort;

// The passes may do none of these, and nothing changes: the world stays as its twin, which did the same events except
// these.
fn skips_all(world: &mut World<Tiny>, twin: &World<Tiny>, events: &[Event], rt: &impl Abort) {
    for event in events {
        agree(rt, step(world, event, rt), Outcome::Skipped);
        assert_same(world, twin, rt);
    }
}

// The actions that continue or end what a pass has begun.
fn ends(pass: u32) -> [Event; 15] {
    [
        event(pass, Action::Mark),
        event(pass, Action::Drop),
        event(pass, Action::DropHold(4096)),
        event(pass, Action::Finish),
        event(pass, Action::Fill),
        event(pass, Action::Publish),
        event(pass, Action::ReadClass(4096)),
        event(pass, Action::ReadLength(4096)),
        event(pass, Action::ReadWord(4096, 0)),
        event(pass, Action::Follow(PAGE)),
        event(pass, Action::Put),
        event(pass, Action::Tie),
        event(pass, Action::Ring),
        event(pass, Action::RingTie),
        event(pass, Action::FollowBell),
    ]
}

// A pass that has begun nothing has nothing to end.
fn skips_ends(world: &mut World<Tiny>, twin: &World<Tiny>, pass: u32, rt: &impl Abort) {
    skips_all(world, twin, &ends(pass), rt);
}

// A pass that the shape does not have does nothing.
#[test]
fn a_pass_past_the_last_is_skipped(rt: HostRuntime) {
    let mut world = opened(rt.alloc(), 2, &rt);
    let twin = opened(rt.alloc(), 2, &rt);
    for pass in [2, 3, 63, 64, 65, 4294967295] {
        skips_all(
            &mut world,
            &twin,
            &[
                event(pass, Action::EnterGet(4096)),
                event(pass, Action::EnterRemove(4096)),
                event(pass, Action::Adopt(0)),
                event(pass, Action::FillSlot(slot(1), value(&[6], &rt))),
                event(pass, Action::Leave),
            ],
            &rt,
        );
    }
}

// A pass that has begun nothing has nothing to end, and one that owns no shard touches none.
#[test]
fn an_action_whose_condition_fails_is_skipped(rt: HostRuntime) {
    let mut world = opened(rt.alloc(), 2, &rt);
    let twin = opened(rt.alloc(), 2, &rt);
    skips_ends(&mut world, &twin, 0, &rt);
    skips_ends(&mut world, &twin, 1, &rt);
    skips_all(
        &mut world,
        &twin,
        &[
            event(1, Action::ReadPage(PAGE)),
            event(1, Action::SetClass(PAGE, 7)),
            event(1, Action::Take(PAGE)),
            event(1, Action::FillSlot(slot(1), value(&[6], &rt))),
            event(1, Action::PutSlot(slot(1))),
            event(1, Action::Arm(PAGE)),
            event(1, Action::TakeBell),
            event(1, Action::Leave),
        ],
        &rt,
    );
}

// An owner neither fills a slot that is not its own, nor leaves what it has, nor gives a page with a value a class.
#[test]
fn an_owner_keeps_to_what_is_its_own(rt: HostRuntime) {
    let mut world = opened(rt.alloc(), 2, &rt);
    let twin = opened(rt.alloc(), 2, &rt);
    skips_all(
        &mut world,
        &twin,
        &[
            event(0, Action::FillSlot(slot(0), value(&[6], &rt))),
            event(0, Action::PutSlot(slot(0))),
            event(0, Action::FillSlot(slot(3), value(&[6], &rt))),
            event(0, Action::SetClass(PAGE, 7)),
            event(0, Action::SetClass(PAGE, 0)),
            event(0, Action::Adopt(0)),
            event(0, Action::Leave),
        ],
        &rt,
    );
}

// Numbers outside the shape or the layout name nothing.
#[test]
fn numbers_outside_the_shape_name_nothing(rt: HostRuntime) {
    let mut world = opened(rt.alloc(), 2, &rt);
    let twin = opened(rt.alloc(), 2, &rt);
    let other_page = PageName { shard: 0, page: 8 };
    let other_shard = PageName { shard: 1, page: 0 };
    let other_slot = SlotName {
        shard: 0,
        page: 0,
        slot: 48,
    };
    skips_all(
        &mut world,
        &twin,
        &[
            event(0, Action::EnterGet(0)),
            event(0, Action::EnterGet(4095)),
            event(0, Action::EnterGet(16384)),
            event(0, Action::EnterRemove(9223372036854775808)),
            event(0, Action::EnterGet(5120)),
            event(0, Action::EnterGet(4608)),
            event(0, Action::EnterGet(4144)),
            event(0, Action::ReadPage(other_page)),
            event(0, Action::ReadPage(other_shard)),
            event(0, Action::FillSlot(other_slot, value(&[], &rt))),
            event(0, Action::Adopt(1)),
            event(0, Action::Adopt(18446744073709551615)),
        ],
        &rt,
    );
}

// A page gets a class only after its class was read.
#[test]
fn an_adopter_reads_a_page_first(rt: HostRuntime) {
    let mut world = empty_world::<Tiny>(rt.alloc(), 2, &rt);
    moves(&mut world, &[event(0, Action::Adopt(0))], &rt);
    moves(&mut world, &[event(1, Action::Adopt(0))], &rt);
    skips(&mut world, 0, Action::SetClass(PAGE, 7), &rt);
    skips(&mut world, 1, Action::ReadPage(PAGE), &rt);
    moves(&mut world, &[event(0, Action::ReadPage(PAGE))], &rt);
    skips(&mut world, 0, Action::SetClass(PAGE, 8), &rt);
}
