use super::{
    PAGE, event, has_log, has_words, moves, removes, replies, skips, slot, value, with_page,
};
use sh_core::World;
use sh_history::Entry;
use sh_key::Tiny;
use sh_step::Action;
use std::alloc::Global;
use std::process::Abort;

// Two passes free a slot each, and the first of them does not store its link. The owner takes the stack and follows it.
fn untied(alloc: Global, rt: &impl Abort) -> World<Tiny> {
    let mut world = with_page(alloc, 3, rt);
    for number in [0, 1] {
        moves(
            &mut world,
            &[event(0, Action::FillSlot(slot(number), value(&[], rt)))],
            rt,
        );
        let inserted = Entry::Insert(0, 4096 + number, value(&[], rt));
        replies(&mut world, 0, Action::Publish, inserted, rt);
    }
    removes(&mut world, 1, 4096, rt);
    moves(&mut world, &[event(1, Action::Put)], rt);
    has_words(&world, [(1, 2), (51, 0)], rt);
    removes(&mut world, 2, 4097, rt);
    moves(
        &mut world,
        &[event(2, Action::Put), event(2, Action::Tie)],
        rt,
    );
    has_words(&world, [(1, 4), (51, 0), (52, 2)], rt);
    moves(
        &mut world,
        &[
            event(0, Action::Take(PAGE)),
            event(0, Action::Follow(PAGE)),
            event(0, Action::Follow(PAGE)),
        ],
        rt,
    );
    world
}

#[test]
fn following_stops_at_a_link_that_is_not_written(rt: HostRuntime) {
    let mut world = untied(rt.alloc(), &rt);
    has_words(&world, [(1, 0), (51, 0), (52, 0)], &rt);
    has_log(
        &world,
        [
            Entry::Insert(0, 4096, value(&[], &rt)),
            Entry::Insert(0, 4097, value(&[], &rt)),
            Entry::Removed(1, 4096),
            Entry::Removed(2, 4097),
        ],
        &rt,
    );
    moves(&mut world, &[event(1, Action::Tie)], &rt);
    has_words(&world, [(51, 1)], &rt);
    moves(&mut world, &[event(0, Action::Follow(PAGE))], &rt);
    has_words(&world, [(51, 0)], &rt);
    skips(&mut world, 0, Action::Follow(PAGE), &rt);
}

// An owner leaves only what it has put back, and the next one finds it.
#[test]
fn a_shard_goes_to_the_next_owner(rt: HostRuntime) {
    let mut world = untied(rt.alloc(), &rt);
    skips(&mut world, 0, Action::Leave, &rt);
    moves(&mut world, &[event(1, Action::Tie)], &rt);
    moves(&mut world, &[event(0, Action::Follow(PAGE))], &rt);
    for number in [0, 1, 2] {
        moves(
            &mut world,
            &[
                event(0, Action::PutSlot(slot(number))),
                event(0, Action::Tie),
            ],
            &rt,
        );
    }
    has_words(&world, [(1, 6), (51, 1), (52, 2), (53, 3), (1560, 1)], &rt);
    moves(&mut world, &[event(0, Action::Leave)], &rt);
    has_words(&world, [(1560, 0)], &rt);
    moves(
        &mut world,
        &[
            event(1, Action::Adopt(0)),
            event(1, Action::ReadPage(PAGE)),
            event(1, Action::Take(PAGE)),
            event(1, Action::Follow(PAGE)),
            event(1, Action::Follow(PAGE)),
            event(1, Action::FillSlot(slot(1), value(&[9], &rt))),
            event(1, Action::Fill),
        ],
        &rt,
    );
    replies(
        &mut world,
        1,
        Action::Publish,
        Entry::Insert(1, 8193, value(&[9], &rt)),
        &rt,
    );
    has_words(
        &world,
        [(0, 8), (1, 0), (4, 9663676416), (51, 1), (163, 9)],
        &rt,
    );
}
