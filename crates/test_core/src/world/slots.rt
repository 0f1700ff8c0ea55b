use super::{
    event, fills, has_log, has_words, moves, opened, removes, replies, skips, slot, value,
    with_page,
};
use crate::assertions::agree;
use sh_history::Entry;
use sh_step::Action;

// Class word, state, length, payload and owner.
#[test]
fn a_value_stands_in_its_slot(rt: HostRuntime) {
    let world = opened(rt.alloc(), 2, &rt);
    agree(&rt, world.words().len(), 1562);
    has_words(
        &world,
        [
            (0, 8),
            (1, 0),
            (3, 5368709120),
            (4, 4294967296),
            (99, 1),
            (147, 5),
            (148, 0),
            (1560, 1),
            (1561, 0),
        ],
        &rt,
    );
    has_log(&world, [Entry::Insert(0, 4096, value(&[5], &rt))], &rt);
}

// If two passes remove one key, the first mark decides.
#[test]
fn the_first_mark_removes(rt: HostRuntime) {
    let mut world = opened(rt.alloc(), 2, &rt);
    moves(&mut world, &[event(0, Action::EnterRemove(4096))], &rt);
    moves(&mut world, &[event(1, Action::EnterRemove(4096))], &rt);
    has_words(&world, [(3, 5368709122)], &rt);
    replies(&mut world, 1, Action::Mark, Entry::Removed(1, 4096), &rt);
    replies(&mut world, 0, Action::Mark, Entry::Gone(0, 4096), &rt);
    has_words(&world, [(3, 7516192770)], &rt);
    has_log(
        &world,
        [
            Entry::Insert(0, 4096, value(&[5], &rt)),
            Entry::Removed(1, 4096),
            Entry::Gone(0, 4096),
        ],
        &rt,
    );
}

// A slot is used again while a pass leaves it: the old key stays gone, and the last to leave ends the removal.
#[test]
fn a_slot_is_used_again_under_a_pass(rt: HostRuntime) {
    let mut world = opened(rt.alloc(), 2, &rt);
    removes(&mut world, 0, 4096, &rt);
    fills(&mut world, 0, 6, &rt);
    replies(
        &mut world,
        0,
        Action::Publish,
        Entry::Insert(0, 8192, value(&[6], &rt)),
        &rt,
    );
    replies(
        &mut world,
        1,
        Action::EnterGet(4096),
        Entry::Gone(1, 4096),
        &rt,
    );
    moves(&mut world, &[event(0, Action::EnterRemove(8192))], &rt);
    replies(&mut world, 0, Action::Mark, Entry::Removed(0, 8192), &rt);
    moves(&mut world, &[event(0, Action::Drop)], &rt);
    has_words(&world, [(3, 11811160065)], &rt);
    moves(
        &mut world,
        &[
            event(1, Action::Drop),
            event(1, Action::Finish),
            event(1, Action::Put),
            event(1, Action::Tie),
        ],
        &rt,
    );
    has_words(&world, [(1, 2), (3, 12884901888), (51, 1)], &rt);
    has_log(
        &world,
        [
            Entry::Insert(0, 4096, value(&[5], &rt)),
            Entry::Removed(0, 4096),
            Entry::Insert(0, 8192, value(&[6], &rt)),
            Entry::Gone(1, 4096),
            Entry::Removed(0, 8192),
        ],
        &rt,
    );
}

// An exchange that finds another pass on the slot changes no word; that pass ends the generation.
#[test]
fn a_late_finish_changes_nothing(rt: HostRuntime) {
    let mut world = opened(rt.alloc(), 2, &rt);
    moves(&mut world, &[event(0, Action::EnterRemove(4096))], &rt);
    replies(&mut world, 0, Action::Mark, Entry::Removed(0, 4096), &rt);
    moves(&mut world, &[event(0, Action::Drop)], &rt);
    replies(
        &mut world,
        1,
        Action::EnterGet(4096),
        Entry::Gone(1, 4096),
        &rt,
    );
    has_words(&world, [(3, 7516192769)], &rt);
    moves(&mut world, &[event(0, Action::Finish)], &rt);
    has_words(&world, [(3, 7516192769)], &rt);
    moves(
        &mut world,
        &[event(1, Action::Drop), event(1, Action::Finish)],
        &rt,
    );
    has_words(&world, [(1, 0), (3, 8589934592)], &rt);
}

// A key of tiny has at most four holds, and each get returns the value.
#[test]
fn a_fifth_get_is_crowded(rt: HostRuntime) {
    let mut world = opened(rt.alloc(), 2, &rt);
    for _ in 0..4 {
        let got = Entry::Got(1, 4096, value(&[5], &rt));
        replies(&mut world, 1, Action::EnterGet(4096), got, &rt);
    }
    has_words(&world, [(3, 5368709124)], &rt);
    replies(
        &mut world,
        1,
        Action::EnterGet(4096),
        Entry::Crowded(1, 4096),
        &rt,
    );
    moves(&mut world, &[event(1, Action::Drop)], &rt);
    replies(
        &mut world,
        1,
        Action::DropHold(4096),
        Entry::Released(1, 4096),
        &rt,
    );
    has_words(&world, [(3, 5368709123)], &rt);
    agree(&rt, world.log().len(), 7);
}

// A slot of tiny stores three values, one after the other.
#[test]
fn the_third_generation_is_the_last(rt: HostRuntime) {
    let mut world = with_page(rt.alloc(), 1, &rt);
    for key in [4096, 8192, 12288] {
        moves(
            &mut world,
            &[event(0, Action::FillSlot(slot(0), value(&[], &rt)))],
            &rt,
        );
        replies(
            &mut world,
            0,
            Action::Publish,
            Entry::Insert(0, key, value(&[], &rt)),
            &rt,
        );
        removes(&mut world, 0, key, &rt);
    }
    has_words(&world, [(3, 15032385536), (99, 0)], &rt);
    skips(
        &mut world,
        0,
        Action::FillSlot(slot(0), value(&[], &rt)),
        &rt,
    );
}
