//! Tests of what an owner keeps of its pages: their slots and classes, and the first whole page.
use crate::assertions::agree;
use sh_states::PageStates;
use std::alloc::Global;
use std::process::Abort;

// Pages of a shard, all blank.
fn blank_pages(rt: &impl Abort, alloc: Global, count: u64) -> PageStates {
    PageStates::new(alloc, count).expect(rt, "there is memory")
}

// Gives a page a class, if there are such a page and such a class.
fn give(states: &mut PageStates, page: u64, class: u32) {
    if page < states.len() && class < 8 {
        states.give_class(page, class);
    }
}

// Begins to read the stack of a page at a slot, if both exist.
fn begin(states: &mut PageStates, page: u64, slot: u32) {
    if page < states.len() && slot < 48 {
        states.begin_reading(page, Some(slot), true);
    }
}

// The first whole page of those below `end`, or of all if there are fewer.
fn first(states: &mut PageStates, end: u64) -> Option<u64> {
    let end = end.min(states.len());
    states.first_whole(end)
}

// Uses the next slot of a page, and gives it back.
fn use_and_free(states: &mut PageStates, page: u64) -> Option<u32> {
    let slot = states.next_slot(page)?;
    if page < states.len() {
        states.push_local(page, slot);
    }
    Some(slot)
}

// The first whole page while the next slot of this page is used, and after it is given back.
fn looks(states: &mut PageStates, page: u64) -> Option<(Option<u64>, Option<u64>)> {
    let slot = states.next_slot(page)?;
    let end = states.len();
    let used = states.first_whole(end);
    if page < end {
        states.push_local(page, slot);
    }
    Some((used, first(states, end)))
}

#[test]
fn a_blank_page_has_nothing(rt: HostRuntime) {
    let mut states = blank_pages(&rt, rt.alloc(), 3);
    agree(&rt, states.len(), 3);
    for page in 0..3u64 {
        agree(&rt, states.class_word(page), 0);
        agree(&rt, states.slots(page), 0);
        agree(&rt, states.cursor(page), None);
        agree(&rt, states.is_armed(page), false);
        agree(&rt, states.is_whole(page), false);
        agree(&rt, states.next_slot(page), None);
    }
    agree(&rt, first(&mut states, 3), None);
}

#[test]
fn pages_behind_the_last_that_is_used_stay_blank(rt: HostRuntime) {
    let mut states = blank_pages(&rt, rt.alloc(), 1000);
    give(&mut states, 7, 7);
    agree(&rt, states.len(), 1000);
    agree(
        &rt,
        (
            states.class_word(6),
            states.class_word(7),
            states.class_word(8),
        ),
        (0, 8, 0),
    );
    agree(
        &rt,
        (states.slots(6), states.slots(7), states.slots(999)),
        (0, 3, 0),
    );
    give(&mut states, 999, 0);
    agree(&rt, (states.slots(998), states.slots(999)), (0, 48));
}

#[test]
fn slots_are_used_in_order_and_those_that_came_back_then(rt: HostRuntime) {
    let mut states = blank_pages(&rt, rt.alloc(), 2);
    give(&mut states, 1, 7);
    agree(&rt, use_and_free(&mut states, 1), Some(0));
    agree(&rt, states.slots(1), 3);
    for slot in [1, 2, 0] {
        agree(&rt, states.next_slot(1), Some(slot));
    }
    agree(&rt, states.next_slot(1), None);
    agree(&rt, states.slots(1), 0);
}

#[test]
fn a_page_keeps_its_cursor_whatever_class_it_is_given(rt: HostRuntime) {
    let mut states = blank_pages(&rt, rt.alloc(), 4);
    give(&mut states, 2, 7);
    begin(&mut states, 2, 2);
    agree(&rt, states.is_armed(2), true);
    give(&mut states, 2, 0);
    agree(&rt, (states.class_word(2), states.slots(2)), (1, 48));
    agree(&rt, states.cursor(2), Some(2));
    agree(&rt, states.is_armed(2), true);
}

#[test]
fn the_first_whole_page_is_found_though_it_was_none_before(rt: HostRuntime) {
    let mut states = blank_pages(&rt, rt.alloc(), 16);
    for page in 0..16u64 {
        give(&mut states, page, 7);
    }
    agree(&rt, first(&mut states, 16), Some(0));
    for page in 0..16u64 {
        agree(&rt, states.next_slot(page), Some(0));
    }
    agree(&rt, first(&mut states, 16), None);
    // A slot that comes back to a page with another slot out does not make the page whole.
    agree(&rt, use_and_free(&mut states, 9), Some(1));
    agree(&rt, first(&mut states, 16), None);
    give(&mut states, 9, 6);
    agree(&rt, first(&mut states, 9), None);
    agree(&rt, first(&mut states, 16), Some(9));
    agree(&rt, use_and_free(&mut states, 9), Some(0));
    agree(&rt, first(&mut states, 16), Some(9));
    give(&mut states, 5, 0);
    agree(&rt, first(&mut states, 16), Some(5));
    agree(&rt, states.next_slot(5), Some(0));
    agree(&rt, first(&mut states, 16), Some(9));
}

#[test]
fn a_page_is_whole_again_once_its_last_slot_comes_back(rt: HostRuntime) {
    let mut states = blank_pages(&rt, rt.alloc(), 8);
    give(&mut states, 3, 7);
    agree(&rt, first(&mut states, 8), Some(3));
    agree(&rt, looks(&mut states, 3), Some((None, Some(3))));
    agree(&rt, states.is_whole(3), true);
}

#[test]
fn more_pages_than_memory_has_room_for_are_refused(rt: HostRuntime) {
    agree(&rt, PageStates::new(rt.alloc(), 1 << 60).is_err(), true);
    agree(&rt, PageStates::new(rt.alloc(), 0).is_ok(), true);
}
