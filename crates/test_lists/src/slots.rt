//! Tests of the words of a slot: what a step leaves of the word that it finds.
use crate::assertions::agree;
use sh_slots::{
    GetAnswer, Hand, KeyRef, Sight, SlotRef, after_drop, after_enter_remove, answer_to_get,
    finished_word, is_first_mark, is_live_at, is_reusable_after, marked_word, published_name,
    retired_word, reusable_word,
};

// The words of generation 1, empty, live and marked, with no pass on the slot.
const EMPTY: u64 = 4294967296;

const LIVE: u64 = 5368709120;

const MARKED: u64 = 7516192768;

const SPOT: SlotRef = SlotRef { page: 1, slot: 2 };

#[test]
fn a_get_is_answered_by_the_word_found(rt: HostRuntime) {
    agree(&rt, is_live_at(1, LIVE + 3), true);
    agree(&rt, is_live_at(2, LIVE), false);
    let table = [
        (LIVE, 1, GetAnswer::Got),
        (LIVE + 3, 1, GetAnswer::Got),
        (LIVE + 4, 1, GetAnswer::Crowded),
        (LIVE, 2, GetAnswer::Gone),
        (EMPTY, 1, GetAnswer::Gone),
        (MARKED, 1, GetAnswer::Gone),
    ];
    for (found, generation, answer) in table {
        agree(&rt, answer_to_get(generation, 4, found), answer);
    }
}

#[test]
fn a_removal_goes_on_where_the_value_is_there(rt: HostRuntime) {
    let name = KeyRef {
        page: 1,
        slot: 2,
        generation: 1,
    };
    agree(&rt, name.slot_ref(), SPOT);
    agree(
        &rt,
        after_enter_remove(4096, name, LIVE),
        Hand::Removing(4096),
    );
    agree(
        &rt,
        after_enter_remove(4096, name, MARKED),
        Hand::Leaving(SPOT),
    );
    agree(&rt, is_first_mark(LIVE + 1), true);
    agree(&rt, is_first_mark(MARKED + 1), false);
}

#[test]
fn the_last_drop_ends_the_generation(rt: HostRuntime) {
    agree(
        &rt,
        after_drop(SPOT, 11811160065),
        Hand::Finishing(SPOT, 2, Sight::Bare),
    );
    agree(&rt, after_drop(SPOT, MARKED + 2), Hand::Idle);
    agree(&rt, after_drop(SPOT, LIVE + 1), Hand::Idle);
    agree(&rt, marked_word(1), MARKED);
    agree(&rt, reusable_word(1), 8589934592);
    agree(&rt, retired_word(3), 15032385536);
    agree(&rt, finished_word(1, 3), 8589934592);
    agree(&rt, finished_word(3, 3), 15032385536);
    agree(&rt, is_reusable_after(1, 3, MARKED), true);
    agree(&rt, is_reusable_after(1, 3, MARKED + 1), false);
    agree(&rt, is_reusable_after(3, 3, 16106127360), false);
}

#[test]
fn a_value_is_published_in_the_slots_generation(rt: HostRuntime) {
    let name = published_name(SPOT, 8589934593);
    agree(&rt, name, SPOT.name(2));
    agree(&rt, name.slot_ref().is_same(&SPOT), true);
}
