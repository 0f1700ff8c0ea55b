//! Tests of accounts: pages of a fresh heap, and what a slot is by its state word.
use crate::assertions::agree;
use sh_accounts::kinds::{SlotKind, slot_kind};
use sh_accounts::{Accounts, page};
use sh_core::World;
use sh_key::{Tiny, Wide};
use sh_shape::Shape;
use sh_slots::SlotRef;
use sh_word::{Kind, State};
use std::test::Fail;

// A page without a class, of whose slots nothing is counted.
const BLANK: Accounts = Accounts {
    class: None,
    live: 0,
    marked: 0,
    retired: 0,
    mine: 0,
    hand: 0,
    queued: 0,
};

#[test]
fn pages_of_a_fresh_heap_are_blank(rt: HostRuntime) -> Result<(), Fail> {
    let shape = Shape::new(2, 1, 1).expect(&rt, "two shards of one segment are a shape");
    let world = World::<Tiny>::new(rt.alloc(), shape).expect(&rt, "it fits tiny");
    agree(&rt, page(&world, 0, 0), Some(BLANK));
    agree(&rt, page(&world, 1, 7), Some(BLANK));
    Ok(())
}

#[test]
fn page_that_is_not_there_has_no_accounts(rt: HostRuntime) -> Result<(), Fail> {
    let shape = Shape::new(2, 1, 1).expect(&rt, "two shards of one segment are a shape");
    let world = World::<Wide>::new(rt.alloc(), shape).expect(&rt, "it fits wide");
    agree(&rt, page(&world, 2, 0), None);
    agree(&rt, page(&world, 0, 8), None);
    agree(&rt, page(&world, 4294967295, 4294967295), None);
    Ok(())
}

// An empty slot that no pass has is queued.
#[test]
fn state_words_say_what_slots_are(rt: HostRuntime) -> Result<(), Fail> {
    let shape = Shape::new(1, 1, 3).expect(&rt, "one shard of one segment is a shape");
    let world = World::<Tiny>::new(rt.alloc(), shape).expect(&rt, "it fits tiny");
    let slot_ref = SlotRef { page: 1, slot: 2 };
    let table = [
        (Kind::Live, SlotKind::Live),
        (Kind::Marked, SlotKind::Marked),
        (Kind::Retired, SlotKind::Retired),
        (Kind::Empty, SlotKind::Queued),
    ];
    for (kind, expected) in table {
        let word = State::new(kind, 1, 0).word();
        agree(&rt, slot_kind(word, world.parts(), slot_ref), expected);
    }
    Ok(())
}
