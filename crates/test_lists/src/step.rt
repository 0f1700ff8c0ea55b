//! Tests of the atomic steps: actions, their moves, and a pass's own part.
ghost use Rattle.std.specs.Prelude.{◌≡◌};

mod part;

use crate::assertions::{agree, holds};
use sh_key::Tiny;
use sh_shape::{Place, Shape};
use sh_slots::SlotRef;
use sh_step::operands::{
    bell_of, bell_word, gen_max, guard_max, payload_word, put_word, slots_of_word, width_of_word,
    word_of_value,
};
use sh_step::{Action, ActionKind, Move, Operation, PageName, Part, SlotName, enabled};
use sh_value::Value;
use std::process::Abort;
use std::test::Fail;

fn one_shard(rt: &impl Abort) -> Shape
    ensures { result ≡ record { shards = 1; segments = 1; passes = 1 } }
{
    Shape::new(1, 1, 1).expect(rt, "one shard of one segment is a shape")
}

#[test]
fn forms_are_of_their_kinds(rt: HostRuntime) -> Result<(), Fail> {
    let page = PageName { shard: 0, page: 0 };
    let slot = SlotName {
        shard: 0,
        page: 0,
        slot: 0,
    };
    let value = Value::new(&[5]).expect(&rt, "one word fits");
    agree(&rt, Action::EnterGet(4096).kind().name(), "Enter");
    agree(&rt, Action::EnterRemove(4096).kind(), ActionKind::Enter);
    agree(&rt, Action::FillSlot(slot, value).kind().name(), "Fill");
    agree(&rt, Action::DropHold(4096).kind(), ActionKind::Drop);
    agree(&rt, Action::Arm(page).kind().name(), "Arm");
    Ok(())
}

#[test]
fn operations_leave_words(rt: HostRuntime) {
    agree(&rt, Operation::FetchAdd(1).after(5368709120), 5368709121);
    agree(&rt, Operation::FetchSub(1).after(5368709121), 5368709120);
    agree(
        &rt,
        Operation::FetchOr(1 << 31).after(5368709120),
        7516192768,
    );
    agree(&rt, Operation::Swap(96).after(1), 96);
    agree(&rt, Operation::Store(3).after(7), 3);
    agree(&rt, Operation::CompareExchange(7, 8).after(7), 8);
    agree(&rt, Operation::CompareExchange(7, 8).after(9), 9);
    agree(&rt, Operation::Load.after(7), 7);
}

// An idle pass may enter the slot of a key, and has nothing to drop.
#[test]
fn moves_have_steps(rt: HostRuntime) -> Result<(), Fail> {
    let shape = one_shard(&rt);
    let part = Part::new(rt.alloc());
    holds(&rt, enabled::<Tiny>(&shape, &part, &Action::EnterGet(4096)));
    holds(
        &rt,
        !enabled::<Tiny>(&shape, &part, &Action::EnterGet(4095)),
    );
    holds(&rt, !enabled::<Tiny>(&shape, &part, &Action::Drop));
    holds(&rt, !enabled::<Tiny>(&shape, &part, &Action::Leave));
    holds(
        &rt,
        Move::of::<Tiny>(&shape, &part, &Action::Adopt(0)).is_some(),
    );
    holds(
        &rt,
        Move::of::<Tiny>(&shape, &part, &Action::Adopt(1)).is_none(),
    );
    let slot_ref = SlotRef { page: 0, slot: 2 };
    let put = Move::Put(slot_ref).step::<Tiny>(&shape);
    agree(&rt, put.place, Place::Head(0));
    agree(&rt, put.operation, Operation::Swap(6));
    let followed = Move::Follow(0, 2).step::<Tiny>(&shape);
    agree(&rt, followed.place, Place::Link(0, 2));
    agree(&rt, followed.operation, Operation::Swap(0));
    Ok(())
}

// In its last generation a slot is used up.
#[test]
#[tactic(auto, unfolding(sh_step::specs::Plans::keys_of, sh_word::specs::Fields::word_of))]
fn generations_end_in_one_exchange(rt: HostRuntime) -> Result<(), Fail> {
    let shape = one_shard(&rt);
    let part = Part::new(rt.alloc());
    let slot_ref = SlotRef { page: 0, slot: 2 };
    let ended = Move::Finish(slot_ref, 1).step::<Tiny>(&shape);
    agree(&rt, ended.place, Place::State(0, 2));
    agree(
        &rt,
        ended.operation,
        Operation::CompareExchange(7516192768, 8589934592),
    );
    let used_up = Move::Finish(slot_ref, 3).step::<Tiny>(&shape);
    agree(
        &rt,
        used_up.operation,
        Operation::CompareExchange(16106127360, 15032385536),
    );
    Ok(())
}

// A page of class 7 has 3 slots of 16 words.
#[test]
fn steps_are_done_with_these_words(rt: HostRuntime) -> Result<(), Fail> {
    let shape = one_shard(&rt);
    let value = Value::new(&[5, 6]).expect(&rt, "two words fit");
    agree(&rt, width_of_word(8), 16);
    agree(&rt, slots_of_word(8), 3);
    agree(&rt, width_of_word(0), 1);
    agree(&rt, payload_word(2, 8, 1), 33);
    agree(&rt, word_of_value(&value, 1), 6);
    agree(&rt, put_word(2), 6);
    agree(&rt, bell_of::<Tiny>(&shape, 3), Place::Bell(0));
    agree(&rt, bell_word::<Tiny>(&shape, 3), 4);
    agree(&rt, gen_max::<Tiny>(), 3);
    agree(&rt, guard_max::<Tiny>(), 4);
    Ok(())
}
