ghost use Rattle.std.specs.Prelude.{◌≡◌};

use crate::assertions::{agree, holds};
use sh_key::Tiny;
use sh_shape::Shape;
use sh_slots::{Hand, KeyRef, Reply, SlotRef};
use sh_step::{Move, Part};
use sh_value::Refusal;
use std::process::Abort;
use std::test::Fail;

// A live slot of the first generation, with no count; marked with no count; and with one.
const LIVE: u64 = 5368709120;

const MARKED: u64 = 7516192768;

const MARKED_ONE: u64 = 7516192769;

const FIRST: SlotRef = SlotRef { page: 0, slot: 0 };

const NAME: KeyRef = KeyRef {
    page: 0,
    slot: 0,
    generation: 1,
};

fn one_shard(rt: &impl Abort) -> Shape
    ensures { result ≡ record { shards = 1; segments = 1; passes = 1 } }
{
    Shape::new(1, 1, 1).expect(rt, "one shard of one segment is a shape")
}

#[test]
fn a_hold_is_noted_where_the_value_is(rt: HostRuntime) -> Result<(), Fail> {
    let shape = one_shard(&rt);
    let mut part = Part::new(rt.alloc());
    let entry = Move::EnterGet(4096, NAME);
    match part.apply::<Tiny>(&shape, &entry, LIVE) {
        Ok(reply) => {
            agree(&rt, reply, Some(Reply::Got(4096)));
            holds(&rt, part.has_hold(4096));
        }
        Err(refusal) => {
            agree(&rt, refusal, Refusal::Memory);
            holds(&rt, !part.has_hold(4096));
        }
    }
    holds(&rt, part.is_idle());
    Ok(())
}

#[test]
fn an_entry_of_an_empty_slot_leaves_again(rt: HostRuntime) -> Result<(), Fail> {
    let shape = one_shard(&rt);
    let mut part = Part::new(rt.alloc());
    let entry = Move::EnterGet(4096, NAME);
    let reply = part
        .apply::<Tiny>(&shape, &entry, 4294967296)
        .expect(&rt, "nothing is noted");
    agree(&rt, reply, Some(Reply::Gone(4096)));
    agree(&rt, part.hand(), &Hand::Leaving(FIRST));
    Ok(())
}

// While another pass is on the slot, this one ends nothing. Once nobody is, it ends the generation of a slot that is
// not its own.
#[test]
#[tactic(auto, unfolding(sh_step::specs::Plans::keys_of, sh_step::specs::Plans::shard_of, sh_step::specs::Plans::local, sh_word::specs::Fields::word_of))]
fn a_generation_ends_where_nobody_is_on_the_slot(rt: HostRuntime) -> Result<(), Fail> {
    let shape = one_shard(&rt);
    let mut part = Part::new(rt.alloc());
    let finish = Move::Finish(FIRST, 1);
    part.apply::<Tiny>(&shape, &finish, MARKED_ONE)
        .expect(&rt, "nothing is noted");
    agree(&rt, part.hand(), &Hand::Idle);
    part.apply::<Tiny>(&shape, &finish, MARKED)
        .expect(&rt, "nothing is noted");
    agree(&rt, part.hand(), &Hand::ToPut(FIRST));
    part.apply::<Tiny>(&shape, &Move::Put(FIRST), 1)
        .expect(&rt, "nothing is noted");
    agree(&rt, part.hand(), &Hand::Tying(FIRST, 1, true));
    part.apply::<Tiny>(&shape, &Move::Tie(FIRST, 1, true), 0)
        .expect(&rt, "nothing is noted");
    agree(&rt, part.hand(), &Hand::Ringing(0));
    part.apply::<Tiny>(&shape, &Move::Ring(0), 0)
        .expect(&rt, "nothing is noted");
    agree(&rt, part.hand(), &Hand::RingTying(0, 1));
    Ok(())
}

// A page is given class 7, which has 3 slots. Returns whether there was memory; a refusal leaves the part as it was,
// here and below.
fn page_is_given_a_class(rt: &impl Abort, shape: &Shape, part: &mut Part) -> bool
    requires { shape.now ≡ record { shards = 1; segments = 1; passes = 1 } }
{
    if part.apply::<Tiny>(shape, &Move::SetClass(0, 7), 0).is_err() {
        agree(rt, part.class_noted(0), None);
        holds(rt, !part.has_mine(FIRST));
        return false;
    }
    agree(rt, part.class_noted(0), Some(8));
    holds(rt, part.has_all_mine(0, 3));
    holds(rt, !part.has_all_mine(0, 4));
    part.apply::<Tiny>(shape, &Move::PutSlot(FIRST), 0)
        .expect(rt, "nothing is noted");
    holds(rt, !part.has_mine(FIRST));
    true
}

fn page_is_armed(rt: &impl Abort, shape: &Shape, part: &mut Part) -> bool
    requires { shape.now ≡ record { shards = 1; segments = 1; passes = 1 } }
{
    if part.apply::<Tiny>(shape, &Move::Arm(0), 2).is_err() {
        holds(rt, !part.has_armed(0));
        agree(rt, part.cursor(0), None);
        return false;
    }
    holds(rt, part.has_armed(0));
    agree(rt, part.cursor(0), Some(0));
    true
}

fn link_is_followed(rt: &impl Abort, shape: &Shape, part: &mut Part) -> bool
    requires { shape.now ≡ record { shards = 1; segments = 1; passes = 1 } }
{
    let follow = Move::Follow(0, 0);
    part.apply::<Tiny>(shape, &follow, 0)
        .expect(rt, "nothing is noted");
    agree(rt, part.cursor(0), Some(0));
    holds(rt, !part.has_mine(FIRST));
    if part.apply::<Tiny>(shape, &follow, 1).is_err() {
        agree(rt, part.cursor(0), Some(0));
        return false;
    }
    agree(rt, part.cursor(0), None);
    holds(rt, part.has_mine(FIRST));
    true
}

fn bell_is_followed(rt: &impl Abort, shape: &Shape, part: &mut Part)
    requires { shape.now ≡ record { shards = 1; segments = 1; passes = 1 } }
{
    part.apply::<Tiny>(shape, &Move::TakeBell(0), 1)
        .expect(rt, "nothing is noted");
    agree(rt, part.bell_cursor(), Some(0));
    let follow_bell = Move::FollowBell(0);
    part.apply::<Tiny>(shape, &follow_bell, 0)
        .expect(rt, "nothing is noted");
    agree(rt, part.bell_cursor(), Some(0));
    part.apply::<Tiny>(shape, &follow_bell, 1)
        .expect(rt, "nothing is noted");
    agree(rt, part.bell_cursor(), None);
    holds(rt, !part.has_armed(0));
}

#[test]
fn an_owner_arms_and_follows_a_page(rt: HostRuntime) -> Result<(), Fail> {
    let shape = one_shard(&rt);
    let mut part = Part::new(rt.alloc());
    part.apply::<Tiny>(&shape, &Move::Adopt(0), 0)
        .expect(&rt, "nothing is noted");
    agree(&rt, part.owned(), Some(0));
    if page_is_given_a_class(&rt, &shape, &mut part)
        && page_is_armed(&rt, &shape, &mut part)
        && link_is_followed(&rt, &shape, &mut part)
    {
        bell_is_followed(&rt, &shape, &mut part);
    }
    Ok(())
}
