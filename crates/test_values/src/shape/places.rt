//! The places of words.
ghost use Rattle.std.specs.Prelude.{◌≡◌};

use crate::assertions::agree;
use sh_shape::{Place, Shape};
use std::process::Abort;

fn shape(shards: u32, rt: &impl Abort) -> Shape
    ensures { result ≡ record { shards = shards; segments = 1; passes = 1 } }
{
    Shape::new(shards, 1, 1).expect(rt, "few shards of one segment are a shape")
}

#[test]
fn two_shards_lie_one_behind_the_other(rt: HostRuntime) {
    let shape = shape(2, &rt);
    agree(&rt, shape.class_at(0, 0), 0);
    agree(&rt, shape.class_at(1, 0), 1560);
    agree(&rt, shape.owner_at(0), 3120);
    agree(&rt, shape.bell_at(0), 3121);
    agree(&rt, shape.owner_at(1), 3122);
    agree(&rt, shape.bell_at(1), 3123);
    agree(&rt, shape.words(), 3124);
}

#[test]
fn one_segment_has_1562_words(rt: HostRuntime) {
    let shape = shape(1, &rt);
    agree(&rt, shape.pages(), 8);
    agree(&rt, shape.owner_at(0), 1560);
    agree(&rt, shape.bell_at(0), 1561);
    agree(&rt, shape.words(), 1562);
}

// The words of the second page, from 195 on.
#[test]
fn words_stand_at_their_offsets(rt: HostRuntime) {
    let shape = shape(1, &rt);
    agree(&rt, shape.page_number(0, 1), 1);
    agree(&rt, shape.class_at(0, 1), 195);
    agree(&rt, shape.head_at(0, 1), 196);
    agree(&rt, shape.page_link_at(0, 1), 197);
    agree(&rt, shape.state_at(0, 1, 0), 198);
    agree(&rt, shape.state_at(0, 1, 47), 245);
    agree(&rt, shape.link_at(0, 1, 0), 246);
    agree(&rt, shape.length_at(0, 1, 0), 294);
    agree(&rt, shape.payload_at(0, 1, 0), 342);
    agree(&rt, shape.payload_at(0, 1, 47), 389);
    agree(&rt, shape.index(Place::Class(2)), 390);
}
