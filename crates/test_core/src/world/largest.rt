//! What grows, at its largest: the words of the largest heap, a long log, and all that a part may note.
ghost use Rattle.std.specs.Prelude.{◌<◌};

use super::{event, has_words, moves, replies, skips, value};
use crate::assertions::agree;
use sh_core::World;
use sh_history::Entry;
use sh_key::{Tiny, Wide};
use sh_shape::Shape;
use sh_step::{Action, PageName, SlotName};
use sh_value::Value;
use std::process::Abort;

// 2,048 pages of 195 words, two words for each of two shards, and 64 passes.
#[test]
fn the_largest_heap_opens(rt: HostRuntime) {
    let shape = Shape::new(2, 128, 64).expect(&rt, "256 segments and 64 passes are a shape");
    let world = World::<Wide>::new(rt.alloc(), shape).expect(&rt, "it fits wide");
    agree(&rt, world.words().len(), 399_364);
    has_words(&world, [(195 * 2_047 + 50, 4294967296)], &rt);
    agree(&rt, world.parts().len(), 64);
}

// Gets a key that was never issued.
fn finds_nothing(world: &mut World<Tiny>, rt: &impl Abort) {
    replies(world, 0, Action::EnterGet(4096), Entry::Gone(0, 4096), rt);
    moves(world, &[event(0, Action::Drop)], rt);
}

// Each get of a key that was never issued adds an entry.
#[test]
fn a_log_has_room_for_many_entries(rt: HostRuntime) {
    let shape = Shape::new(1, 1, 1).expect(&rt, "one shard of one segment is a shape");
    let mut world = World::<Tiny>::new(rt.alloc(), shape).expect(&rt, "it fits tiny");
    for _ in 0..70_000 {
        finds_nothing(&mut world, &rt);
    }
    agree(&rt, world.log().len(), 70_000);
}

// The words 1 to 16.
fn sixteen(rt: &impl Abort) -> Value {
    value(&[1, 2, 3, 4, 5, 6, 7, 8, 9, 10, 11, 12, 13, 14, 15, 16], rt)
}

// Fills a slot of the page, which is the pass's own, with the words 1 to 16.
fn fills_all(world: &mut World<Tiny>, name: SlotName, key: u64, rt: &impl Abort) {
    moves(world, &[event(0, Action::FillSlot(name, sixteen(rt)))], rt);
    for _ in 0..16 {
        moves(world, &[event(0, Action::Fill)], rt);
    }
    replies(
        world,
        0,
        Action::Publish,
        Entry::Insert(0, key, sixteen(rt)),
        rt,
    );
}

// Gives a page three slots, and fills them.
fn fills_page(world: &mut World<Tiny>, page: u64, rt: &impl Abort)
    requires { page < 16 }
{
    let name = PageName { shard: 0, page };
    moves(
        world,
        &[
            event(0, Action::ReadPage(name)),
            event(0, Action::SetClass(name, 7)),
        ],
        rt,
    );
    for slot in 0..3u64 {
        let name = SlotName {
            shard: 0,
            page,
            slot,
        };
        fills_all(world, name, 4_096 + 64 * page + slot, rt);
    }
}

// Gets the key, and reads its class, its length and its sixteen words.
fn reads_all(world: &mut World<Tiny>, key: u64, rt: &impl Abort) {
    replies(
        world,
        0,
        Action::EnterGet(key),
        Entry::Got(0, key, sixteen(rt)),
        rt,
    );
    moves(
        world,
        &[
            event(0, Action::ReadClass(key)),
            event(0, Action::ReadLength(key)),
        ],
        rt,
    );
    for place in 0..16 {
        moves(world, &[event(0, Action::ReadWord(key, place))], rt);
    }
}

// A pass has at most sixteen holds, and notes a class, a length and sixteen words for each. The shard has 16 pages of
// three such values.
#[test]
fn a_part_notes_all_that_it_may_hold(rt: HostRuntime) {
    let shape = Shape::new(1, 2, 1).expect(&rt, "one shard of two segments is a shape");
    let mut world = World::<Tiny>::new(rt.alloc(), shape).expect(&rt, "it fits tiny");
    moves(&mut world, &[event(0, Action::Adopt(0))], &rt);
    for page in 0..16u64 {
        fills_page(&mut world, page, &rt);
    }
    for page in 0..16u64 {
        reads_all(&mut world, 4_096 + 64 * page, &rt);
    }
    let holds = world.parts().first().map(|part| part.hold_count());
    agree(&rt, holds, Some(16));
    skips(&mut world, 0, Action::EnterGet(4_097), &rt);
}
