use super::{PAGE, empty_world, event, has_words, moves, replies, slot, value};
use crate::assertions::agree;
use sh_core::{Outcome, World};
use sh_history::Entry;
use sh_key::{KeyLayout, Tagged, Tiny, Wide};
use sh_shape::Shape;
use sh_step::{Action, PageName, SlotName};
use std::process::Abort;

// A value is inserted under its first key, got, and removed while it is held.
fn one_value<L: KeyLayout>(world: &mut World<L>, key: u64, rt: &impl Abort) {
    moves(
        world,
        &[
            event(0, Action::Adopt(0)),
            event(0, Action::ReadPage(PAGE)),
            event(0, Action::SetClass(PAGE, 7)),
            event(0, Action::FillSlot(slot(0), value(&[5], rt))),
            event(0, Action::Fill),
        ],
        rt,
    );
    replies(
        world,
        0,
        Action::Publish,
        Entry::Insert(0, key, value(&[5], rt)),
        rt,
    );
    has_words(
        world,
        [(0, 8), (3, 5368709120), (99, 1), (147, 5), (1560, 1)],
        rt,
    );
    replies(
        world,
        1,
        Action::EnterGet(key),
        Entry::Got(1, key, value(&[5], rt)),
        rt,
    );
    moves(world, &[event(0, Action::EnterRemove(key))], rt);
    replies(world, 0, Action::Mark, Entry::Removed(0, key), rt);
    moves(world, &[event(0, Action::Drop)], rt);
    has_words(world, [(3, 7516192769)], rt);
    moves(
        world,
        &[
            event(1, Action::ReadClass(key)),
            event(1, Action::ReadLength(key)),
            event(1, Action::ReadWord(key, 0)),
        ],
        rt,
    );
    replies(world, 1, Action::DropHold(key), Entry::Released(1, key), rt);
    moves(world, &[event(1, Action::Finish)], rt);
    has_words(world, [(3, 8589934592)], rt);
    agree(rt, world.log().len(), 4);
}

#[test]
fn each_layout_has_its_keys(rt: HostRuntime) {
    let mut tiny = empty_world::<Tiny>(rt.alloc(), 2, &rt);
    one_value(&mut tiny, 4096, &rt);
    let mut wide = empty_world::<Wide>(rt.alloc(), 2, &rt);
    one_value(&mut wide, 16777216, &rt);
    let mut tagged = empty_world::<Tagged>(rt.alloc(), 2, &rt);
    one_value(&mut tagged, 1048576, &rt);
    agree(&rt, tiny.words(), wide.words());
    agree(&rt, tiny.words(), tagged.words());
    let answer = tiny.step(&event(0, Action::EnterGet(16777216)));
    agree(&rt, answer, Ok(Outcome::Skipped));
}

// The pages of shard 1 follow those of shard 0, and the owners' words follow all pages.
#[test]
fn the_second_shard_has_its_own_words(rt: HostRuntime) {
    let shape = Shape::new(2, 1, 1).expect(&rt, "two shards of one segment are a shape");
    let mut world = World::<Tiny>::new(rt.alloc(), shape).expect(&rt, "it fits tiny");
    agree(&rt, world.words().len(), 3124);
    let page = PageName { shard: 1, page: 0 };
    let first = SlotName {
        shard: 1,
        page: 0,
        slot: 0,
    };
    moves(
        &mut world,
        &[
            event(0, Action::Adopt(1)),
            event(0, Action::ReadPage(page)),
            event(0, Action::SetClass(page, 7)),
            event(0, Action::FillSlot(first, value(&[5], &rt))),
            event(0, Action::Fill),
        ],
        &rt,
    );
    replies(
        &mut world,
        0,
        Action::Publish,
        Entry::Insert(0, 5120, value(&[5], &rt)),
        &rt,
    );
    has_words(
        &world,
        [
            (0, 0),
            (3, 4294967296),
            (1560, 8),
            (1563, 5368709120),
            (1659, 1),
            (1707, 5),
            (3120, 0),
            (3122, 1),
        ],
        &rt,
    );
}
