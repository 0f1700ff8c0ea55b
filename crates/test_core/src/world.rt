//! Tests of worlds: worked lists of events, and refused memory.
mod bells;
mod largest;
mod layouts;
mod looks;
mod memory;
mod opening;
mod runs;
mod same;
mod skipped;
mod slots;
mod stacks;

use crate::assertions::agree;
use sh_core::{Outcome, World};
use sh_history::Entry;
use sh_key::{KeyLayout, Tiny};
use sh_shape::Shape;
use sh_step::{Action, Event, PageName, SlotName};
use sh_value::Value;
use std::alloc::Global;
use std::process::Abort;

// The first page of the first shard.
const PAGE: PageName = PageName { shard: 0, page: 0 };

// A slot of that page.
fn slot(number: u64) -> SlotName {
    SlotName {
        shard: 0,
        page: 0,
        slot: number,
    }
}

fn event(pass: u32, action: Action) -> Event {
    Event { pass, action }
}

fn value(words: &[u64], rt: &impl Abort) -> Value {
    Value::new(words).expect(rt, "so few words fit")
}

// A heap of one shard of one segment.
fn empty_world<L: KeyLayout>(alloc: Global, passes: u32, rt: &impl Abort) -> World<L> {
    let shape = Shape::new(1, 1, passes).expect(rt, "one shard of one segment is a shape");
    World::<L>::new(alloc, shape).expect(rt, "it fits every layout")
}

fn step<L: KeyLayout>(world: &mut World<L>, event: &Event, rt: &impl Abort) -> Outcome {
    world.step(event).expect(rt, "memory is given")
}

// Does these events, which decide nothing.
fn moves<L: KeyLayout>(world: &mut World<L>, events: &[Event], rt: &impl Abort) {
    for event in events {
        agree(rt, step(world, event, rt), Outcome::Moved);
    }
}

// The pass does this action, which decides the entry.
fn replies<L: KeyLayout>(
    world: &mut World<L>,
    pass: u32,
    action: Action,
    entry: Entry,
    rt: &impl Abort,
) {
    let answer = step(world, &event(pass, action), rt);
    agree(rt, answer, Outcome::Replied(entry));
}

// The pass tries this action, whose condition fails.
fn skips<L: KeyLayout>(world: &mut World<L>, pass: u32, action: Action, rt: &impl Abort) {
    agree(rt, step(world, &event(pass, action), rt), Outcome::Skipped);
}

// The log is this.
fn has_log<L: KeyLayout, const N: usize>(world: &World<L>, log: [Entry; N], rt: &impl Abort) {
    agree(rt, world.log(), log.as_slice());
}

// The words with these numbers are these.
fn has_words<L: KeyLayout, const N: usize>(
    world: &World<L>,
    words: [(usize, u64); N],
    rt: &impl Abort,
) {
    for (number, word) in words {
        assert_eq!(rt;
            world.words().get(number).copied(),
            Some(word),
            "word {number}"
        );
    }
}

// The first pass adopts the shard and gives its first page three slots, which are all its own to fill.
fn with_page(alloc: Global, passes: u32, rt: &impl Abort) -> World<Tiny> {
    let mut world = empty_world::<Tiny>(alloc, passes, rt);
    moves(
        &mut world,
        &[
            event(0, Action::Adopt(0)),
            event(0, Action::ReadPage(PAGE)),
            event(0, Action::SetClass(PAGE, 7)),
        ],
        rt,
    );
    world
}

// As `with_page`, and the first pass then inserts the one word 5 in the first slot.
fn opened(alloc: Global, passes: u32, rt: &impl Abort) -> World<Tiny> {
    let mut world = with_page(alloc, passes, rt);
    fills(&mut world, 0, 5, rt);
    replies(
        &mut world,
        0,
        Action::Publish,
        Entry::Insert(0, 4096, value(&[5], rt)),
        rt,
    );
    world
}

// The first pass stores a value of one word in a slot of its own, which is not present yet.
fn fills(world: &mut World<Tiny>, number: u64, word: u64, rt: &impl Abort) {
    moves(
        world,
        &[
            event(0, Action::FillSlot(slot(number), value(&[word], rt))),
            event(0, Action::Fill),
        ],
        rt,
    );
}

// The pass removes the key: it marks the slot, gives its count back and ends the generation.
fn removes(world: &mut World<Tiny>, pass: u32, key: u64, rt: &impl Abort) {
    moves(world, &[event(pass, Action::EnterRemove(key))], rt);
    replies(world, pass, Action::Mark, Entry::Removed(pass, key), rt);
    moves(
        world,
        &[event(pass, Action::Drop), event(pass, Action::Finish)],
        rt,
    );
}
