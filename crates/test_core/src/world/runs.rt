use super::{PAGE, event, has_log, has_words, opened, slot, value};
use crate::assertions::agree;
use sh_core::{World, run};
use sh_history::Entry;
use sh_key::Tiny;
use sh_shape::Shape;
use sh_step::{Action, Event};
use sh_value::Refusal;
use std::alloc::Global;
use std::process::Abort;

// Runs these events on a heap of this shape.
fn ran(alloc: Global, shape: Shape, events: &[Event], rt: &impl Abort) -> World<Tiny> {
    run::<Tiny>(alloc, shape, events).expect(rt, "it fits tiny")
}

// A run of no events is the heap as it opens.
fn none_run(alloc: Global, shape: Shape, rt: &impl Abort) {
    let empty = ran(alloc, shape, &[], rt);
    has_words(&empty, [(0, 0)], rt);
    agree(rt, empty.log().len(), 0);
}

// The events of an insert do what their steps do.
fn insert_runs(alloc: Global, shape: Shape, events: &[Event], rt: &impl Abort) {
    let world = ran(alloc, shape, events, rt);
    let stepped = opened(alloc, 2, rt);
    agree(rt, world.words(), stepped.words());
    has_log(&world, [Entry::Insert(0, 4096, value(&[5], rt))], rt);
    agree(rt, world.shape(), shape);
}

// If two passes remove the value, the first to mark it does.
fn removes_run(alloc: Global, shape: Shape, events: &[Event], rt: &impl Abort) {
    let removed = ran(alloc, shape, events, rt);
    let inserted = Entry::Insert(0, 4096, value(&[5], rt));
    let log = [inserted, Entry::Removed(1, 4096), Entry::Gone(0, 4096)];
    has_log(&removed, log, rt);
}

#[test]
fn a_run_does_one_event_after_the_other(rt: HostRuntime) {
    let shape = Shape::new(1, 1, 2).expect(&rt, "one shard of one segment is a shape");
    let events = [
        event(0, Action::Adopt(0)),
        event(0, Action::ReadPage(PAGE)),
        event(0, Action::SetClass(PAGE, 7)),
        event(0, Action::FillSlot(slot(0), value(&[5], &rt))),
        event(0, Action::Fill),
        event(0, Action::Publish),
        event(0, Action::EnterRemove(4096)),
        event(1, Action::EnterRemove(4096)),
        event(1, Action::Mark),
        event(0, Action::Mark),
    ];
    none_run(rt.alloc(), shape, &rt);
    insert_runs(rt.alloc(), shape, &events[..6], &rt);
    removes_run(rt.alloc(), shape, &events, &rt);
}

#[test]
fn a_run_wants_a_shape_that_fits(rt: HostRuntime) {
    let shape = Shape::new(5, 1, 1).expect(&rt, "five shards are a shape");
    let events = [event(0, Action::Adopt(0))];
    let why = run::<Tiny>(rt.alloc(), shape, &events).err();
    agree(&rt, why, Some(Refusal::BadShape));
}
