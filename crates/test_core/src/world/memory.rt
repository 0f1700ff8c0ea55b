//! Refused memory. With `rt try --test --fail-alloc N` the N-th allocation of a test is refused; each of these survives
//! that anywhere.
use super::{PAGE, event, has_words, slot, value};
use crate::assertions::agree;
use crate::world::same::assert_same;
use sh_core::{Outcome, World, run};
use sh_history::Entry;
use sh_key::Tiny;
use sh_shape::Shape;
use sh_step::{Action, Event};
use sh_value::Refusal;
use std::alloc::Global;
use std::process::Abort;

fn small(rt: &impl Abort) -> Shape {
    Shape::new(1, 1, 3).expect(rt, "one shard of one segment is a shape")
}

// A heap; if memory was refused, it is opened once more.
fn open_with_memory(alloc: Global, rt: &impl Abort) -> World<Tiny> {
    match World::<Tiny>::new(alloc, small(rt)) {
        Ok(world) => world,
        Err(refusal) => {
            agree(rt, refusal, Refusal::Memory);
            World::<Tiny>::new(alloc, small(rt)).expect(rt, "memory is given again")
        }
    }
}

// Two worlds that do the same events.
#[derive(Drop)]
struct Pair {
    world: World<Tiny>,
    twin: World<Tiny>,
}

fn new_pair(alloc: Global, rt: &impl Abort) -> Pair {
    Pair {
        world: open_with_memory(alloc, rt),
        twin: open_with_memory(alloc, rt),
    }
}

// Does the event on the world, and once more if memory was refused: the world was then still as its twin.
fn step_with_memory(pair: &mut Pair, event: &Event, rt: &impl Abort) -> Result<Outcome, Refusal> {
    match pair.world.step(event) {
        Err(refusal) => {
            agree(rt, refusal, Refusal::Memory);
            assert_same(&pair.world, &pair.twin, rt);
            pair.world.step(event)
        }
        answer => answer,
    }
}

// Does the event on the twin, and once more if memory was refused.
fn step_twin(pair: &mut Pair, event: &Event, rt: &impl Abort) -> Result<Outcome, Refusal> {
    match pair.twin.step(event) {
        Err(refusal) => {
            agree(rt, refusal, Refusal::Memory);
            pair.twin.step(event)
        }
        answer => answer,
    }
}

// Does the event on the world and on its twin, and both have this outcome.
fn both(pair: &mut Pair, event: &Event, outcome: Outcome, rt: &impl Abort) {
    let answer = step_with_memory(pair, event, rt);
    agree(rt, &answer, &step_twin(pair, event, rt));
    agree(rt, answer, Ok(outcome));
    assert_same(&pair.world, &pair.twin, rt);
}

fn both_move(pair: &mut Pair, events: &[Event], rt: &impl Abort) {
    for event in events {
        both(pair, event, Outcome::Moved, rt);
    }
}

fn both_reply(pair: &mut Pair, pass: u32, action: Action, entry: Entry, rt: &impl Abort) {
    both(pair, &event(pass, action), Outcome::Replied(entry), rt);
}

// The first pass adopts the shard, gives its first page three slots, and inserts the one word 5.
fn open_both(pair: &mut Pair, rt: &impl Abort) {
    both_move(
        pair,
        &[
            event(0, Action::Adopt(0)),
            event(0, Action::ReadPage(PAGE)),
            event(0, Action::SetClass(PAGE, 7)),
            event(0, Action::FillSlot(slot(0), value(&[5], rt))),
            event(0, Action::Fill),
        ],
        rt,
    );
    let inserted = Entry::Insert(0, 4096, value(&[5], rt));
    both_reply(pair, 0, Action::Publish, inserted, rt);
}

// The pass removes the value.
fn remove_both(pair: &mut Pair, pass: u32, rt: &impl Abort) {
    both_move(pair, &[event(pass, Action::EnterRemove(4096))], rt);
    both_reply(pair, pass, Action::Mark, Entry::Removed(pass, 4096), rt);
    both_move(
        pair,
        &[event(pass, Action::Drop), event(pass, Action::Finish)],
        rt,
    );
}

// Holds, and what is read of a held key, are noted; the log grows twice.
#[test]
fn a_read_refused_for_memory_changes_nothing(rt: HostRuntime) {
    let pair = &mut new_pair(rt.alloc(), &rt);
    open_both(pair, &rt);
    for _ in 0..4 {
        let got = Entry::Got(1, 4096, value(&[5], &rt));
        both_reply(pair, 1, Action::EnterGet(4096), got, &rt);
    }
    both_move(
        pair,
        &[
            event(1, Action::ReadClass(4096)),
            event(1, Action::ReadLength(4096)),
            event(1, Action::ReadWord(4096, 0)),
        ],
        &rt,
    );
    both_reply(
        pair,
        2,
        Action::EnterGet(4096),
        Entry::Crowded(2, 4096),
        &rt,
    );
    both_move(pair, &[event(2, Action::Drop)], &rt);
    for _ in 0..4 {
        both_reply(
            pair,
            1,
            Action::DropHold(4096),
            Entry::Released(1, 4096),
            &rt,
        );
    }
    remove_both(pair, 1, &rt);
    both_reply(pair, 2, Action::EnterGet(4096), Entry::Gone(2, 4096), &rt);
    agree(&rt, pair.world.log().len(), 12);
}

// The owner arms a page on which a slot was put: it notes the page and the slot whose link it is to follow.
#[test]
fn an_arm_refused_for_memory_changes_nothing(rt: HostRuntime) {
    let pair = &mut new_pair(rt.alloc(), &rt);
    open_both(pair, &rt);
    remove_both(pair, 1, &rt);
    both_move(pair, &[event(1, Action::Put), event(1, Action::Tie)], &rt);
    both_move(
        pair,
        &[event(0, Action::Arm(PAGE)), event(0, Action::Follow(PAGE))],
        &rt,
    );
    both_move(
        pair,
        &[
            event(0, Action::PutSlot(slot(0))),
            event(0, Action::Tie),
            event(0, Action::Ring),
            event(0, Action::RingTie),
            event(0, Action::TakeBell),
            event(0, Action::FollowBell),
        ],
        &rt,
    );
    has_words(&pair.world, [(1, 2), (1561, 0)], &rt);
}

// Each owner after the first has no room yet for slots of its own: one gets its first by the end of a removal, one by a
// link.
#[test]
fn a_slot_refused_for_memory_changes_nothing(rt: HostRuntime) {
    let pair = &mut new_pair(rt.alloc(), &rt);
    open_both(pair, &rt);
    for number in [1, 2] {
        both_move(
            pair,
            &[
                event(0, Action::PutSlot(slot(number))),
                event(0, Action::Tie),
            ],
            &rt,
        );
    }
    both_move(pair, &[event(0, Action::Leave)], &rt);
    both_move(pair, &[event(1, Action::Adopt(0))], &rt);
    remove_both(pair, 1, &rt);
    both_move(
        pair,
        &[
            event(1, Action::PutSlot(slot(0))),
            event(1, Action::Tie),
            event(1, Action::Leave),
        ],
        &rt,
    );
    both_move(
        pair,
        &[
            event(2, Action::Adopt(0)),
            event(2, Action::ReadPage(PAGE)),
            event(2, Action::Take(PAGE)),
            event(2, Action::Follow(PAGE)),
            event(2, Action::Follow(PAGE)),
            event(2, Action::Follow(PAGE)),
            event(2, Action::SetClass(PAGE, 0)),
        ],
        &rt,
    );
    has_words(&pair.world, [(0, 1)], &rt);
}

// How often memory was refused for a heap; if it was not, the heap opens.
fn opens_or_not(alloc: Global, rt: &impl Abort) -> u32 {
    match World::<Tiny>::new(alloc, small(rt)) {
        Ok(world) => {
            agree(rt, world.words().len(), 1562);
            has_words(&world, [(1558, 0)], rt);
            agree(rt, world.parts().len(), 3);
            0
        }
        Err(refusal) => {
            agree(rt, refusal, Refusal::Memory);
            1
        }
    }
}

// At most one of the heaps is refused, and the others open.
#[test]
fn a_heap_refused_for_memory_does_not_open(rt: HostRuntime) {
    let mut refused = 0u32;
    for _ in 0..3 {
        refused = refused.saturating_add(opens_or_not(rt.alloc(), &rt));
    }
    agree(&rt, refused.max(1), 1);
}

// How often memory was refused for a run of these events; if it was not, the run ends with a held value.
fn runs_or_not(alloc: Global, events: &[Event], rt: &impl Abort) -> u32 {
    match run::<Tiny>(alloc, small(rt), events) {
        Ok(world) => {
            has_words(&world, [(3, 5368709121)], rt);
            agree(rt, world.log().len(), 2);
            0
        }
        Err(refusal) => {
            agree(rt, refusal, Refusal::Memory);
            1
        }
    }
}

// At most one of the runs is refused, and the others end as usual.
#[test]
fn a_run_refused_for_memory_is_refused(rt: HostRuntime) {
    let events = [
        event(0, Action::Adopt(0)),
        event(0, Action::ReadPage(PAGE)),
        event(0, Action::SetClass(PAGE, 7)),
        event(0, Action::FillSlot(slot(0), value(&[5], &rt))),
        event(0, Action::Fill),
        event(0, Action::Publish),
        event(1, Action::EnterGet(4096)),
        event(1, Action::ReadClass(4096)),
        event(0, Action::Arm(PAGE)),
    ];
    let mut refused = 0u32;
    for _ in 0..3 {
        refused = refused.saturating_add(runs_or_not(rt.alloc(), &events, &rt));
    }
    agree(&rt, refused.max(1), 1);
}
