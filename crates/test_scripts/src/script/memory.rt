use super::events::is_event;
use crate::assertions::{agree, holds};
use sh_script::{Call, Calls, Events, Fault, Reference, parse_calls, parse_events};
use sh_step::{Action, SlotName};
use sh_value::Value;
use std::alloc::Global;
use std::process::Abort;

// With `rt try --test --fail-alloc N` the N-th allocation is refused. Each list of a script outgrows a room of 4, 8 and
// 16. The lists are the words of a line, those of a value, the names, the map of them, and the lines.

const CALLS: &[u8] = b"heap tiny 1 1 1\n\
    0 insert a 0 1 2 3 4 5 6 7 8 9 10 11 12 13 14 15 16\n\
    0 insert b\n0 insert c\n0 insert d\n0 insert e\n0 insert f\n0 insert g\n0 insert h\n0 insert i\n\
    0 insert j\n0 insert k\n0 insert l\n0 insert m\n0 insert n\n0 insert o\n0 insert p\n0 insert q\n\
    0 post r\n0 wait r\n0 get q\n";

// The words of the first name's value.
const WORDS: &[u64] = &[0, 1, 2, 3, 4, 5, 6, 7, 8, 9, 10, 11, 12, 13, 14, 15, 16];

// Whether a call is as the line of this number says, counted from the header.
fn is_as_written(call: &Call, at: usize) -> bool {
    match call {
        Call::Insert(words) if at == 0 => words.as_slice() == WORDS,
        Call::Insert(words) => at <= 16 && words.as_slice().is_empty(),
        Call::Post => at == 17,
        Call::Wait(name) => at == 18 && *name == 17,
        Call::Get(key) => at == 19 && *key == Reference::Name(16),
        _ => false,
    }
}

// Asserts that the script was read as it is written.
fn has_calls(rt: &impl Abort, calls: &Calls) {
    agree(rt, calls.header.shape.passes(), 1);
    agree(rt, calls.lines.len(), 20);
    for (at, line) in calls.lines.iter().enumerate() {
        holds(rt, line.pass == 0 && is_as_written(&line.call, at));
    }
}

// The script, which is read once more if memory was refused.
fn calls_of(alloc: Global) -> Result<Calls, Fault> {
    match parse_calls(alloc, CALLS) {
        Err(Fault::Memory) => parse_calls(alloc, CALLS),
        answer => answer,
    }
}

#[test]
fn refused_memory_is_a_fault_of_calls(rt: HostRuntime) {
    let calls = calls_of(rt.alloc()).expect(&rt, "it is a script");
    has_calls(&rt, &calls);
}

const EVENTS: &[u8] = b"version 2\nheap tagged 1 1 1 tag 5\n\
    0 Fill 0.0.0 0 1 2 3 4 5 6 7 8 9 10 11 12 13 14 15\n\
    0 Fill\n0 Fill\n0 Fill\n0 Fill\n0 Fill\n0 Fill\n0 Fill\n0 Fill\n\
    0 Fill\n0 Fill\n0 Fill\n0 Fill\n0 Fill\n0 Fill\n0 Fill\n0 Fill\n0 Publish\n";

const SLOT: SlotName = SlotName {
    shard: 0,
    page: 0,
    slot: 0,
};

// What the line of this number does, counted from the header.
fn written(value: Value, at: usize) -> Action {
    match at {
        0 => Action::FillSlot(SLOT, value),
        17 => Action::Publish,
        _ => Action::Fill,
    }
}

// Asserts that the script was read as it is written.
fn has_events(rt: &impl Abort, events: &Events) {
    let words = [0, 1, 2, 3, 4, 5, 6, 7, 8, 9, 10, 11, 12, 13, 14, 15];
    agree(rt, events.header.tag, Some(5));
    agree(rt, events.lines.len(), 18);
    for (at, line) in events.lines.iter().enumerate() {
        let value = Value::new(&words).expect(rt, "16 words fit");
        holds(rt, is_event(line, 0, &written(value, at)));
    }
}

// The script, which is read once more if memory was refused.
fn events_of(alloc: Global) -> Result<Events, Fault> {
    match parse_events(alloc, EVENTS) {
        Err(Fault::Memory) => parse_events(alloc, EVENTS),
        answer => answer,
    }
}

#[test]
fn refused_memory_is_a_fault_of_events(rt: HostRuntime) {
    let events = events_of(rt.alloc()).expect(&rt, "it is a script");
    has_events(&rt, &events);
}
