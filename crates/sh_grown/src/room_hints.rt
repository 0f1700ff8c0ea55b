//! Where inserts found room last: a word of the heap for each class of values, which its callers share. It says where
//! the next walk begins, and nothing else depends on it, so it may be out of date.
ghost use Rattle.std.specs.Prelude.{◌≤◌};

use crate::caller::Caller;
use crate::growing::Growing;
use sh_shape::class_of;
use sh_value::Value;
use std::sync::atomic::{AtomicU64, Ordering};

// How many classes there are.
const CLASSES: usize = 8;

// The low bits of a word, which have the number of the chunk.
const CHUNK_BITS: u32 = 8;

const CHUNK: u64 = 0xff;

/// Where walks begin.
#[derive(Drop)]
pub(crate) struct RoomHints {
    // For each class the chunk in which a walk found room last, and the number behind its shard there.
    rooms: [AtomicU64; CLASSES],
}

fn word() -> AtomicU64 {
    AtomicU64::new(0)
}

fn class_in(value: &Value) -> usize {
    match class_of(value.words().len()) {
        Some(class) => class as usize,
        None => 0,
    }
}

impl RoomHints {
    // A walk begins in the first shard of the first chunk.
    pub(crate) fn new() -> RoomHints {
        RoomHints {
            rooms: [
                word(),
                word(),
                word(),
                word(),
                word(),
                word(),
                word(),
                word(),
            ],
        }
    }

    fn last_room(&self, class: usize) -> (u8, usize) {
        let Some(room) = self.rooms.get(class) else {
            return (0, 0);
        };
        let word = room.load(Ordering::SeqCst);
        ((word & CHUNK) as u8, (word >> CHUNK_BITS) as usize)
    }

    fn set_last_room(&self, class: usize, chunk: u8, next: usize) {
        if let Some(room) = self.rooms.get(class) {
            room.store((next as u64) << CHUNK_BITS | chunk as u64, Ordering::SeqCst);
        }
    }

    // A chunk was opened, which has room for each class.
    fn set_opened(&self, chunk: u8) {
        for class in 0..CLASSES {
            self.set_last_room(class, chunk, 0);
        }
    }
}

impl Growing {
    // Whether this chunk is open.
    pub(crate) fn is_open(&self, chunk: usize) -> bool {
        match self.note(chunk) {
            Some(mut note) => self.seen(chunk, &mut note).is_some(),
            None => false,
        }
    }

    // A chunk was found open by an insert that wanted it. If it was not open before, it has room for each class.
    pub(crate) fn note_opened(&self, chunk: u8, was_open: bool) {
        if !was_open {
            self.hints.set_opened(chunk);
        }
    }
}

impl Caller {
    // The chunk in which its walk begins: that in which a walk of any caller found room last for a value of the class.
    pub(crate) fn first_chunk(&self, value: &Value) -> u8 {
        let (chunk, _) = self.growing.heap().hints.last_room(class_in(value));
        chunk
    }

    // Which of this many shards of a chunk it tries first: in the chunk in which room was found last that behind the
    // shard there, and elsewhere that of its own number.
    pub(crate) fn first_shard(&self, chunk: u8, shards: usize, value: &Value) -> usize
        ensures few { result ≤ shards }
    {
        if shards == 0 {
            return 0;
        }
        let (last, next) = self.growing.heap().hints.last_room(class_in(value));
        if last == chunk {
            next % shards
        } else {
            self.number % shards
        }
    }

    // Its walk found room for the value in this chunk, in the shard before this number.
    pub(crate) fn note_room(&self, chunk: u8, next: usize, value: &Value) {
        let hints = &self.growing.heap().hints;
        hints.set_last_room(class_in(value), chunk, next);
    }
}
