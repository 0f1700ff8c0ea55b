//! How much an exploration may still take.
ghost use Rattle.std.specs.Prelude.{◌≡◌, ◌+◌, length};
ghost use Rattle.script_orders.specs.Bytes.{limit_passed};

use crate::found::{Limit, Whole};
use crate::level::Level;

/// What may be met of states after one further step, and taken by all that is kept.
#[derive(Clone, Copy)]
pub struct Room {
    /// How many states may be met.
    pub states: u64,
    /// How many bytes may be taken.
    pub bytes: u64,
}

impl Room {
    /// The limit that these states pass, with those before them and what was found; none if there is room.
    pub fn passed(self, level: &Level, next: &Level, whole: &Whole) -> Option<Limit>
        ensures { result ≡ limit_passed self (length next.now.states.items)
            (level.now.bytes + next.now.bytes + whole.now.bytes) }
    {
        if next.states.len() as u64 > self.states {
            return Some(Limit::States);
        }
        let bytes = level
            .bytes
            .saturating_add(next.bytes)
            .saturating_add(whole.bytes);
        if bytes > self.bytes {
            Some(Limit::Bytes)
        } else {
            None
        }
    }
}
