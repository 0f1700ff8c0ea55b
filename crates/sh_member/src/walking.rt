//! Walks over the live keys of a heap, by any reader, while others insert and remove.
ghost use Rattle.std.specs.Prelude.{◌+◌, ◌*◌, ◌<◌};
ghost use Rattle.sh_shape.specs.Places.{all_pages, slot_places};
ghost use Rattle.sh_pass.specs.Remaining.{Remains};
ghost use Rattle.sh_member.specs.Walks.{NextHeldDoes, NextLiveDoes, PutsLive};

use crate::reader::Reader;
use sh_pass::{Glance, NextKey};
use sh_value::{Hold, Refusal, Value};

/// A live key with its value, and the place at which to continue.
#[derive(Debug, PartialEq, Eq, Drop)]
pub struct NextLive {
    /// The key.
    pub key: u64,
    /// Its value.
    pub value: Value,
    /// The place after that of its slot: the next call continues there.
    pub behind: u64,
}

/// A live key that is held, and the place at which to continue.
#[derive(Clone, Copy, Debug, PartialEq, Eq)]
pub struct NextHeld {
    /// The key.
    pub key: u64,
    /// A hold on it; none if the key has as many holds as it may have.
    pub hold: Option<Hold>,
    /// The place after that of its slot: the next call continues there.
    pub behind: u64,
}

// The live key at a place: a peek finds which it is, and a look reads its value into the caller's.
fn live_at<R: Reader>(reader: &mut R, place: u64, value: &mut Value) -> Option<NextKey>
    requires { place < all_pages (R.caller reader.old).heap.shape * slot_places }
    ensures does { PutsLive (λ met. NextLiveDoes R.layout place (place + 1) (R.caller reader.old) met
        (R.caller reader.new)) value.old result value.new }
    ensures remains { Remains R.layout (R.caller reader.old) (R.caller reader.new) }
{
    let Some(key) = reader.peek_at(place) else {
        return None;
    };
    match reader.glance(key, value) {
        Ok(Glance::Seen) => Some(NextKey {
            key,
            behind: place + 1,
        }),
        Ok(Glance::Gone) => None,
        Ok(Glance::Early) => None,
        Err(_) => None,
    }
}

/// The first live key at a place from `from` on and before `before`, whose value replaces the caller's. If there is
/// none, the caller's value is as it was. No hold is left behind.
pub fn next_live_into<R: Reader>(
    reader: &mut R,
    from: u64,
    before: u64,
    value: &mut Value,
) -> Option<NextKey>
    ensures does { PutsLive (λ met. NextLiveDoes R.layout from before (R.caller reader.old) met (R.caller reader.new))
        value.old result value.new }
    ensures remains { Remains R.layout (R.caller reader.old) (R.caller reader.new) }
{
    for place in from..before.min(reader.heap_places()) {
        if let Some(next) = live_at(reader, place, value) {
            return Some(next);
        }
    }
    None
}

/// The same with the value of the key.
pub fn next_live<R: Reader>(reader: &mut R, from: u64, before: u64) -> Option<NextLive>
    ensures does { NextLiveDoes R.layout from before (R.caller reader.old) result (R.caller reader.new) }
    ensures remains { Remains R.layout (R.caller reader.old) (R.caller reader.new) }
{
    // (The initial value has one word, as most values have: reading a value of one word into it is one store.)
    let mut value = Value::from(0);
    let NextKey { key, behind } = next_live_into(reader, from, before, &mut value)?;
    Some(NextLive { key, value, behind })
}

// A hold on the live key at a place: a peek finds which it is.
fn held_at<R: Reader>(reader: &mut R, place: u64) -> Result<Option<NextHeld>, Refusal>
    requires { place < all_pages (R.caller reader.old).heap.shape * slot_places }
    ensures does { NextHeldDoes R.layout place (place + 1) (R.caller reader.old) result (R.caller reader.new) }
    ensures remains { Remains R.layout (R.caller reader.old) (R.caller reader.new) }
{
    let Some(key) = reader.peek_at(place) else {
        return Ok(None);
    };
    let behind = place + 1;
    match reader.get(key) {
        Ok(hold) => Ok(Some(NextHeld {
            key,
            hold: Some(hold),
            behind,
        })),
        Err(refusal) => match refusal {
            Refusal::Crowded => Ok(Some(NextHeld {
                key,
                hold: None,
                behind,
            })),
            Refusal::Gone => Ok(None),
            _ => Err(refusal),
        },
    }
}

/// The first live key at a place from `from` on and before `before`, with a hold on it.
pub fn next_held<R: Reader>(
    reader: &mut R,
    from: u64,
    before: u64,
) -> Result<Option<NextHeld>, Refusal>
    ensures does { NextHeldDoes R.layout from before (R.caller reader.old) result (R.caller reader.new) }
    ensures remains { Remains R.layout (R.caller reader.old) (R.caller reader.new) }
{
    for place in from..before.min(reader.heap_places()) {
        if let Some(next) = held_at(reader, place)? {
            return Ok(Some(next));
        }
    }
    Ok(None)
}
