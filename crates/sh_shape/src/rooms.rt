//! The size of a heap with room for values.
ghost use Rattle.std.specs.Prelude.{◌≡◌, ℕ, ◌*◌, ◌≤◌, MatchResult};
ghost use Rattle.sh_shape.specs.Shape.{segment_pages};
ghost use Rattle.sh_shape.specs.Places.{slot_places};
ghost use Rattle.sh_shape.specs.Rooms.{IsLeastRoomy, NoneRoomy};

use crate::Shape;
use crate::classes::{class_of, slots};
use crate::places::SEGMENT_PAGES;
use crate::shape::{MOST_SEGMENTS, fits};
use sh_key::KeyLayout;
use sh_value::Refusal;

impl Shape {
    /// The least large shape of the layout with a shard for each of `owners`, and this many passes. Each shard has room
    /// for this many values of this many words, from 0 to 16. A slot may be wider than the value, and the last segment
    /// may have slots to spare.
    ///
    /// `BadShape` if no large shape of the layout has the room. So also if there is no owner or no pass, if there are
    /// more than 64 passes, or if a value has more than 16 words.
    ///
    /// ```text
    /// let shape = Shape::with_room::<Wide>(4, 10_000, 1, 8)?; // 10,000 values of a word for each of 4 owners
    /// assert_eq!(shape.segments(), 27); // of 384 slots each
    /// ```
    pub fn with_room<L: KeyLayout>(
        owners: u32,
        values: u64,
        words: usize,
        passes: u32,
    ) -> Result<Shape, Refusal>
        ensures { MatchResult result (IsLeastRoomy L.layout owners values words passes)
            (λ refusal. (refusal ≡ Refusal.BadShape) × NoneRoomy L.layout owners values words passes) }
    {
        let Some(class) = class_of(words) else {
            return Err(Refusal::BadShape);
        };
        let segments = segments_for(values, slots(class));
        if segments > MOST_SEGMENTS {
            return Err(Refusal::BadShape);
        }
        let Ok(shape) = Self::large(owners, segments as u32, passes) else {
            return Err(Refusal::BadShape);
        };
        if fits::<L>(&shape) {
            Ok(shape)
        } else {
            Err(Refusal::BadShape)
        }
    }
}

// The least number of segments, at least one, whose pages of `slots` slots each have room for these values.
fn segments_for(values: u64, slots: u32) -> u64
    requires some { 1 ≤ slots }
    requires few { slots ≤ slot_places }
    ensures some { 1 ≤ result }
    ensures room { values ≤ segment_pages * result * slots }
    ensures least { (n : ℕ) → 1 ≤ n → values ≤ segment_pages * n * slots → result ≤ n }
{
    let room = SEGMENT_PAGES as u64 * slots as u64;
    values.div_ceil(room).max(1)
}
