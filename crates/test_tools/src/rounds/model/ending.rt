//! The ends of keys of the model: what a call reports of the key that it ended.
use crate::rounds::defect::Defect;
use crate::rounds::model::{Model, key_of};
use sh_value::Value;

impl Model {
    // The place of the slot whose value's words are told, if the key of the slot at this place has ended.
    fn place_told(&self, place: usize) -> usize {
        let next = place.wrapping_add(1);
        if self.defect == Defect::EndsAsNext && next < self.slots.len() {
            next
        } else {
            place
        }
    }

    // The key that is told, if the key of the slot at this place has ended.
    fn key_told(&self, place: usize) -> Option<u64> {
        let slot = self.slots.get(place)?;
        match self.defect {
            Defect::EndsUntold => None,
            Defect::EndsAnother => key_of(
                slot.page,
                slot.number,
                slot.generation.saturating_add(1),
            ),
            _ => Some(slot.key),
        }
    }

    /// Whether the last call ended a key.
    pub fn has_ended(&self) -> bool {
        self.ended.is_some()
    }

    /// The key that the last call ended, whose value's words are then in `words`.
    pub fn told(&self, words: &mut Value) -> Option<u64> {
        let place = self.ended?;
        let key = self.key_told(place)?;
        *words = self.slots.get(self.place_told(place))?.value.copy();
        Some(key)
    }
}
