//! Looks of the model: a load of the slot's word, the value, and the word again.
use crate::rounds::defect::Defect;
use crate::rounds::model::{Model, Slot, key_of};
use sh_key::{KeyLayout, Tiny};
use sh_value::{Refusal, Value};

// What a word says of a key of its slot.
#[derive(Clone, Copy, Debug, PartialEq, Eq)]
enum Word {
    // The key is yet to be inserted.
    Before,
    Live,
    // The key was removed.
    Past,
}

impl Slot {
    // Loads the word, and returns what it says of this slot's key. The first load after an insert or a removal returns
    // the word from before that, as a load may if nothing orders it.
    fn load(&mut self) -> Word {
        let lags = !self.is_loaded;
        self.is_loaded = true;
        match (self.is_live, lags) {
            (true, true) => Word::Before,
            (true, false) | (false, true) => Word::Live,
            (false, false) => Word::Past,
        }
    }
}

impl Model {
    // Loads the word of the slot at this place.
    fn load(&mut self, place: usize) -> Word {
        match self.slots.get_mut(place) {
            Some(slot) => slot.load(),
            None => Word::Before,
        }
    }

    // The second load of a look.
    fn load_again(&mut self, place: usize) -> Word {
        match self.defect {
            Defect::LooksOnce => Word::Live,
            Defect::LooksElsewhere => self.load(place.wrapping_add(1)),
            _ => self.load(place),
        }
    }

    // The value of the slot at this place, if its word is live after the value was read.
    fn seen(&mut self, place: usize) -> Result<Value, Refusal> {
        let value = self.read_at(place)?;
        match self.load_again(place) {
            Word::Live => Ok(value),
            Word::Before | Word::Past => Err(Refusal::Gone),
        }
    }

    // The place of the slot that has the key before this one.
    fn place_before(&self, key: u64) -> Option<usize> {
        self.slots.iter().position(|slot| {
            let next = slot.generation.saturating_add(1);
            key_of(slot.page, slot.number, next) == Some(key)
        })
    }

    // The place of the slot that a look at this key loads.
    fn place_to_look_at(&self, key: u64) -> Option<usize> {
        let place = self.place_of(key);
        if self.defect == Defect::SeenBeforeInsert {
            place.or(self.place_before(key))
        } else {
            place
        }
    }

    /// The value of a key, by a look. If its first load is from before the insert of the key, the look goes on as a
    /// get.
    pub fn look(&mut self, key: u64) -> Result<Value, Refusal> {
        self.calls = self.calls.saturating_add(1);
        if Tiny::unpack(key).is_none() {
            return Err(Refusal::BadKey);
        }
        let place = self.place_to_look_at(key).ok_or(Refusal::Gone)?;
        match self.load(place) {
            Word::Before if self.defect != Defect::GoneBeforeInsert => self.get_and_read(key),
            Word::Before | Word::Past => Err(Refusal::Gone),
            Word::Live => self.seen(place),
        }
    }
}
