//! Walks of the model: its slots in the order in which they were filled first.
use crate::rounds::defect::Defect;
use crate::rounds::model::{Model, Slot};
use tool_rounds::user::Met;

// Whether a walk meets the slot.
fn is_met(defect: Defect, slot: &Slot) -> bool {
    slot.is_live && (defect != Defect::PassedOver || slot.generation == 1)
}

// What a walk meets in the slot at this place.
fn met(defect: Defect, slot: &Slot, place: u64) -> Met {
    let behind = match defect {
        Defect::StaysBehind if slot.generation > 1 => place,
        _ => place.wrapping_add(1),
    };
    Met {
        key: slot.key,
        value: slot.value.copy(),
        behind,
    }
}

impl Model {
    /// The first live key at a place from this one on.
    pub fn next_live(&self, from: u64) -> Option<Met> {
        for (place, slot) in self.slots.iter().enumerate() {
            if place as u64 >= from && is_met(self.defect, slot) {
                return Some(met(self.defect, slot, place as u64));
            }
        }
        None
    }
}
