//! A heap of one shard, as a list of slots, with a defect if one is asked for.
mod ending;
mod looking;
mod walking;

use crate::rounds::defect::Defect;
use sh_core::Accounts;
use sh_key::{KeyLayout, Parts, Tiny};
use sh_shape::{CLASS_COUNT, class_of, slots};
use sh_value::{Hold, Refusal, Value};
use std::alloc::Global;
use tool_judge::pattern;

// The pages of a shard of one segment.
const PAGES: usize = 8;

// For how many calls a key is new, and a removal has just been.
const SOON: u64 = 20;

// A slot that was filled. Its value stays until it is filled again.
#[derive(Drop)]
struct Slot {
    key: u64,
    generation: u32,
    page: u32,
    number: u32,
    value: Value,
    is_live: bool,
    was_got: bool,
    // Whether a look loaded its word since its value was inserted or removed.
    is_loaded: bool,
    holds: u32,
    reads: u64,
    // The number of the call that filled it, or that removed its value.
    since: u64,
}

impl Slot {
    // Whether it can be filled again.
    fn is_free(&self) -> bool {
        !self.is_live && self.holds == 0 && self.generation < Tiny::GEN_MAX
    }
}

// The number of slots of a page of this class.
fn slots_of(class: u32) -> u32 {
    if u64::from(class) < CLASS_COUNT {
        slots(class)
    } else {
        0
    }
}

// The key of a place of the shard, if it is within the layout.
fn key_of(page: u32, slot: u32, generation: u32) -> Option<u64> {
    let parts = Parts {
        generation,
        shard: 0,
        page,
        slot,
    };
    if !Tiny::in_range(parts) {
        return None;
    }
    Some(Tiny::pack(parts))
}

/// A heap of one shard of eight pages, with keys of the layout `Tiny`.
#[derive(Drop)]
pub struct Model {
    defect: Defect,
    classes: Vec<u32>,
    slots: Vec<Slot>,
    is_owned: bool,
    // The number of the call that adopted the shard last.
    adopted: u64,
    calls: u64,
    // The place of the slot whose key the last get, removal or release ended.
    ended: Option<usize>,
}

impl Model {
    /// An empty heap.
    pub fn new(alloc: Global, defect: Defect) -> Model {
        Model {
            defect,
            classes: Vec::new(alloc),
            slots: Vec::new(alloc),
            is_owned: false,
            adopted: 0,
            calls: 0,
            ended: None,
        }
    }

    // The place of the slot that a key names.
    fn place_of(&self, key: u64) -> Option<usize> {
        self.slots.iter().position(|slot| slot.key == key)
    }

    // The answer to a get that found this slot, without a defect.
    fn sound_get(slot: &mut Slot) -> Result<(), Refusal> {
        if !slot.is_live {
            return Err(Refusal::Gone);
        }
        if slot.holds >= Tiny::GUARD_MAX {
            return Err(Refusal::Crowded);
        }
        slot.holds = slot.holds.saturating_add(1);
        Ok(())
    }

    // The answer to a get that found this slot.
    fn got(defect: Defect, now: u64, slot: &mut Slot) -> Result<(), Refusal> {
        let is_soon = now.saturating_sub(slot.since) < SOON;
        let is_first = !slot.was_got;
        slot.was_got = true;
        match defect {
            Defect::Lost if slot.is_live => {
                slot.is_live = false;
                Err(Refusal::Gone)
            }
            Defect::LateGone if slot.is_live && is_first && is_soon => Err(Refusal::Gone),
            Defect::GotAfterRemoval if !slot.is_live && is_soon => {
                slot.holds = slot.holds.saturating_add(1);
                Ok(())
            }
            Defect::Crowded if slot.is_live && slot.holds == 0 => Err(Refusal::Crowded),
            _ => Model::sound_get(slot),
        }
    }

    /// Takes a hold on a key.
    pub fn get(&mut self, key: u64) -> Result<Hold, Refusal> {
        self.calls = self.calls.saturating_add(1);
        self.ended = None;
        if Tiny::unpack(key).is_none() {
            return Err(Refusal::BadKey);
        }
        let place = self.place_of(key).ok_or(Refusal::Gone)?;
        let slot = self.slots.get_mut(place).ok_or(Refusal::Gone)?;
        if self.defect == Defect::EndsTwice && !slot.is_live && slot.holds == 0 {
            self.ended = Some(place);
        }
        Model::got(self.defect, self.calls, slot)?;
        Ok(Hold { key })
    }

    // The value that a read of the slot returns.
    fn value_read(defect: Defect, slot: &Slot) -> Value {
        let words = slot.value.words();
        match (defect, words.first()) {
            (Defect::Torn, Some(first)) if words.len() > 1 => Value::of([*first, *first]),
            (Defect::Changing, Some(first)) => {
                pattern::value(first.wrapping_add(slot.reads), words.len().min(16))
            }
            _ => slot.value.copy(),
        }
    }

    /// The value of a key that is held.
    pub fn read(&mut self, key: u64) -> Result<Value, Refusal> {
        self.calls = self.calls.saturating_add(1);
        let place = self.place_of(key).ok_or(Refusal::NotHeld)?;
        self.read_at(place)
    }

    // The value of the slot at this place.
    fn read_at(&mut self, place: usize) -> Result<Value, Refusal> {
        let slot = self.slots.get_mut(place).ok_or(Refusal::NotHeld)?;
        slot.reads = slot.reads.wrapping_add(1);
        Ok(Model::value_read(self.defect, slot))
    }

    /// The value of a key, by a get, a read and a release.
    pub fn get_and_read(&mut self, key: u64) -> Result<Value, Refusal> {
        self.get(key)?;
        let value = self.read(key)?;
        if self.defect != Defect::ReadKeepsHold {
            self.release(key)?;
        }
        Ok(value)
    }

    /// Removes a key.
    pub fn remove(&mut self, key: u64) -> Result<(), Refusal> {
        self.calls = self.calls.saturating_add(1);
        self.ended = None;
        let place = self.place_of(key).ok_or(Refusal::Gone)?;
        let slot = self.slots.get_mut(place).ok_or(Refusal::Gone)?;
        if !slot.is_live && self.defect != Defect::TwoRemovers {
            return Err(Refusal::Gone);
        }
        slot.is_live = false;
        slot.is_loaded = false;
        slot.since = self.calls;
        if slot.holds == 0 || self.defect == Defect::EndsWhileHeld {
            self.ended = Some(place);
        }
        Ok(())
    }

    /// Whether a get of the key would find its value.
    pub fn is_live(&self, key: u64) -> bool {
        self.slots
            .iter()
            .any(|slot| slot.key == key && slot.is_live)
    }

    /// Counts one more on the slot of a key, so that it is not filled again.
    pub fn enter(&mut self, key: u64) {
        if let Some(place) = self.place_of(key) {
            if let Some(slot) = self.slots.get_mut(place) {
                slot.holds = slot.holds.saturating_add(1);
            }
        }
    }

    /// Releases a hold, or what `enter` counted.
    pub fn release(&mut self, key: u64) -> Result<(), Refusal> {
        self.calls = self.calls.saturating_add(1);
        self.ended = None;
        let place = self.place_of(key).ok_or(Refusal::NotHeld)?;
        let slot = self.slots.get_mut(place).ok_or(Refusal::NotHeld)?;
        slot.holds = slot.holds.saturating_sub(1);
        if !slot.is_live && slot.holds == 0 && self.defect != Defect::EndsWhileHeld {
            self.ended = Some(place);
        }
        Ok(())
    }

    /// Adopts the shard.
    pub fn adopt(&mut self, shard: u64) -> Result<(), Refusal> {
        if shard != 0 {
            return Err(Refusal::NoShard);
        }
        if self.is_owned {
            return Err(Refusal::Taken);
        }
        self.is_owned = true;
        self.adopted = self.calls;
        Ok(())
    }

    /// Leaves the shard.
    pub fn leave(&mut self) -> Result<(), Refusal> {
        if self.defect == Defect::Waiting {
            return Err(Refusal::Waiting);
        }
        self.is_owned = false;
        Ok(())
    }

    // How many slots of a page were filled.
    fn filled(&self, page: u32) -> u32 {
        let count = self.slots.iter().filter(|slot| slot.page == page).count();
        u32::try_from(count).unwrap_or(u32::MAX)
    }

    // A page of this class with a slot that was never filled: one that has the class, or a blank one.
    fn page_with_room(&mut self, class: u32) -> Result<u32, Refusal> {
        let pages = u32::try_from(self.classes.len()).unwrap_or(u32::MAX);
        for page in 0..pages {
            if self.classes.get(page as usize) == Some(&class)
                && self.filled(page) < slots_of(class)
            {
                return Ok(page);
            }
        }
        self.prepare(class)
    }

    /// Gives a blank page this class.
    pub fn prepare(&mut self, class: u32) -> Result<u32, Refusal> {
        let most = if self.defect == Defect::FullEarly {
            PAGES - 1
        } else {
            PAGES
        };
        if self.classes.len() >= most {
            return Err(Refusal::Full);
        }
        let page = u32::try_from(self.classes.len()).unwrap_or(u32::MAX);
        self.classes.push(class)?;
        Ok(page)
    }

    // Fills a slot for the first time.
    fn fill(&mut self, page: u32, value: &Value) -> Result<u64, Refusal> {
        let number = self.filled(page);
        let key = key_of(page, number, 1).ok_or(Refusal::Full)?;
        let slot = Slot {
            key,
            generation: 1,
            page,
            number,
            value: value.copy(),
            is_live: true,
            was_got: false,
            is_loaded: false,
            holds: 0,
            reads: 0,
            since: self.calls,
        };
        self.slots.push(slot)?;
        Ok(key)
    }

    // Fills a free slot again.
    fn refill(&mut self, place: usize, value: &Value) -> Result<u64, Refusal> {
        let now = self.calls;
        let defect = self.defect;
        let slot = self.slots.get_mut(place).ok_or(Refusal::Full)?;
        if defect != Defect::KeyUsedAgain {
            slot.generation = slot.generation.saturating_add(1);
            slot.key = key_of(slot.page, slot.number, slot.generation).ok_or(Refusal::Full)?;
        }
        slot.value = value.copy();
        slot.is_live = true;
        slot.was_got = false;
        slot.is_loaded = false;
        slot.reads = 0;
        slot.since = now;
        Ok(slot.key)
    }

    // The place of a free slot of this class.
    fn free_slot(&self, class: u32) -> Option<usize> {
        self.slots.iter().position(|slot| {
            slot.is_free()
                && self.classes.get(slot.page as usize) == Some(&class)
                && (self.defect != Defect::LostRing || slot.since <= self.adopted)
        })
    }

    /// Stores a value.
    pub fn insert(&mut self, value: &Value) -> Result<u64, Refusal> {
        self.calls = self.calls.saturating_add(1);
        let class = class_of(value.words().len()).ok_or(Refusal::TooLong)?;
        if let Some(place) = self.free_slot(class) {
            return self.refill(place, value);
        }
        let page = self.page_with_room(class)?;
        self.fill(page, value)
    }

    // The accounts of a page of this class.
    fn accounts_of(&self, page: u32, class: u32) -> Accounts {
        let own = self.slots.iter().filter(|slot| slot.page == page);
        let (mut live, mut marked, mut retired) = (0u32, 0u32, 0u32);
        for slot in own {
            if slot.is_live {
                live = live.saturating_add(1);
            } else if slot.holds > 0 {
                marked = marked.saturating_add(1);
            } else if slot.generation == Tiny::GEN_MAX {
                retired = retired.saturating_add(1);
            }
        }
        let known = live.saturating_add(marked).saturating_add(retired);
        let more = if self.defect == Defect::WrongSums {
            1
        } else {
            0
        };
        Accounts {
            class: Some(class),
            live: live.saturating_add(more),
            marked,
            retired,
            mine: 0,
            hand: 0,
            queued: slots_of(class).saturating_sub(known).saturating_sub(more),
        }
    }

    /// The accounts of a page, if there is one.
    pub fn accounts(&self, shard: u32, page: u32) -> Option<Accounts> {
        if shard != 0 || page as usize >= PAGES {
            return None;
        }
        match self.classes.get(page as usize) {
            Some(class) => Some(self.accounts_of(page, *class)),
            None => Some(Accounts {
                class: None,
                live: 0,
                marked: 0,
                retired: 0,
                mine: 0,
                hand: 0,
                queued: 0,
            }),
        }
    }
}
