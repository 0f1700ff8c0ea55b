//! Pages with a class.
use sh_accounts::page;
use sh_core::{Accounts, World};
use sh_key::{KeyLayout, Tiny};
use sh_shape::{CLASS_COUNT, SLOT_PLACES, slots};
use sh_step::{PageName, SlotName};
use sh_word::State;
use std::alloc::{AllocError, Global};

/// A page with a class.
#[derive(Clone, Copy)]
pub struct Page {
    /// Its shard.
    pub shard: u32,
    /// Its number there.
    pub page: u32,
    /// The numbers of its slots by kind.
    pub accounts: Accounts,
    /// The number of slots of its class.
    pub slots: u32,
}

impl Page {
    /// Its name.
    pub fn name(&self) -> PageName {
        PageName {
            shard: u64::from(self.shard),
            page: u64::from(self.page),
        }
    }

    /// The name of one of its slots.
    pub fn slot(&self, slot: u32) -> SlotName {
        SlotName {
            shard: u64::from(self.shard),
            page: u64::from(self.page),
            slot: u64::from(slot),
        }
    }
}

// The page, if it has a class.
fn page_at(world: &World<Tiny>, shard: u32, number: u32) -> Option<Page> {
    let accounts = page(world, shard, number)?;
    match accounts.class {
        Some(class) if u64::from(class) < CLASS_COUNT => Some(Page {
            shard,
            page: number,
            accounts,
            slots: slots(class),
        }),
        _ => None,
    }
}

// Adds the pages of the shard that have a class.
fn push_pages(pages: &mut Vec<Page>, world: &World<Tiny>, shard: u32) -> Result<(), AllocError> {
    for number in 0..world.shape().pages() {
        if let Some(page) = page_at(world, shard, number) {
            pages.push(page)?;
        }
    }
    Ok(())
}

/// All pages of the heap that have a class.
pub fn pages(alloc: Global, world: &World<Tiny>) -> Result<Vec<Page>, AllocError> {
    let mut pages = Vec::new(alloc);
    for shard in 0..world.shape().shards() {
        push_pages(&mut pages, world, shard)?;
    }
    Ok(pages)
}

/// The state of a slot of the heap.
pub fn state_at(world: &World<Tiny>, shard: u32, page: u32, slot: u32) -> Option<State> {
    let shape = world.shape();
    if shard >= shape.shards() || page >= shape.pages() || slot >= SLOT_PLACES {
        return None;
    }
    let word = world.words().get(shape.state_at(shard, page, slot))?;
    Some(State::of(*word))
}

/// The state of the slot that a key names.
pub fn state_of(world: &World<Tiny>, key: u64) -> Option<State> {
    let parts = Tiny::unpack(key)?;
    state_at(world, parts.shard, parts.page, parts.slot)
}
