//! Ends all calls, and finds every slot again.
use crate::always::assert_always;
use crate::pages::{Page, pages, state_at};
use sh_core::{Outcome, World};
use sh_history::Entry;
use sh_key::Tiny;
use sh_shape::SLOT_PLACES;
use sh_slots::Hand;
use sh_step::operands::is_read;
use sh_step::{Action, Event};
use sh_value::{HOLDS_MAX, Refusal, Value};
use std::alloc::{AllocError, Global};
use std::process::Abort;
use std::test::Fail;

// The greatest number of steps that end the call of a pass: a value has at most 16 words.
const HAND_STEPS: u32 = 20;

// The action that a pass with this hand must do next.
fn due(hand: &Hand) -> Option<Action> {
    match hand {
        Hand::Idle => None,
        Hand::Removing(_) => Some(Action::Mark),
        Hand::Leaving(_) => Some(Action::Drop),
        Hand::Finishing(_, _, _) => Some(Action::Finish),
        Hand::ToPut(_) => Some(Action::Put),
        Hand::Tying(_, _, _) => Some(Action::Tie),
        Hand::Ringing(_) => Some(Action::Ring),
        Hand::RingTying(_, _) => Some(Action::RingTie),
        Hand::Filling(_, value, filled) => {
            if *filled < value.words().len() as u64 {
                Some(Action::Fill)
            } else {
                Some(Action::Publish)
            }
        }
        Hand::Looking(_, name, sight) => {
            if is_read(*name, sight) {
                Some(Action::LookAgain)
            } else {
                Some(Action::LookOn)
            }
        }
    }
}

// Lets the pass do the action, and returns whether its condition held.
fn does(world: &mut World<Tiny>, pass: u32, action: Action) -> Result<bool, Refusal> {
    Ok(world.step(&Event { pass, action })? != Outcome::Skipped)
}

// Lets the pass end what it has begun.
fn end_hand(world: &mut World<Tiny>, pass: u32) -> Result<(), Refusal> {
    for _ in 0..HAND_STEPS {
        let Some(part) = world.parts().get(pass as usize) else {
            return Ok(());
        };
        let Some(action) = due(part.hand()) else {
            return Ok(());
        };
        does(world, pass, action)?;
    }
    Ok(())
}

// Lets the pass release all its holds on the key.
fn release(world: &mut World<Tiny>, pass: u32, key: u64) -> Result<(), Refusal> {
    for _ in 0..HOLDS_MAX {
        if !does(world, pass, Action::DropHold(key))? {
            return Ok(());
        }
        end_hand(world, pass)?;
    }
    Ok(())
}

// The keys that were inserted.
fn keys(alloc: Global, world: &World<Tiny>) -> Result<Vec<u64>, AllocError> {
    let mut keys = Vec::new(alloc);
    for entry in world.log() {
        if let Entry::Insert(_, key, _) = entry {
            keys.push(*key)?;
        }
    }
    Ok(keys)
}

// Lets the pass release all its holds on these keys.
fn release_all(world: &mut World<Tiny>, pass: u32, keys: &[u64]) -> Result<(), Refusal> {
    for key in keys {
        release(world, pass, *key)?;
    }
    Ok(())
}

// The pass that owns the shard, if one does.
fn owner(world: &World<Tiny>, shard: u32) -> Option<u32> {
    for pass in 0..world.shape().passes() {
        let part = world.parts().get(pass as usize)?;
        if part.owned() == Some(u64::from(shard)) {
            return Some(pass);
        }
    }
    None
}

// Lets the first pass without a shard adopt the shard, if nobody owns it.
fn adopt(world: &mut World<Tiny>, shard: u32) -> Result<(), Refusal> {
    for pass in 0..world.shape().passes() {
        if owner(world, shard).is_none() {
            does(world, pass, Action::Adopt(u64::from(shard)))?;
        }
    }
    Ok(())
}

// Lets the pass follow the page's cursor to the end.
fn follow(world: &mut World<Tiny>, pass: u32, page: &Page) -> Result<(), Refusal> {
    for _ in 0..SLOT_PLACES {
        does(world, pass, Action::Follow(page.name()))?;
    }
    Ok(())
}

// Lets the owner collect all that was put on the page.
fn collect(world: &mut World<Tiny>, pass: u32, page: &Page) -> Result<(), Refusal> {
    does(world, pass, Action::ReadPage(page.name()))?;
    follow(world, pass, page)?;
    does(world, pass, Action::Take(page.name()))?;
    follow(world, pass, page)
}

// Lets the owner follow the bell's cursor to the end.
fn follow_bell(world: &mut World<Tiny>, pass: u32) -> Result<(), Refusal> {
    for _ in 0..world.shape().pages() {
        does(world, pass, Action::FollowBell)?;
    }
    Ok(())
}

// Lets the owner collect all that was put on its bell.
fn answer(world: &mut World<Tiny>, pass: u32) -> Result<(), Refusal> {
    follow_bell(world, pass)?;
    does(world, pass, Action::TakeBell)?;
    follow_bell(world, pass)
}

// Lets the owner fill each slot of the page that is its own.
fn fill(world: &mut World<Tiny>, pass: u32, page: &Page) -> Result<(), Refusal> {
    for slot in 0..page.slots {
        let value = Value::new(&[])?;
        does(world, pass, Action::FillSlot(page.slot(slot), value))?;
        end_hand(world, pass)?;
    }
    Ok(())
}

// Asserts that no pass is on a slot of the page, and that each slot of its class has a value or is retired.
fn assert_found(rt: &impl Abort, world: &World<Tiny>, page: &Page) {
    for slot in 0..SLOT_PLACES {
        let state = state_at(world, page.shard, page.page, slot).expect(rt, "it is a slot");
        assert_eq!(rt; state.count, 0, "slot {slot}");
    }
    let accounts = page.accounts;
    let found = accounts.live.saturating_add(accounts.retired);
    assert_eq!(rt; found, page.slots, "{accounts:?}");
}

// Lets the owner of a page's shard collect the page and fill the slots that it found.
fn use_page(rt: &impl Abort, world: &mut World<Tiny>, page: &Page) -> Result<(), Refusal> {
    adopt(world, page.shard)?;
    let pass = owner(world, page.shard).expect(rt, "a shard that was left can be adopted");
    collect(world, pass, page)?;
    answer(world, pass)?;
    fill(world, pass, page)
}

// Asserts that the pass can leave, if it owns a shard.
fn assert_leaves(rt: &impl Abort, world: &mut World<Tiny>, pass: u32) -> Result<(), Refusal> {
    let part = world
        .parts()
        .get(pass as usize)
        .expect(rt, "each pass has a part");
    if part.owned().is_some() {
        assert!(rt; does(world, pass, Action::Leave)?, "the owner can leave");
    }
    Ok(())
}

/// Asserts that no slot is lost. Each pass ends what it has begun and releases its holds. The owner collects each page
/// and fills each slot of its own. Then each slot has one value or is retired, and the owners can leave.
pub fn assert_settles(rt: &impl Abort, alloc: Global, mut world: World<Tiny>) -> Result<(), Fail> {
    let keys = keys(alloc, &world)?;
    for pass in 0..world.shape().passes() {
        end_hand(&mut world, pass)?;
        release_all(&mut world, pass, keys.as_slice())?;
    }
    for page in &pages(alloc, &world)? {
        use_page(rt, &mut world, page)?;
    }
    assert_always(rt, alloc, &world)?;
    for page in &pages(alloc, &world)? {
        assert_found(rt, &world, page);
    }
    for pass in 0..world.shape().passes() {
        assert_leaves(rt, &mut world, pass)?;
    }
    Ok(())
}
