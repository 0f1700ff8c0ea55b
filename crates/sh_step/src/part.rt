//! What a pass has of its own, as it is kept.
ghost use Rattle.std.specs.Prelude.{◌≡◌, ◌<◌, ◌≤◌, ◌==◌, [], None, length, is_none, nat_lt, ◌&&◌};
ghost use Rattle.sh_shape.specs.Places.{slot_places};
ghost use Rattle.sh_slots.specs.Slots.{same_slot, slot_refs};
ghost use Rattle.sh_slots.specs.declared.hand.Hand.TheVariants.{Idle};
ghost use Rattle.sh_step.specs.Collections.{has, noted, every};
ghost use Rattle.sh_step.specs.Rows.{idle, class_word_noted, no_cursor, all_mine};

mod apply;
mod in_hand;
mod keyed;
mod lists;
mod looking;
mod notes;
mod own_slots;
mod owners;
mod paged;
mod run;
mod runs;
mod slotted;

use crate::part::lists::{has_number, value_noted};
use crate::part::notes::Notes;
use crate::part::own_slots::OwnSlots;
use sh_slots::{Hand, SlotRef};
use sh_value::HOLDS_MAX;
use std::alloc::Global;
use std::collections::VecDeque;
use std::marker::Model;

/// A pass's own part, as it is kept: lists newest first. A contract sees its body.
#[derive(Drop)]
pub struct Part {
    hand: Hand,
    holds: VecDeque<u64>,
    class_words: Notes,
    lengths: Notes,
    contents: VecDeque<(u64, u64, u64)>,
    owned: Option<u64>,
    classes: Notes,
    mine: OwnSlots,
    cursors: VecDeque<(u64, u64)>,
    armed: VecDeque<u64>,
    bell_cursor: Option<u64>,
}

impl Model for Part {
    ghost use Rattle.sh_step.specs.declared.body.Body.{Body};

    ghost Value = { Body };

    ghost view = { λ p. record {
      hand = p.hand;
      holds = p.holds.items;
      class_words = p.class_words;
      lengths = p.lengths;
      contents = p.contents.items;
      owned = p.owned;
      classes = p.classes;
      mine = p.mine;
      cursors = p.cursors.items;
      armed = p.armed.items;
      bell_cursor = p.bell_cursor;
    } };
}

impl Part {
    /// The part of a pass that has done nothing yet.
    pub fn new(alloc: Global) -> Part
        ensures { result ≡ record {
          hand = Idle;
          holds = [];
          class_words = [];
          lengths = [];
          contents = [];
          owned = None;
          classes = [];
          mine = [];
          cursors = [];
          armed = [];
          bell_cursor = None;
        } }
    {
        Part {
            hand: Hand::Idle,
            holds: VecDeque::new(alloc),
            class_words: Notes::new(alloc),
            lengths: Notes::new(alloc),
            contents: VecDeque::new(alloc),
            owned: None,
            classes: Notes::new(alloc),
            mine: OwnSlots::new(alloc),
            cursors: VecDeque::new(alloc),
            armed: VecDeque::new(alloc),
            bell_cursor: None,
        }
    }

    /// What it has begun.
    pub fn hand(&self) -> &Hand
        ensures { result.now ≡ self.now.hand }
    {
        &self.hand
    }

    /// The shard that it owns.
    pub fn owned(&self) -> Option<u64>
        ensures { result ≡ self.now.owned }
    {
        self.owned
    }

    /// The page of its shard's bell whose link it is to follow next.
    pub fn bell_cursor(&self) -> Option<u64>
        ensures { result ≡ self.now.bell_cursor }
    {
        self.bell_cursor
    }

    /// Whether it has nothing begun.
    pub fn is_idle(&self) -> bool
        ensures { result ≡ idle self.now }
    {
        match self.hand {
            Hand::Idle => true,
            _ => false,
        }
    }

    /// How many holds it has.
    pub fn hold_count(&self) -> usize
        ensures { result ≡ length self.now.holds }
    {
        self.holds.len()
    }

    /// Whether it has a hold on the key.
    pub fn has_hold(&self, key: u64) -> bool
        ensures { result ≡ has (λ j. j == key) self.now.holds }
    {
        has_number(&self.holds, key)
    }

    /// Whether it may enter a slot to get a key: it has begun nothing and has fewer than 16 holds.
    pub fn may_get(&self) -> bool
        ensures { result ≡ (idle self.now && nat_lt (length self.now.holds) 16) }
    {
        self.is_idle() && self.hold_count() < HOLDS_MAX
    }

    /// Whether it may read or drop what it has of the key: it has begun nothing and has a hold on the key.
    pub fn may_use(&self, key: u64) -> bool
        ensures { result ≡ (idle self.now && has (λ j. j == key) self.now.holds) }
    {
        self.is_idle() && self.has_hold(key)
    }

    /// Whether it may read the word with that number of the key's value, which has this length.
    pub fn may_read(&self, key: u64, i: u64, length: u64) -> bool
        ensures { result ≡ (idle self.now && has (λ j. j == key) self.now.holds && nat_lt i length) }
    {
        self.may_use(key) && i < length
    }

    /// The class word of the page of a key that it holds, if it read it.
    pub fn class_word_of(&self, key: u64) -> Option<u64>
        ensures { result ≡ noted key self.now.class_words }
    {
        self.class_words.of(key)
    }

    /// The length of the value of a key that it holds, if it read it.
    pub fn length_of(&self, key: u64) -> Option<u64>
        ensures { result ≡ noted key self.now.lengths }
    {
        self.lengths.of(key)
    }

    /// The class word of a page of its shard, if it read or stored it.
    pub fn class_noted(&self, page: u64) -> Option<u64>
        ensures { result ≡ noted page self.now.classes }
    {
        self.classes.of(page)
    }

    /// The class word of a page of its shard, or 0 if it knows none.
    pub fn class_word(&self, page: u64) -> u64
        ensures { result ≡ class_word_noted self.now page }
    {
        match self.class_noted(page) {
            Some(word) => word,
            None => 0,
        }
    }

    /// The slot of the page whose link it is to follow next.
    pub fn cursor(&self, page: u64) -> Option<u64>
        ensures { result ≡ noted page self.now.cursors }
    {
        value_noted(&self.cursors, page)
    }

    /// Whether it has no link of the page to follow.
    pub fn has_no_cursor(&self, page: u64) -> bool
        ensures { result ≡ no_cursor self.now page }
    {
        self.cursor(page).is_none()
    }

    /// Whether it armed the page.
    pub fn has_armed(&self, page: u64) -> bool
        ensures { result ≡ has (λ x. x == page) self.now.armed }
    {
        has_number(&self.armed, page)
    }

    /// Whether the empty slot is its own to fill.
    pub fn has_mine(&self, slot_ref: SlotRef) -> bool
        ensures { result ≡ has (same_slot slot_ref) self.now.mine }
    {
        self.mine.has(slot_ref)
    }

    /// Whether the first `count` slots of a page are its own to fill.
    pub fn has_all_mine(&self, page: u64, count: u64) -> bool
        requires { count ≤ slot_places }
        ensures { result ≡ every (λ x. has (same_slot x) self.now.mine) (slot_refs page 0 count) }
    {
        self.mine.has_first(page, count)
    }

    /// Whether it has nothing of its shard: no slot to fill, no link to follow and no armed page.
    pub fn has_nothing_of_shard(&self) -> bool
        ensures { result ≡ ((length self.now.mine == 0) && (length self.now.cursors == 0) &&
            (length self.now.armed == 0) && is_none self.now.bell_cursor) }
    {
        self.mine.is_empty()
            && self.cursors.is_empty()
            && self.armed.is_empty()
            && self.bell_cursor.is_none()
    }
}
