// Inserting a value: at the front page of its class if that has a slot, and otherwise wherever the shard has room.
ghost use Rattle.std.specs.Prelude.{◌≡◌, ℕ, ◌+◌, ◌<◌, ◌≤◌, length, Some, MatchOption, IfSome, slice_get, true};
ghost use Rattle.sh_shape.specs.Classes.{width};
ghost use Rattle.sh_queue.specs.Numbers.{has_number};
ghost use Rattle.sh_queue.specs.Queues.{class_queue};
ghost use Rattle.sh_shard.specs.Slots.{SameSlots};
ghost use Rattle.sh_shard.specs.Pages.{page_at, lists_at, NothingMine, NamesSlot, PageInserts, UsesFirst, TakesSteps};
ghost use Rattle.sh_shard.specs.Shards.{SortedPages, InsertServes, IsQuick, DoneIn, StaysOwner, value_class};
ghost use Rattle.sh_shard.specs.Bounds.{InsertIsBounded};
ghost use Rattle.sh_shard.specs.Finding.{StoresAtFront, InsertsElsewhere};

use crate::shard::ShardOn;
use sh_key::KeyLayout;
use sh_pass::KeepsHeap;
use sh_shape::classes;
use sh_value::{Refusal, Value};

impl<L: KeyLayout, H: KeepsHeap<L>> ShardOn<L, H> {
    /// Stores a value in the shard under a new key, and returns the key. Refused as `Full` if the shard has no room for
    /// a value of its class: each page of the class and the bell were looked at in this call. Refused as `Memory` if
    /// the growth of a segment was refused. A refusal leaves the log, the holds and the keys as they were.
    ///
    /// If the front page of the class has a slot, the number of steps is that of the value's words, and two more.
    /// Whatever others do, it ends within 9 n + w + 53 steps, for n pages of the shard and w words.
    pub fn insert(&mut self, value: &Value) -> Result<u64, Refusal>
        ensures serves { InsertServes L.layout (value_class value.now) value.now self.old result self.new }
        ensures quick { IsQuick (value_class value.now) self.old → DoneIn (length value.now + 2) self.old result
            self.new }
        ensures bounded { InsertIsBounded (length value.now) self.old self.new }
        ensures stays { StaysOwner L.layout self.old self.new }
    {
        let Some(class) = classes::class_of(value.words().len()) else {
            unreachable!()
        };
        let _known = self.standing();
        let answer = self.insert_in(class, value);
        let _known = self.standing();
        answer
    }

    // Stores a value of the class, and returns its key.
    pub(crate) fn insert_in(&mut self, c: u32, value: &Value) -> Result<u64, Refusal>
        requires class { c < 8 }
        requires fits { length value.now ≤ width c }
        ensures serves { InsertServes L.layout c value.now self.old result self.new }
        ensures quick { IsQuick c self.old → DoneIn (length value.now + 2) self.old result self.new }
        ensures bounded { InsertIsBounded (length value.now) self.old self.new }
    {
        if let Some(key) = self.use_at_front(c, value) {
            return Ok(key);
        }
        self.insert_slowly(c, value)
    }

    // The same if the front page has no slot: tries the class's pages, the bell, and then another page for the class.
    fn insert_slowly(&mut self, c: u32, value: &Value) -> Result<u64, Refusal>
        requires class { c < 8 }
        requires fits { length value.now ≤ width c }
        ensures serves { InsertServes L.layout c value.now self.old result self.new }
        ensures bounded { InsertIsBounded (length value.now) self.old self.new }
    {
        if let Some(key) = self.search_twice(c, value) {
            return Ok(key);
        }
        self.insert_in_another(c, value)
    }

    // Gives another page the class, and stores the value there.
    fn insert_in_another(&mut self, c: u32, value: &Value) -> Result<u64, Refusal>
        requires class { c < 8 }
        requires fits { length value.now ≤ width c }
        ensures inserts { InsertsElsewhere L.layout c value.now self.old result self.new }
        ensures sorted { SortedPages self.old.pages self.old.queues }
    {
        match self.give_page(c) {
            Err(refusal) => Err(refusal),
            Ok(_page) => match self.use_at_front(c, value) {
                Some(key) => Ok(key),
                None => unreachable!(),
            },
        }
    }

    // Uses a slot of the front page of the class, if it has one.
    fn use_at_front(&mut self, c: u32, value: &Value) -> Option<u64>
        requires class { c < 8 }
        requires fits { length value.now ≤ width c }
        ensures used { MatchOption result
            ((self.new ≡ self.old) × ((p : ℕ) → slice_get (class_queue self.old.queues c) 0 ≡ Some p
            → NothingMine (page_at self.old.pages p)))
            (λ key. StoresAtFront L.layout c key value.now self.old self.new) }
        ensures steps { IfSome result (λ _. TakesSteps (length value.now + 2) self.old.pages self.new.pages) }
    {
        let Some(page) = self.queues.front(c) else {
            return None;
        };
        self.use_page(c, page, value)
    }

    // Uses a slot of a page of the class, if it has one.
    fn use_page(&mut self, c: u32, page: u32, value: &Value) -> Option<u64>
        requires here { has_number page (class_queue self.old.queues c) ≡ true }
        requires inside { page < self.old.queues.opened }
        requires fits { length value.now ≤ width c }
        ensures used { MatchOption result ((self.new ≡ self.old) × NothingMine (page_at self.old.pages page))
            (λ key. PageInserts page value.now key self.old.pages self.new.pages) }
        ensures key { IfSome result (λ key. NamesSlot L.layout page key self.old.pages) }
        ensures first { IfSome result (λ key. UsesFirst L.layout (SameSlots (lists_at self.old.pages page)) page key
            self.old.pages self.new.pages) }
        ensures queues { self.new.queues ≡ self.old.queues }
        ensures steps { IfSome result (λ _. TakesSteps (length value.now + 2) self.old.pages self.new.pages) }
    {
        self.pages.use_slot(page as u64, value)
    }
}
