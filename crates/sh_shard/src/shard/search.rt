// Looking for a slot in the pages of a class, and in what others freed there.
ghost use Rattle.std.specs.Prelude.{◌≡◌, ℕ, ◌+◌, ◌*◌, ◌<◌, ◌≤◌, length, MatchOption, IfSome, Ok, true};
ghost use Rattle.sh_queue.specs.Numbers.{has_number};
ghost use Rattle.sh_queue.specs.Queues.{class_queue};
ghost use Rattle.sh_shape.specs.Classes.{width};
ghost use Rattle.sh_shard.specs.Slots.{OwnFirst};
ghost use Rattle.sh_shard.specs.Pages.{page_at, lists_at, SameLists, NothingMine, WorksOn, PageDone, PageInserts};
ghost use Rattle.sh_shard.specs.Pages.{NamesSlot, UsesFirst};
ghost use Rattle.sh_shard.specs.Shards.{InsertServes};
ghost use Rattle.sh_shard.specs.Steps.{StepsAtMost};
ghost use Rattle.sh_shard.specs.Bounds.{InsertIsBounded};
ghost use Rattle.sh_shard.specs.Finding.{StoresInQueue};
ghost use Rattle.sh_shard.specs.Searches.{SetsAside, Searched, Tried};

use crate::shard::ShardOn;
use sh_key::KeyLayout;
use sh_pass::KeepsHeap;
use sh_value::Value;

impl<L: KeyLayout, H: KeepsHeap<L>> ShardOn<L, H> {
    // The search, the bell, and the search again if a page of the class was read from the bell.
    pub(crate) fn search_twice(&mut self, c: u32, value: &Value) -> Option<u64>
        requires class { c < 8 }
        requires fits { length value.now ≤ width c }
        ensures looked { MatchOption result (Tried c self.old self.new)
            (λ key. InsertServes L.layout c value.now self.old (Ok key) self.new) }
        ensures steps { IfSome result (λ _. InsertIsBounded (length value.now) self.old self.new) }
    {
        if let Some(key) = self.search(c, value) {
            return Some(key);
        }
        if !self.ring_out(c) {
            return None;
        }
        self.search(c, value)
    }

    // Tries each page in the queue of the class once, from the front.
    fn search(&mut self, c: u32, value: &Value) -> Option<u64>
        requires class { c < 8 }
        requires fits { length value.now ≤ width c }
        ensures searched { MatchOption result (Searched c self.old self.new)
            (λ key. StoresInQueue L.layout c key value.now self.old self.new) }
        ensures steps { IfSome result (λ _. StepsAtMost (4 * self.old.pages.count + length value.now + 50)
            self.old.pages.owner self.new.pages.owner) }
    {
        let opened = self.queues.opened();
        let Some(last) = self.queues.last(c) else {
            return None;
        };
        for _turn in 0..opened {
            let Some(page) = self.queues.front(c) else {
                return None;
            };
            if let Some(key) = self.try_page(c, page, value) {
                return Some(key);
            }
            self.set_aside(c, page);
            if page == last {
                return None;
            }
        }
        None
    }

    // Tries one page of the class's queue.
    fn try_page(&mut self, c: u32, page: u32, value: &Value) -> Option<u64>
        requires here { has_number page (class_queue self.old.queues c) ≡ true }
        requires inside { page < self.old.queues.opened }
        requires fits { length value.now ≤ width c }
        ensures queues { self.new.queues ≡ self.old.queues }
        ensures tried { MatchOption result (WorksOn page self.old.pages self.new.pages
            × PageDone self.old.pages self.new.pages page) (λ key. PageInserts page value.now key self.old.pages
            self.new.pages) }
        ensures key { IfSome result (λ key. NamesSlot L.layout page key self.old.pages) }
        ensures first { MatchOption result (SameLists self.old.pages self.new.pages)
            (λ key. UsesFirst L.layout (OwnFirst (lists_at self.old.pages page)) page key self.old.pages
            self.new.pages) }
        ensures steps { MatchOption result (StepsAtMost 4 self.old.pages.owner self.new.pages.owner)
            (λ _. StepsAtMost (length value.now + 54) self.old.pages.owner self.new.pages.owner) }
    {
        self.pages.try_page(page as u64, value)
    }

    // After a try in vain: a page whose cursor waits goes to the back, a page without a cursor to the full queue.
    fn set_aside(&mut self, c: u32, page: u32)
        requires class { c < 8 }
        requires here { has_number page (class_queue self.old.queues c) ≡ true }
        requires inside { page < self.old.queues.opened }
        requires nothing { NothingMine (page_at self.old.pages page) }
        requires waits { MatchOption (page_at self.old.pages page).cursor ((page_at self.old.pages page).armed ≡ true)
            (λ _. Unit {0}) }
        ensures { SetsAside c page self.old self.new }
    {
        if self.pages.has_cursor(page as u64) {
            self.queues.to_back(c, page);
        } else {
            self.queues.to_full(page);
        }
    }
}
