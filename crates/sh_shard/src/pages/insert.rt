// Using the slots of a page.
ghost use Rattle.std.specs.Prelude.{◌≡◌, ℕ, ◌+◌, ◌-◌, ◌<◌, ◌≤◌, ◌⊎◌, length, Some, MatchOption, MatchBool, IfSome};
ghost use Rattle.std.specs.Prelude.{true};
ghost use Rattle.sh_shape.specs.Classes.{width};
ghost use Rattle.sh_shard.specs.Pages.{page_at, seen_class, WorksOn, PageDone, NothingMine, WhollyMine, PageInserts};
ghost use Rattle.sh_shard.specs.Pages.{TakesSteps, StepsForSlots, GivesClass, NamesSlot};
ghost use Rattle.sh_shard.specs.Pages.{UsesFirst, SameLists, lists_at};
ghost use Rattle.sh_shard.specs.Slots.{SameSlots, OwnFirst};
ghost use Rattle.sh_shard.specs.Steps.{StepsAtMost};

use crate::pages::PagesOn;
use sh_key::KeyLayout;
use sh_pass::KeepsHeap;
use sh_step::PageName;
use sh_value::Value;

impl<L: KeyLayout, H: KeepsHeap<L>> PagesOn<L, H> {
    /// Stores the value in a slot of the page, if one is the owner's. Returns its key.
    pub(crate) fn use_slot(&mut self, page: u64, value: &Value) -> Option<u64>
        requires inside { page < self.old.count }
        requires classed { 0 < seen_class (page_at self.old page) }
        requires fits { length value.now ≤ width (seen_class (page_at self.old page) - 1) }
        ensures used { MatchOption result ((self.new ≡ self.old) × NothingMine (page_at self.old page))
            (λ key. PageInserts page value.now key self.old self.new) }
        ensures key { IfSome result (λ key. NamesSlot L.layout page key self.old) }
        ensures first { IfSome result (λ key. UsesFirst L.layout (SameSlots (lists_at self.old page)) page key self.old
            self.new) }
        ensures steps { IfSome result (λ _. TakesSteps (length value.now + 2) self.old self.new) }
    {
        let name = PageName {
            shard: self.shard,
            page,
        };
        let class_word = self.states.class_word(page);
        let slot = self.states.next_slot(page)?;
        Some(self.owner.insert_at(name, slot as u64, value, class_word))
    }

    /// Tries one page: its slots that are the owner's, then what was put on it, then what was put until it was armed.
    /// Returns the key under which the value is, if it found a slot.
    pub(crate) fn try_page(&mut self, page: u64, value: &Value) -> Option<u64>
        requires inside { page < self.old.count }
        requires classed { 0 < seen_class (page_at self.old page) }
        requires fits { length value.now ≤ width (seen_class (page_at self.old page) - 1) }
        ensures tried { MatchOption result (WorksOn page self.old self.new × PageDone self.old self.new page)
            (λ key. PageInserts page value.now key self.old self.new) }
        ensures key { IfSome result (λ key. NamesSlot L.layout page key self.old) }
        ensures first { MatchOption result (SameLists self.old self.new)
            (λ key. UsesFirst L.layout (OwnFirst (lists_at self.old page)) page key self.old self.new) }
        ensures steps { MatchOption result (StepsAtMost 4 self.old.owner self.new.owner)
            (λ _. StepsAtMost (length value.now + 54) self.old.owner self.new.owner) }
    {
        if !self.find_slot(page) {
            return None;
        }
        self.use_slot(page, value)
    }

    // Whether the owner has a slot of the page. If it has none, it collects the page and looks again. If there is still
    // none, it arms the page and looks a last time.
    fn find_slot(&mut self, page: u64) -> bool
        requires inside { page < self.old.count }
        requires classed { 0 < seen_class (page_at self.old page) }
        ensures works { WorksOn page self.old self.new }
        ensures found { MatchBool result ((s : ℕ) × ((page_at self.new page).mine s ≡ true))
            (PageDone self.old self.new page) }
        ensures lists { MatchBool result (OwnFirst (lists_at self.old page) (lists_at self.new page))
            (SameSlots (lists_at self.old page) (lists_at self.new page)) }
        ensures steps { StepsForSlots 4 page self.old self.new }
    {
        if self.has_slot(page) {
            return true;
        }
        self.collect(page);
        if self.has_slot(page) {
            return true;
        }
        self.arm_and_follow(page);
        self.has_slot(page)
    }

    /// Gives the class to a page that is blank, or all of whose class's slots are the owner's. Then all slots of the
    /// new class are the owner's.
    pub(crate) fn give_class(&mut self, page: u64, class: u32)
        requires inside { page < self.old.count }
        requires may { ((page_at self.old page).class ≡ Some 0) ⊎ WhollyMine (page_at self.old page) }
        requires class { class < 8 }
        ensures { GivesClass page class self.old self.new }
    {
        let name = PageName {
            shard: self.shard,
            page,
        };
        self.owner.set_class(name, class);
        self.states.give_class(page, class);
    }
}
