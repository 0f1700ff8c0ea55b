// Leaving the shard: what others put is collected, what the owner has is put back, and the shard is given up.
ghost use Rattle.std.specs.Prelude.{◌≡◌, ℕ, ◌<◌, ◌≤◌, ◌⊎◌, None, MatchBool, MatchResult, true, false};
ghost use Rattle.sh_pass.specs.Owners.{HasNothing, heap_page as number_of};
ghost use Rattle.sh_shard.specs.Works.{BellDone};
ghost use Rattle.sh_shard.specs.Leaving.{LeaveDoes, Collecting, BellFollowed, EmptiesPage, PagesEmptied};
ghost use Rattle.sh_shard.specs.Leaving.{AtRest, AllAtRest, NotAtRest, PutsOne, PutsBack, PutsAllBack};
ghost use Rattle.sh_shard.specs.Pages.{page_at, shard_page, BlankFrom, HasCursor, NothingMine, ShardLeft};
ghost use Rattle.sh_shard.specs.Pages.{StepsForRings};
ghost use Rattle.sh_shard.specs.Steps.{StepsAtMost};
ghost use Rattle.sh_shard.specs.Bounds.{leave_steps};

use crate::pages::PagesOn;
use sh_bell::{is_armed, top_of};
use sh_key::KeyLayout;
use sh_pass::KeepsHeap;
use sh_pass::pass::PassOn;
use sh_slots::SlotRef;
use sh_stack::link_over;
use sh_step::PageName;

impl<L: KeyLayout, H: KeepsHeap<L>> PagesOn<L, H> {
    // Follows the bell to its end or to a link that is not written.
    fn follow_rings(&mut self)
        ensures { BellFollowed self.old self.new }
    {
        let count = self.count();
        for _turn in 0..count + 1 {
            let Some(_page) = self.follow_bell() else {
                return;
            };
        }
    }

    /// Follows the bell, takes it if it is at its end, and follows.
    pub(crate) fn empty_bell(&mut self)
        ensures through { Collecting self.old self.new }
        ensures bell { BellDone self.old self.new }
        ensures steps { StepsForRings 3 self.old self.new }
    {
        self.follow_rings();
        if self.has_rings() {
            return;
        }
        self.take_bell();
        self.follow_rings();
    }

    // Follows the page's cursor; if it then has none and is still armed, takes what was put, and follows.
    fn empty_page(&mut self, page: u64)
        requires { page < self.old.count }
        ensures { EmptiesPage page self.old self.new }
    {
        self.follow_all(page);
        if self.has_cursor(page) {
            return;
        }
        if !self.is_armed(page) {
            return;
        }
        self.take(page);
        self.follow_all(page);
    }

    // Empties each page, in ascending order. The pages from `opened` on are blank, and need nothing.
    fn empty_pages(&mut self, opened: u64)
        requires few { opened ≤ self.old.count }
        requires later { BlankFrom opened self.old }
        ensures { PagesEmptied self.old self.new }
    {
        for page in 0..opened {
            self.empty_page(page);
        }
        let _known = self.blank_pages();
    }

    // Whether the page has no cursor and is not armed.
    fn rests(&self, page: u64) -> bool
        requires { page < self.now.count }
        ensures { MatchBool result (AtRest (page_at self.now page))
            (HasCursor (page_at self.now page).cursor ⊎ (((page_at self.now page).cursor ≡ None)
            × ((page_at self.now page).armed ≡ true))) }
    {
        if self.has_cursor(page) {
            return false;
        }
        !self.is_armed(page)
    }

    // Whether the bell has no cursor, and no page has one or is armed. The pages from `opened` on are blank.
    fn is_at_rest(&self, opened: u64) -> bool
        requires few { opened ≤ self.now.count }
        requires later { BlankFrom opened self.now }
        ensures { MatchBool result (AllAtRest self.now) (NotAtRest self.now) }
    {
        if self.has_rings() {
            return false;
        }
        for page in 0..opened {
            if !self.rests(page) {
                return false;
            }
        }
        let _known = self.blank_pages();
        true
    }

    // The number of a page over the whole heap.
    fn heap_page(&self, page: u64) -> u64
        requires { page < self.now.count }
        ensures { result ≡ number_of self.now.owner (shard_page self.now.shard page) }
    {
        self.shard * self.states.len() + page
    }

    // Two steps: puts the next slot of the lists on the page's stack. False if there is none.
    fn put_next(&mut self, page: u64) -> bool
        requires inside { page < self.old.count }
        requires calm { (page_at self.old page).armed ≡ false }
        ensures { MatchBool result (PutsOne page self.old self.new)
            ((self.new ≡ self.old) × NothingMine (page_at self.old page)) }
    {
        let name = PageName {
            shard: self.shard,
            page,
        };
        let number = self.heap_page(page);
        let Some(slot) = self.states.next_slot(page) else {
            return false;
        };
        let slot = slot as u64;
        let head = self.owner.put_slot(name, slot);
        let slot_ref = SlotRef { page: number, slot };
        self.owner
            .tie(slot_ref, link_over(top_of(head)), is_armed(head));
        true
    }

    // Puts each slot of the lists on the page's stack: those of `free`, and then those of `local`, front to back.
    fn put_back(&mut self, page: u64)
        requires inside { page < self.old.count }
        requires calm { (page_at self.old page).armed ≡ false }
        ensures { PutsBack page self.old self.new }
    {
        for _turn in 0..49u64 {
            if !self.put_next(page) {
                return;
            }
        }
    }

    // Puts the slots of each page back, in ascending order. The pages from `opened` on are blank, and have none.
    fn put_all_back(&mut self, opened: u64)
        requires few { opened ≤ self.old.count }
        requires later { BlankFrom opened self.old }
        requires rest { AllAtRest self.old }
        ensures { PutsAllBack self.old self.new }
    {
        let _known = self.blank_pages();
        for page in 0..opened {
            self.put_back(page);
        }
    }

    /// Gives up the shard, in which the owner has nothing.
    pub(crate) fn give_up(self) -> PassOn<L, H>
        requires pages { (p : ℕ) → p < self.count → HasNothing (page_at self p) }
        requires bell { self.bell.cursor ≡ None }
        ensures left { ShardLeft self.owner result }
        ensures steps { StepsAtMost 1 self.owner result }
    {
        let PagesOn {
            mut owner,
            shard,
            rings: _,
            states: _,
        } = self;
        owner.leave(shard);
        owner.into_pass()
    }

    /// Leaves the shard. The bell is followed, taken and followed; cursors are followed; each page that is still armed
    /// and has no cursor is taken and followed. If a cursor or an armed page is left then, others have yet to end what
    /// they began: nothing is put, and the pages are returned. Otherwise the owner's slots are put on their pages, and
    /// the shard is given up. The pages from `opened` on are blank, and are not looked at.
    pub(crate) fn leave(mut self, opened: u64) -> Result<PassOn<L, H>, Self>
        requires few { opened ≤ self.count }
        requires later { BlankFrom opened self }
        ensures does { LeaveDoes self result }
        ensures steps { MatchResult result (λ v. StepsAtMost (leave_steps self.count) self.owner v)
            (λ n. StepsAtMost (leave_steps self.count) self.owner n.owner) }
    {
        self.empty_bell();
        self.empty_pages(opened);
        if !self.is_at_rest(opened) {
            return Err(self);
        }
        self.put_all_back(opened);
        Ok(self.give_up())
    }
}
