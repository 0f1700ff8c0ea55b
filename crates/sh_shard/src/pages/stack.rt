// Collecting what others put on a page's stack.
ghost use Rattle.std.specs.Prelude.{◌≡◌, ℕ, ◌<◌, None, IfSome, MatchBool, false, true, cond};
ghost use Rattle.sh_bell.specs.Bell.{is_armed as armed_by};
ghost use Rattle.sh_shape.specs.Places.{slot_places};
ghost use Rattle.sh_shard.specs.Pages.{page_at, seen_class, WorksOn, NoArming, TakesPage, CursorMoves, CursorStops};
ghost use Rattle.sh_shard.specs.Pages.{CollectsPage, ArmsAndFollows, StepsForSlots};

use crate::pages::PagesOn;
use sh_bell::{is_armed, top_of};
use sh_key::KeyLayout;
use sh_pass::KeepsHeap;
use sh_stack::{link_item, top_item};
use sh_step::PageName;

// The slot that a head or a link names, as a number of the lists.
fn slot_number(slot: Option<u64>) -> Option<u32>
    requires { IfSome slot (λ s. s < slot_places) }
    ensures { result ≡ slot }
{
    match slot {
        Some(slot) => Some(slot as u32),
        None => None,
    }
}

// Whether a page stays armed, by the head word that a take found.
fn still_armed(armed: bool, found: u64) -> bool
    ensures { result ≡ cond (armed_by found) false armed }
{
    if is_armed(found) { false } else { armed }
}

impl<L: KeyLayout, H: KeepsHeap<L>> PagesOn<L, H> {
    /// One step: what was put on the page becomes its cursor.
    pub(crate) fn take(&mut self, page: u64)
        requires inside { page < self.old.count }
        requires classed { 0 < seen_class (page_at self.old page) }
        requires none { (page_at self.old page).cursor ≡ None }
        ensures { TakesPage page self.old self.new }
    {
        let name = PageName {
            shard: self.shard,
            page,
        };
        let found = self.owner.take(name);
        let cursor = slot_number(top_item(top_of(found)));
        let armed = still_armed(self.states.is_armed(page), found);
        self.states.begin_reading(page, cursor, armed);
    }

    // One step: the same, and the page is armed.
    fn arm(&mut self, page: u64)
        requires inside { page < self.old.count }
        requires classed { 0 < seen_class (page_at self.old page) }
        requires none { (page_at self.old page).cursor ≡ None }
        requires calm { (page_at self.old page).armed ≡ false }
        ensures works { WorksOn page self.old self.new }
        ensures armed { (page_at self.new page).armed ≡ true }
        ensures steps { StepsForSlots 1 page self.old self.new }
    {
        let name = PageName {
            shard: self.shard,
            page,
        };
        let found = self.owner.arm(name);
        let cursor = slot_number(top_item(top_of(found)));
        self.states.begin_reading(page, cursor, true);
    }

    // One step: the cursor's slot joins the lists, unless its link is not written. True if the cursor moved on.
    fn follow(&mut self, page: u64) -> bool
        requires inside { page < self.old.count }
        ensures { MatchBool result (CursorMoves page self.old self.new) (CursorStops page self.old self.new) }
    {
        let name = PageName {
            shard: self.shard,
            page,
        };
        let Some(slot) = self.states.cursor(page) else {
            return false;
        };
        let found = self.owner.follow(name, slot as u64);
        if found == 0 {
            return false;
        }
        let cursor = slot_number(link_item(found));
        self.states.add_read(page, slot, cursor);
        true
    }

    /// Follows the cursor to the end or to a link that is not written.
    #[inline(always)]
    pub(crate) fn follow_all(&mut self, page: u64)
        requires inside { page < self.old.count }
        ensures { CursorStops page self.old self.new }
    {
        if self.has_cursor(page) {
            self.follow_on(page);
        }
    }

    // The same, if there is a cursor.
    fn follow_on(&mut self, page: u64)
        requires inside { page < self.old.count }
        ensures { CursorStops page self.old self.new }
    {
        for _turn in 0..49u64 {
            if !self.follow(page) {
                return;
            }
        }
    }

    /// Takes what was put on the page if there is no cursor, and follows.
    pub(crate) fn collect(&mut self, page: u64)
        requires inside { page < self.old.count }
        requires classed { 0 < seen_class (page_at self.old page) }
        ensures { CollectsPage page self.old self.new }
    {
        if !self.has_cursor(page) {
            self.take(page);
        }
        self.follow_all(page);
    }

    /// Arms the page if it has no cursor and is not armed, and follows what was found.
    pub(crate) fn arm_and_follow(&mut self, page: u64)
        requires inside { page < self.old.count }
        requires classed { 0 < seen_class (page_at self.old page) }
        ensures { ArmsAndFollows page self.old self.new }
    {
        if self.has_cursor(page) {
            return;
        }
        if self.is_armed(page) {
            return;
        }
        self.arm(page);
        self.follow_all(page);
    }
}
