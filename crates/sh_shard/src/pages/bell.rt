// The shard's bell, on which others put the armed pages into which they freed.
ghost use Rattle.std.specs.Prelude.{◌≡◌, None, MatchOption, MatchBool};
ghost use Rattle.sh_shard.specs.Pages.{HasCursor, BellTakes, BellStops, BellReads};

use crate::pages::PagesOn;
use sh_key::KeyLayout;
use sh_pass::KeepsHeap;
use sh_stack::{link_item, top_item};
use sh_step::PageName;

impl<L: KeyLayout, H: KeepsHeap<L>> PagesOn<L, H> {
    /// Whether the bell has a cursor.
    pub(crate) fn has_rings(&self) -> bool
        ensures { MatchBool result (HasCursor self.now.bell.cursor) (self.now.bell.cursor ≡ None) }
    {
        self.rings.is_some()
    }

    /// One step: what was put on the bell becomes its cursor.
    pub(crate) fn take_bell(&mut self)
        requires none { self.old.bell.cursor ≡ None }
        ensures { BellTakes self.old self.new }
    {
        let found = self.owner.take_bell(self.shard);
        self.rings = top_item(found);
    }

    /// One step: the page at the bell's cursor is no longer armed, unless its link is not written. Returns the page.
    pub(crate) fn follow_bell(&mut self) -> Option<u64>
        ensures { MatchOption result (BellStops self.old self.new) (λ page. BellReads page self.old self.new) }
    {
        let Some(page) = self.rings else {
            return None;
        };
        let name = PageName {
            shard: self.shard,
            page,
        };
        let found = self.owner.follow_bell(name);
        if found == 0 {
            return None;
        }
        self.rings = link_item(found);
        self.states.disarm(page);
        Some(page)
    }
}
