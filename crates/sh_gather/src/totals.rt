//! Sums over the pages of a whole heap.
ghost use Rattle.std.specs.Prelude.{◌≡◌, ◌≤◌, ◌^◌, List, []};
ghost use Rattle.sh_shape.specs.Places.{all_pages, slot_places};
ghost use Rattle.sh_accounts.specs.Accounts.{all_slots};
ghost use Rattle.sh_gather.specs.Gathering.{NotedMore};
ghost use Rattle.sh_gather.specs.declared.accounts_by_page.PageAccounts.{PageAccounts};
ghost use Rattle.sh_gather.specs.PageLists.{AreFirst};
ghost use Rattle.sh_gather.specs.Sums.{AtMost, with_page, sums};

use crate::accounts_by_page::{PageAccounts, page_accounts, page_count};
use crate::view::WholeOn;
use sh_key::KeyLayout;
use sh_pass::KeepsHeap;

/// The number of slots of each kind on all pages of a heap.
///
/// No slot is an owner's or in a hand, since all passes met.
#[derive(Clone, Copy, Debug, PartialEq, Eq)]
pub struct Totals {
    /// Slots with a value that can be got, which is the number of keys in the map.
    pub live: u32,
    /// Slots with a value that was removed and is still held.
    pub marked: u32,
    /// Slots with no generation left, which are never used again.
    pub retired: u32,
    /// Empty slots, for the pass that adopts their shard next.
    pub queued: u32,
    /// Pages that have a class.
    pub used_pages: u32,
    /// Pages that have none.
    pub blank_pages: u32,
}

impl Totals {
    // The totals of no page.
    fn new() -> Totals
        ensures { result ≡ sums [] }
    {
        Totals {
            live: 0,
            marked: 0,
            retired: 0,
            queued: 0,
            used_pages: 0,
            blank_pages: 0,
        }
    }

    // The totals with one page more.
    fn with(self, page: &PageAccounts) -> Totals
        requires room { AtMost (2 ^ 31) self }
        requires page { all_slots page.now.accounts ≤ slot_places }
        ensures { result ≡ with_page page.now self }
    {
        let accounts = &page.accounts;
        let used = u32::from(accounts.class.is_some());
        Totals {
            live: self.live + accounts.live,
            marked: self.marked + accounts.marked,
            retired: self.retired + accounts.retired,
            queued: self.queued + accounts.queued,
            used_pages: self.used_pages + used,
            blank_pages: self.blank_pages + (1 - used),
        }
    }
}

/// The sums over all pages of a heap of which all passes met. It takes no memory.
pub fn total<L: KeyLayout, H: KeepsHeap<L>>(whole: &mut WholeOn<L, H>) -> Totals
    ensures heap { whole.new.heap ≡ whole.old.heap }
    ensures tale { NotedMore whole.old.view whole.new.view }
    ensures are { (pages : List PageAccounts)
        × AreFirst L.layout whole.old whole.new (all_pages whole.old.heap.shape) pages
        × (result ≡ sums pages) }
{
    let mut sums = Totals::new();
    for number in 0..page_count(whole.shape()) {
        sums = sums.with(&page_accounts(whole, number));
    }
    sums
}
