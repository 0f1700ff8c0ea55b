// Reading armed pages from the shard's bell: a full page that is read from it goes back to its class.
ghost use Rattle.std.specs.Prelude.{◌≡◌, ℕ, ◌+◌, ◌<◌, None, MatchOption, ◌||◌, ◌==◌};
ghost use Rattle.sh_shard.specs.Pages.{BellTakes, BellStops, StepsForRings};
ghost use Rattle.sh_shard.specs.Shards.{SortedPages};
ghost use Rattle.sh_shard.specs.Searches.{ReadsRing, ReadsRings, BellWaits, RingsOut};

use crate::shard::ShardOn;
use sh_key::KeyLayout;
use sh_pass::KeepsHeap;

// Whether a page of class c was read, including the one with this class word.
fn is_heard(read: bool, word: u64, c: u32) -> bool
    ensures { result ≡ (read || (word == c + 1)) }
{
    read || word == c as u64 + 1
}

fn any_heard(first: bool, second: bool) -> bool
    ensures { result ≡ (first || second) }
{
    first || second
}

impl<L: KeyLayout, H: KeepsHeap<L>> ShardOn<L, H> {
    // Follows the bell, takes it once it is at its end, and follows. Returns whether a page of the class was read.
    pub(crate) fn ring_out(&mut self, c: u32) -> bool
        requires class { c < 8 }
        ensures rings { RingsOut c result self.old self.new }
        ensures sorted { SortedPages self.old.pages self.old.queues }
    {
        let first = self.read_rings(c);
        if self.pages.has_rings() {
            return first;
        }
        self.take_bell();
        let second = self.read_rings(c);
        any_heard(first, second)
    }

    // Follows the bell to its end or to a link that is not written. Returns whether a page of the class was read.
    fn read_rings(&mut self, c: u32) -> bool
        requires class { c < 8 }
        ensures hears { ReadsRings c result self.old self.new }
        ensures waits { BellWaits self.old self.new }
        ensures steps { StepsForRings 1 self.old.pages self.new.pages }
        ensures sorted { SortedPages self.old.pages self.old.queues }
    {
        let mut read = false;
        let count = self.pages.count();
        for _turn in 0..count + 1 {
            let Some(word) = self.read_bell() else {
                return read;
            };
            read = is_heard(read, word, c);
        }
        read
    }

    // One step on the bell: a page that is read goes to the back of its class, if it is full. Returns its class word.
    fn read_bell(&mut self) -> Option<u64>
        ensures heard { MatchOption result ((self.new.queues ≡ self.old.queues)
            × BellStops self.old.pages self.new.pages) (λ word. ReadsRing word self.old self.new) }
        ensures sorted { SortedPages self.old.pages self.old.queues }
    {
        let opened = self.queues.opened();
        let Some(page) = self.pages.follow_bell() else {
            return None;
        };
        let word = self.pages.class_word(page);
        if page >= opened as u64 {
            return Some(word);
        }
        if !self.queues.in_full(page as u32) {
            return Some(word);
        }
        self.queues.to_back((word - 1) as u32, page as u32);
        Some(word)
    }

    fn take_bell(&mut self)
        requires none { self.old.pages.bell.cursor ≡ None }
        ensures takes { BellTakes self.old.pages self.new.pages }
        ensures queues { self.new.queues ≡ self.old.queues }
    {
        self.pages.take_bell();
    }
}
