//! What actions on shards and their bells leave in a pass's own part.
ghost use Rattle.std.specs.Prelude.{◌≡◌, ◌+◌, ◌<◌, ◌≤◌, ℕ, None};
ghost use Rattle.sh_shape.specs.Places.{all_pages};
ghost use Rattle.sh_step.specs.Plans.{plan_of, over_heap};
ghost use Rattle.sh_step.specs.Rows.{adopt, leave, take_bell, follow_bell};

use super::Part;
use crate::part::lists::remove_number;
use sh_bell::{named_over_heap, shard_of_page};
use sh_key::KeyLayout;
use sh_shape::Shape;
use sh_slots::Reply;
use sh_stack::{link_item, top_item};

// A word of the shard that names its page p as p + `base`, and none below `base`: the same with the page's number over
// the whole heap.
#[tactic(auto, unfolding(crate::specs::Plans::over_heap, crate::specs::Plans::page_number))]
fn over_heap<L: KeyLayout>(shape: &Shape, shard: u64, base: u64, word: u64) -> u64
    requires shard { shard < shape.now.shards }
    requires word { word ≤ all_pages shape.now + 1 }
    ensures { result ≡ over_heap (plan_of L.layout shape.now) shard base word }
{
    named_over_heap(u64::from(shape.pages()), shard, base, word)
}

impl Part {
    // Adopts a shard; the step found this word. The shard becomes its own if it had no owner, and it knows no page of
    // it yet.
    pub(super) fn adopt(&mut self, shard: u64, found: u64) -> Option<Reply>
        ensures reply { result ≡ (adopt self.old shard).reply found }
        ensures part { self.new ≡ (adopt self.old shard).part found }
    {
        if found == 0 {
            self.owned = Some(shard);
            self.classes.clear();
            self.mine.clear();
            self.cursors.clear();
            self.armed.clear();
            self.bell_cursor = None;
        }
        None
    }

    // Gives the shard up.
    pub(super) fn leave(&mut self) -> Option<Reply>
        ensures reply { result ≡ None }
        ensures part { (shard found : ℕ) → self.new ≡ (leave self.old shard).part found }
    {
        self.owned = None;
        None
    }

    // Takes the shard's bell; the step found this word.
    pub(super) fn take_bell<L: KeyLayout>(
        &mut self,
        shape: &Shape,
        shard: u64,
        found: u64,
    ) -> Option<Reply>
        requires shard { shard < shape.now.shards }
        requires word { found ≤ all_pages shape.now + 1 }
        ensures reply { result ≡ (take_bell (plan_of L.layout shape.now) self.old shard).reply found }
        ensures part { self.new ≡ (take_bell (plan_of L.layout shape.now) self.old shard).part found }
    {
        self.bell_cursor = top_item(over_heap::<L>(shape, shard, 1, found));
        None
    }

    // Reads the link of a page of the bell; the step found this word. If it is written, the page leaves the bell.
    #[tactic(auto, using(crate::proofs::PageLaws::home_is_shard), unfolding(crate::specs::Plans::shard_of))]
    pub(super) fn follow_bell<L: KeyLayout>(
        &mut self,
        shape: &Shape,
        page: u64,
        found: u64,
    ) -> Option<Reply>
        requires page { page < all_pages shape.now }
        requires word { found ≤ all_pages shape.now + 1 }
        ensures reply { result ≡ (follow_bell (plan_of L.layout shape.now) self.old page).reply found }
        ensures part { self.new ≡ (follow_bell (plan_of L.layout shape.now) self.old page).part found }
    {
        if found != 0 {
            let shard = shard_of_page(u64::from(shape.pages()), page);
            self.bell_cursor = link_item(over_heap::<L>(shape, shard, 2, found));
            remove_number(&mut self.armed, page);
        }
        None
    }
}
