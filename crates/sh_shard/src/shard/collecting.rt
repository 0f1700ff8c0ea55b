// Collecting what others freed on all pages of a shard.
ghost use Rattle.sh_shard.specs.RemoteFrees.{CollectServes};
ghost use Rattle.sh_shard.specs.Shards.{StaysOwner};

use crate::shard::ShardOn;
use crate::shard::returning::return_all;
use sh_key::KeyLayout;
use sh_pass::KeepsHeap;

impl<L: KeyLayout, H: KeepsHeap<L>> ShardOn<L, H> {
    /// Collects what others freed on all pages of the shard: takes and follows the bell and each page's stack. An
    /// insert looks only at pages of its own class. So a shard whose values others removed may have no room for a value
    /// of another length until this is called. Then each page that got all its slots back may change its class.
    ///
    /// It takes no memory, and is never refused. If another caller has begun a free that is yet to end, what it frees
    /// and what lies below that on the page's stack stays there. It takes at most 52 steps for each page, and 3.
    pub fn collect(&mut self)
        ensures serves { CollectServes self.old self.new }
        ensures stays { StaysOwner L.layout self.old self.new }
    {
        let _known = self.standing();
        let opened = self.queues.opened();
        self.pages.empty_bell();
        self.pages.collect_pages(opened as u64);
        return_all(&self.pages, &mut self.queues);
        let _known = self.standing();
    }
}
