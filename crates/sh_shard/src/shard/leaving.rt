// Leaving a shard, as its owner.
ghost use Rattle.std.specs.Prelude.{IfErr};
ghost use Rattle.sh_shard.specs.Shards.{LeaveServes, HoldsShard};
ghost use Rattle.sh_shard.specs.Bounds.{LeaveIsBounded};

use crate::shard::ShardOn;
use crate::shard::returning::return_all;
use sh_key::KeyLayout;
use sh_pass::KeepsHeap;
use sh_pass::pass::PassOn;
use sh_value::Refusal;

impl<L: KeyLayout, H: KeepsHeap<L>> ShardOn<L, H> {
    /// Leaves the shard: collects what others freed, puts all slots that the owner has on their pages for the next
    /// owner, and returns the pass. Refused as `Waiting`, with the shard, if another caller has begun a free in it that
    /// is yet to end. Then nothing is put back, and the shard works as before. It takes at most 148 steps for each page
    /// of the shard, and 4.
    pub fn leave(self) -> Result<PassOn<L, H>, (Self, Refusal)>
        ensures serves { LeaveServes self result }
        ensures bounded { LeaveIsBounded self result }
        ensures holds { IfErr result (λ r. HoldsShard L.layout r.0) }
    {
        let ShardOn { pages, mut queues } = self;
        let opened = queues.opened();
        match pages.leave(opened as u64) {
            Ok(pass) => Ok(pass),
            Err(pages) => {
                return_all(&pages, &mut queues);
                let shard = ShardOn { pages, queues };
                let _known = shard.standing();
                Err((shard, Refusal::Waiting))
            }
        }
    }
}
