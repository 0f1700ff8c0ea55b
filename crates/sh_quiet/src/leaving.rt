//! Leaving a shard as the last pass of its heap.
ghost use Rattle.sh_shard.specs.Pages.{ShardLeft};
ghost use Rattle.sh_shard.specs.Shards.{HoldsShard};
ghost use Rattle.sh_quiet.specs.Quiescence.{IsLastOne};

use crate::laws::leaves_never_wait;
use sh_key::KeyLayout;
use sh_pass::KeepsHeap;
use sh_pass::pass::PassOn;
use sh_shard::shard::ShardOn;

/// Leaves the shard of an owner that took in all other passes of its heap, none of which has begun anything. It is
/// never `Waiting`.
pub fn leave_last<L: KeyLayout, H: KeepsHeap<L>>(shard: ShardOn<L, H>) -> PassOn<L, H>
    requires holds { HoldsShard L.layout shard }
    requires last { IsLastOne shard.pages.owner.view }
    ensures { ShardLeft shard.pages.owner result }
{
    leaves_never_wait();
    match shard.leave() {
        Ok(pass) => pass,
        Err((mut waiting, _)) => {
            let mut bundle = waiting.bundle();
            waiting.bind(&mut bundle);
            unreachable!()
        }
    }
}
