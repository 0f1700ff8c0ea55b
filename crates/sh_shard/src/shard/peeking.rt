// A peek at a slot of the heap by the owner of a shard.
ghost use Rattle.std.specs.Prelude.{◌*◌, ◌<◌};
ghost use Rattle.sh_pass.specs.Passes.{GlanceDoes};
ghost use Rattle.sh_pass.specs.Peeks.{PeekDoes};
ghost use Rattle.sh_shape.specs.Places.{all_pages, slot_places};
ghost use Rattle.sh_pass.specs.Rooms.{becomes};
ghost use Rattle.sh_shard.specs.Shards.{StaysOwner, MovesNothing};

use crate::shard::ShardOn;
use sh_key::KeyLayout;
use sh_pass::{Glance, KeepsHeap};
use sh_value::{Refusal, Value};

impl<L: KeyLayout, H: KeepsHeap<L>> ShardOn<L, H> {
    /// Looks at a key once, as a pass does.
    #[inline(always)]
    pub fn glance(&mut self, key: u64, value: &mut Value) -> Result<Glance, Refusal>
        ensures does { GlanceDoes becomes L.layout key self.old.pages.owner value.old result value.new
            self.new.pages.owner }
        ensures moved { MovesNothing self.old self.new }
        ensures stays { StaysOwner L.layout self.old self.new }
    {
        self.pages.glance(key, value)
    }

    /// The key that is live at a place of the heap, or `None` if none is, as a pass finds it.
    #[inline(always)]
    pub fn peek_at(&mut self, place: u64) -> Option<u64>
        requires { place < all_pages self.old.pages.owner.heap.shape * slot_places }
        ensures does { PeekDoes L.layout place self.old.pages.owner result self.new.pages.owner }
        ensures moved { MovesNothing self.old self.new }
        ensures stays { StaysOwner L.layout self.old self.new }
    {
        self.pages.peek_at(place)
    }
}
