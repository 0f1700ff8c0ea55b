// What is known of an owner between its calls.
ghost use Rattle.std.specs.Prelude.{◌≡◌};
ghost use Rattle.sh_shard.specs.Shards.{HoldsShard};

use crate::shard::ShardOn;
use sh_key::KeyLayout;
use sh_pass::KeepsHeap;
use sh_shape::Shape;

impl<L: KeyLayout, H: KeepsHeap<L>> ShardOn<L, H> {
    /// The shape of the heap. Between its calls the owner has begun nothing, the shard is its own, and all that it
    /// knows holds.
    pub fn shape(&self) -> &Shape
        ensures is { result.now ≡ self.now.pages.owner.heap.shape }
        ensures same { self.now.pages.owner.view.shape ≡ self.now.pages.owner.heap.shape }
        ensures holds { HoldsShard L.layout self.now }
    {
        self.pages.shape()
    }

    // What is known of the shard.
    pub(crate) fn standing(&self)
        ensures { HoldsShard L.layout self.now }
    {
        let _known = self.pages.shape();
    }
}
