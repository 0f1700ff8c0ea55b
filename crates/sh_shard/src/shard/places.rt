// The places of an owner's shard, which are some of its heap.
ghost use Rattle.std.specs.Prelude.{◌≡◌, ◌+◌, ◌^◌, ◌≤◌};
ghost use Rattle.sh_shard.specs.Places.{first_place, place_count};

use crate::shard::ShardOn;
use sh_key::KeyLayout;
use sh_pass::KeepsHeap;

impl<L: KeyLayout, H: KeepsHeap<L>> ShardOn<L, H> {
    /// How many places the shard has for keys: 48 for each page, in the order of its pages.
    pub fn places(&self) -> u64
        ensures { result ≡ place_count self.now.pages }
    {
        self.pages.places()
    }

    /// The place of the heap that is the first of the shard. The others come after it.
    pub fn first_place(&self) -> u64
        ensures is { result ≡ first_place self.now.pages }
        ensures few { result + place_count self.now.pages ≤ 2 ^ 30 }
    {
        self.pages.first_place()
    }
}
