// The places of an owner's shard, which are some of its heap.
ghost use Rattle.std.specs.Prelude.{◌≡◌, ◌+◌, ◌^◌, ◌≤◌};
ghost use Rattle.sh_shard.specs.Places.{first_place, place_count};

use crate::pages::PagesOn;
use sh_key::KeyLayout;
use sh_pass::KeepsHeap;
use sh_shape::SLOT_PLACES;

impl<L: KeyLayout, H: KeepsHeap<L>> PagesOn<L, H> {
    // How many places the shard has.
    pub(crate) fn places(&self) -> u64
        ensures { result ≡ place_count self.now }
    {
        self.states.len() * u64::from(SLOT_PLACES)
    }

    // The first of them.
    pub(crate) fn first_place(&self) -> u64
        ensures is { result ≡ first_place self.now }
        ensures few { result + place_count self.now ≤ 2 ^ 30 }
    {
        self.shard * self.states.len() * u64::from(SLOT_PLACES)
    }
}
