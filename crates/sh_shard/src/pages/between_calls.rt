// What is known of the owner of the pages between its calls.
ghost use Rattle.std.specs.Prelude.{◌≡◌};
ghost use Rattle.sh_shard.specs.Pages.{HoldsPages};

use crate::pages::PagesOn;
use sh_key::KeyLayout;
use sh_pass::KeepsHeap;
use sh_shape::Shape;

impl<L: KeyLayout, H: KeepsHeap<L>> PagesOn<L, H> {
    // The shape of the heap.
    pub(crate) fn shape(&self) -> &Shape
        ensures is { result.now ≡ self.now.owner.heap.shape }
        ensures holds { HoldsPages L.layout self.now }
    {
        self.owner.shape()
    }
}
