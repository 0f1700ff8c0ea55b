// A peek at a slot of the heap by an owner: it changes nothing of its pages.
ghost use Rattle.std.specs.Prelude.{◌*◌, ◌<◌, None};
ghost use Rattle.sh_pass.specs.Passes.{GlanceDoes};
ghost use Rattle.sh_pass.specs.Peeks.{PeekDoes};
ghost use Rattle.sh_shape.specs.Places.{all_pages, slot_places};
ghost use Rattle.sh_pass.specs.Remaining.{Remains};
ghost use Rattle.sh_pass.specs.Rooms.{becomes};
ghost use Rattle.sh_shard.specs.Pages.{GainsSlot, HoldsPages};

use crate::pages::PagesOn;
use sh_key::KeyLayout;
use sh_pass::{Glance, KeepsHeap};
use sh_value::{Refusal, Value};

impl<L: KeyLayout, H: KeepsHeap<L>> PagesOn<L, H> {
    // Looks at a key once, as a pass does. It frees no slot.
    #[inline(always)]
    pub(crate) fn glance(&mut self, key: u64, value: &mut Value) -> Result<Glance, Refusal>
        ensures does { GlanceDoes becomes L.layout key self.old.owner value.old result value.new self.new.owner }
        ensures gained { GainsSlot None self.old self.new }
        ensures holds { HoldsPages L.layout self.new }
        ensures remains { Remains L.layout self.old.owner self.new.owner }
    {
        self.owner.glance(key, value)
    }

    // The key that is live at a place of the heap, as a pass finds it.
    #[inline(always)]
    pub(crate) fn peek_at(&mut self, place: u64) -> Option<u64>
        requires { place < all_pages self.old.owner.heap.shape * slot_places }
        ensures does { PeekDoes L.layout place self.old.owner result self.new.owner }
        ensures gained { GainsSlot None self.old self.new }
        ensures holds { HoldsPages L.layout self.new }
        ensures remains { Remains L.layout self.old.owner self.new.owner }
    {
        self.owner.peek_at(place)
    }
}
