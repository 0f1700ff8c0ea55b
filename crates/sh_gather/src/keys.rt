// The keys of a heap of which all passes met, from the state words of its slots, which no longer change.
ghost use Rattle.std.specs.Prelude.{◌≡◌, ◌<◌};
ghost use Rattle.sh_gather.specs.Gathering.{NotedMore};
ghost use Rattle.sh_gather.specs.LiveKeys.{AreLiveAt, all_places};

use crate::laws::core_refines;
use crate::view::WholeOn;
use sh_key::KeyLayout;
use sh_pass::KeepsHeap;
use sh_shape::{Place, SLOT_PLACES};
use sh_slots::KeyRef;
use sh_step::operands::key_of_name;
use sh_word::State;

impl<L: KeyLayout, H: KeepsHeap<L>> WholeOn<L, H> {
    /// The live key whose slot is at this place, found by loading one word. A heap has 48 places for each page, in the
    /// order of its pages over the whole heap. Each live key is at one of them, and no two are at the same.
    ///
    /// `None` if no key of this place is live. In any history of the passes' results, a key is live if it was inserted
    /// and not removed.
    pub fn key_at(&mut self, place: u64) -> Option<u64>
        requires { place < all_places self.old.heap.shape }
        ensures heap { self.new.heap ≡ self.old.heap }
        ensures tale { NotedMore self.old.view self.new.view }
        ensures key { AreLiveAt L.layout self.new.view place result }
    {
        core_refines();
        let page = place / u64::from(SLOT_PLACES);
        let slot = place % u64::from(SLOT_PLACES);
        let state = State::of(self.pass.load(Place::State(page, slot)));
        if state.marked {
            return None;
        }
        if !state.present {
            return None;
        }
        let name = KeyRef {
            page,
            slot,
            generation: state.generation,
        };
        Some(key_of_name::<L>(self.pass.shape(), name))
    }
}
