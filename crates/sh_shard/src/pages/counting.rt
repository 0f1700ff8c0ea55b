// How many slots of a page are not the owner's.
ghost use Rattle.std.specs.Prelude.{◌≡◌, ◌<◌, ◌≤◌};
ghost use Rattle.sh_shape.specs.Places.{slot_places};
ghost use Rattle.sh_shard.specs.Pages.{page_at, page_out};

use crate::pages::PagesOn;
use sh_key::KeyLayout;
use sh_pass::KeepsHeap;
use sh_shape::classes;

impl<L: KeyLayout, H: KeepsHeap<L>> PagesOn<L, H> {
    // How many slots of the page are not the owner's: none if it is blank.
    pub(crate) fn slots_out(&self, page: u64) -> u32
        requires { page < self.now.count }
        ensures is { result ≡ page_out (page_at self.now page) }
        ensures few { result ≤ slot_places }
    {
        let class_word = self.states.class_word(page);
        if class_word == 0 {
            return 0;
        }
        classes::slots((class_word - 1) as u32) - self.states.slots(page)
    }
}
