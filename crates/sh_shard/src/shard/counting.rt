// What an owner knows of how full its shard is.
ghost use Rattle.std.specs.Prelude.{◌≡◌};
ghost use Rattle.sh_shard.specs.Pages.{blank_pages, slots_out};

use crate::shard::ShardOn;
use sh_key::KeyLayout;
use sh_pass::KeepsHeap;

impl<L: KeyLayout, H: KeepsHeap<L>> ShardOn<L, H> {
    /// How many pages of the shard have no class yet, in the opened segments and in the others. Each of them has room
    /// for values of any class: 48 of one word, or 3 of sixteen.
    ///
    /// It takes no step, and no memory.
    pub fn pages_left(&self) -> u64
        ensures { result ≡ blank_pages self.now.pages }
    {
        let mut left = 0;
        for page in 0..self.pages.count() {
            if self.pages.class_word(page) == 0 {
                left += 1;
            }
        }
        left
    }

    /// How many slots of the shard's pages are not the owner's. Each of them has a value, or a removed value that is
    /// still held, or another caller put it back and it is not collected yet, or it is spent. So the shard has at most
    /// this many values, and exactly this many if others removed none, no removed value is still held, and no slot is
    /// spent.
    ///
    /// It takes no step, and no memory.
    pub fn slots_out(&self) -> u64
        ensures { result ≡ slots_out self.now.pages }
    {
        let mut out = 0;
        for page in 0..self.pages.count() {
            out += self.pages.slots_out(page) as u64;
        }
        out
    }
}
