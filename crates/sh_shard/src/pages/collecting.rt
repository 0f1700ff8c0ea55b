// Collecting what others freed on the pages of a shard.
ghost use Rattle.std.specs.Prelude.{◌<◌, ◌≤◌};
ghost use Rattle.sh_shard.specs.Pages.{BlankFrom};
ghost use Rattle.sh_shard.specs.RemoteFrees.{CollectsWhole, PagesCollected};

use crate::pages::PagesOn;
use sh_key::KeyLayout;
use sh_pass::KeepsHeap;

impl<L: KeyLayout, H: KeepsHeap<L>> PagesOn<L, H> {
    // Follows the page's cursor; if it then has none, takes what was put on the page, and follows.
    fn collect_whole(&mut self, page: u64)
        requires { page < self.old.count }
        ensures { CollectsWhole page self.old self.new }
    {
        self.follow_all(page);
        if self.class_word(page) == 0 {
            return;
        }
        if self.has_cursor(page) {
            return;
        }
        self.take(page);
        self.follow_all(page);
    }

    // Collects each page, in ascending order. The pages from `opened` on are blank, and need nothing.
    pub(crate) fn collect_pages(&mut self, opened: u64)
        requires few { opened ≤ self.old.count }
        requires later { BlankFrom opened self.old }
        ensures { PagesCollected self.old self.new }
    {
        for page in 0..opened {
            self.collect_whole(page);
        }
        let _known = self.blank_pages();
    }
}
