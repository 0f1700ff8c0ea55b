// Giving a class to a page that is blank, or that has another class and all of whose slots are the owner's.
ghost use Rattle.std.specs.Prelude.{◌≡◌, ◌≢◌, ◌+◌, ◌<◌, true, None, Some, MatchOption, MatchBool, IfErr, OnOk, OnErr};
ghost use Rattle.std.specs.Prelude.{slice_get};
ghost use Rattle.sh_queue.specs.Queues.{one_more_segment};
ghost use Rattle.sh_shard.specs.Pages.{page_at, NoneWhollyMine};
ghost use Rattle.sh_shard.specs.Shards.{IsSpare, NoneSpare, NoneOpenedBlank, IsLowest, PreparesPage, PrepareServes};
ghost use Rattle.sh_shard.specs.Shards.{SortedPages, StaysOwner};
ghost use Rattle.sh_shard.specs.Bounds.{PrepareIsBounded};

use crate::shard::ShardOn;
use sh_key::KeyLayout;
use sh_pass::KeepsHeap;
use sh_value::Refusal;

impl<L: KeyLayout, H: KeepsHeap<L>> ShardOn<L, H> {
    /// Gives a page the class, from 0 to 7, puts it in front of the class's queue, and returns it. It is the lowest
    /// blank page of the opened segments. If there is none, it is the lowest page of another class all of whose slots
    /// are the owner's. If there is none either, it opens the next segment and gives the class to its first page.
    /// Refused, with nothing changed, as `Full` exactly if there is no such page, and as `Memory` if the segment's
    /// growth is refused. It takes one step at most.
    pub fn prepare(&mut self, class: u32) -> Result<u32, Refusal>
        requires { class < 8 }
        ensures serves { PrepareServes class self.old result self.new }
        ensures bounded { PrepareIsBounded self.old self.new }
        ensures stays { StaysOwner L.layout self.old self.new }
    {
        let _known = self.standing();
        let answer = self.give_page(class);
        let _known = self.standing();
        answer
    }

    // Does what `prepare` does. An insert uses it too.
    pub(crate) fn give_page(&mut self, class: u32) -> Result<u32, Refusal>
        requires { class < 8 }
        ensures serves { PrepareServes class self.old result self.new }
        ensures sorted { SortedPages self.old.pages self.old.queues }
    {
        if let Some(page) = self.give_blank(class) {
            return Ok(page);
        }
        if let Some(page) = self.give_spare(class) {
            return Ok(page);
        }
        self.give_opened(class)
    }

    // Opens the next segment, and gives its first page the class.
    fn give_opened(&mut self, class: u32) -> Result<u32, Refusal>
        requires class { class < 8 }
        requires blank { NoneOpenedBlank self.old }
        requires spare { NoneSpare class self.old.pages }
        ensures { PrepareServes class self.old result self.new }
    {
        if self.queues.unopened() == 0 {
            return Err(Refusal::Full);
        }
        self.open_segment()?;
        match self.give_blank(class) {
            Some(page) => Ok(page),
            None => unreachable!(),
        }
    }

    // Gives the lowest blank page the class.
    fn give_blank(&mut self, class: u32) -> Option<u32>
        requires { class < 8 }
        ensures given { MatchOption result ((self.new ≡ self.old) × NoneOpenedBlank self.old)
            (λ page. PreparesPage class page self.old self.new) }
        ensures sorted { SortedPages self.old.pages self.old.queues }
    {
        let Some(page) = self.queues.blank() else {
            return None;
        };
        self.pages.give_class(page as u64, class);
        self.queues.to_front(class, page);
        Some(page)
    }

    // If no opened page is blank, gives this class to the lowest page of another class all of whose slots are the
    // owner's.
    fn give_spare(&mut self, class: u32) -> Option<u32>
        requires class { class < 8 }
        requires blank { NoneOpenedBlank self.old }
        ensures { MatchOption result ((self.new ≡ self.old) × NoneSpare class self.old.pages)
            (λ page. PreparesPage class page self.old self.new) }
    {
        let Some(page) = self.spare(class) else {
            return None;
        };
        self.pages.give_class(page as u64, class);
        self.queues.to_front(class, page);
        Some(page)
    }

    // The lowest opened page of another class all of whose slots are the owner's.
    fn spare(&mut self, class: u32) -> Option<u32>
        ensures same { self.new ≡ self.old }
        ensures lowest { MatchOption result (NoneSpare class self.old.pages)
            (λ page. (page < self.old.queues.opened) × IsLowest (IsSpare class) page self.old.pages) }
    {
        let opened = self.queues.opened();
        let Some(first) = self.pages.first_whole(opened as u64) else {
            return None;
        };
        self.spare_from(first as u32, class)
    }

    // The same, from the first opened page on that has all its slots with the owner.
    fn spare_from(&self, first: u32, class: u32) -> Option<u32>
        requires { NoneWhollyMine first self.now.pages }
        ensures { MatchOption result (NoneSpare class self.now.pages)
            (λ page. (page < self.now.queues.opened) × IsLowest (IsSpare class) page self.now.pages) }
    {
        let opened = self.queues.opened();
        for page in first..opened {
            if self.is_spare(class, page) {
                return Some(page);
            }
        }
        None
    }

    // Whether the opened page has another class, and all its slots are the owner's.
    fn is_spare(&self, class: u32, page: u32) -> bool
        requires { page < self.now.queues.opened }
        ensures { MatchBool result (IsSpare class (page_at self.now.pages page))
            (¬ IsSpare class (page_at self.now.pages page)) }
    {
        let page = page as u64;
        if self.pages.class_word(page) == class as u64 + 1 {
            return false;
        }
        self.pages.is_wholly_mine(page)
    }

    // Opens the next segment.
    fn open_segment(&mut self) -> Result<(), Refusal>
        requires { self.old.queues.unopened ≢ 0 }
        ensures pages { self.new.pages ≡ self.old.pages }
        ensures memory { IfErr result (λ refusal. refusal ≡ Refusal.Memory) }
        ensures same { OnErr result (self.new ≡ self.old) }
        ensures opened { OnOk result (self.new.queues ≡ one_more_segment self.old.queues) }
    {
        self.queues.open_segment()?;
        Ok(())
    }
}
