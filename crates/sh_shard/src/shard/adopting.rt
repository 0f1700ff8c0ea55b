// Becoming the owner of a shard: its pages that have a class are put into the queues of their classes.
ghost use Rattle.std.specs.Prelude.{◌≡◌, ℕ, ◌+◌, ◌*◌, ◌<◌, ◌≤◌, Some, MatchOption, IfSome, IfOk, IfErr};
ghost use Rattle.sh_shard.specs.Pages.{page_at};
ghost use Rattle.sh_shard.specs.Shards.{SortedPages, HoldsShard, AdoptServes};
ghost use Rattle.sh_shard.specs.Bounds.{AdoptIsBounded};
ghost use Rattle.sh_shard.specs.Returning.{FiledPages, FilesFirst, IsClassedEnd};
ghost use Rattle.sh_shard.specs.Filing.{OpensClassed, FilesRising};

use crate::pages::PagesOn;
use crate::shard::ShardOn;
use sh_key::KeyLayout;
use sh_pass::KeepsHeap;
use sh_pass::pass::PassOn;
use sh_queue::{Filing, Queues};
use sh_shape::SEGMENT_PAGES;
use sh_value::Refusal;
use std::alloc::Global;

// The number of pages of a segment.
const SEGMENT: u64 = SEGMENT_PAGES as u64;

impl<L: KeyLayout, H: KeepsHeap<L>> ShardOn<L, H> {
    /// Makes the pass the owner of shard `n`, with all that earlier owners left there. Refused, with the pass, as
    /// `NoShard` exactly if the heap has no shard of this number, and as `Taken` if the shard has an owner. Refused as
    /// `Memory` if it has none and memory for its pages is refused: then the shard is left again. It takes at most two
    /// steps more than the shard has pages.
    #[tactic(auto, using(crate::proofs::Sides::free_then))]
    pub fn adopt(alloc: Global, pass: PassOn<L, H>, n: u64) -> Result<Self, (PassOn<L, H>, Refusal)>
        ensures serves { AdoptServes n pass result }
        ensures bounded { AdoptIsBounded pass result }
        ensures holds { IfOk result (HoldsShard L.layout) }
    {
        let pages = PagesOn::adopt(alloc, pass, n)?;
        match queues_of(alloc, &pages) {
            Ok(queues) => Ok(ShardOn { pages, queues }),
            Err(refusal) => Err((pages.give_up(), refusal)),
        }
    }
}

// The queues of the pages. The opened segments are those up to the last page that has a class.
fn queues_of<L: KeyLayout, H: KeepsHeap<L>>(
    alloc: Global,
    pages: &PagesOn<L, H>,
) -> Result<Queues, Refusal>
    requires segments { (k : ℕ) × (pages.now.count ≡ 8 * k) }
    ensures sorted { IfOk result (λ queues. SortedPages pages.now queues) }
    ensures opened { IfOk result (λ queues. OpensClassed pages.now queues) }
    ensures rising { IfOk result (λ queues. FilesRising queues) }
    ensures memory { IfErr result (λ refusal. refusal ≡ Refusal.Memory) }
{
    let segments = pages.count() / SEGMENT;
    let opened = classed_end(pages).div_ceil(SEGMENT);
    let mut filing = Filing::new(alloc, opened as u32, (segments - opened) as u32)?;
    file_pages(pages, &mut filing);
    Ok(filing.into_queues())
}

// One more than the number of the last page that has a class, 0 if none has. The search goes from the back.
fn classed_end<L: KeyLayout, H: KeepsHeap<L>>(pages: &PagesOn<L, H>) -> u64
    ensures few { result ≤ pages.now.count }
    ensures later { (p : ℕ) → result ≤ p → p < pages.now.count → (page_at pages.now p).class ≡ Some 0 }
    ensures classed { IsClassedEnd result pages.now }
{
    let count = pages.count();
    for above in 0..count {
        let end = count - above;
        if pages.class_word(end - 1) != 0 {
            return end;
        }
    }
    0
}

// Files each page of the filing, in ascending order.
fn file_pages<L: KeyLayout, H: KeepsHeap<L>>(pages: &PagesOn<L, H>, filing: &mut Filing)
    requires few { filing.old.pages ≤ pages.now.count }
    requires none { FilesFirst 0 pages.now filing.old filing.old }
    ensures { FilesFirst filing.old.pages pages.now filing.old filing.new }
{
    for page in 0..filing.pages() {
        filing.file(class_of(pages, page as u64));
    }
}

// The class of a page, if it is not blank.
fn class_of<L: KeyLayout, H: KeepsHeap<L>>(pages: &PagesOn<L, H>, page: u64) -> Option<u32>
    requires { page < pages.now.count }
    ensures class { MatchOption result ((page_at pages.now page).class ≡ Some 0)
        (λ c. (page_at pages.now page).class ≡ Some (c + 1)) }
    ensures few { IfSome result (λ c. c < 8) }
{
    let word = pages.class_word(page);
    if word == 0 {
        return None;
    }
    Some((word - 1) as u32)
}
