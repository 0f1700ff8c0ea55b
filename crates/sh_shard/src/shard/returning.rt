// How pages come back from the full queue: once they have a free slot or a cursor, or are no longer armed.
ghost use Rattle.std.specs.Prelude.{◌≡◌, ℕ, ◌<◌, ◌≤◌, Some, MatchBool, IfSome, true};
ghost use Rattle.sh_queue.specs.Numbers.{has_number};
ghost use Rattle.sh_shard.specs.Pages.{page_at, seen_class};
ghost use Rattle.sh_shard.specs.Shards.{FullPage, SortedPages, ReturnsPage, ReturnsEach};
ghost use Rattle.sh_shard.specs.Returning.{SortedBut, ReturnsGained};
ghost use Rattle.sh_shard.specs.Filing.{ReturnsRising};

use crate::pages::PagesOn;
use sh_key::KeyLayout;
use sh_pass::KeepsHeap;
use sh_queue::Queues;

// Moves all pages that are no longer full back to their classes, in ascending order.
pub(crate) fn return_all<L: KeyLayout, H: KeepsHeap<L>>(pages: &PagesOn<L, H>, queues: &mut Queues)
    requires { SortedBut (λ p. Unit {0}) pages.now queues.old }
    ensures sorted { SortedPages pages.now queues.new }
    ensures rising { ReturnsRising queues.old queues.new }
    ensures each { ReturnsEach pages.now queues.old queues.new }
{
    let opened = queues.opened();
    for page in 0..opened {
        return_page(pages, queues, page as u64);
    }
}

// Moves a page that gained a slot back to its class, if it was full.
pub(crate) fn return_one<L: KeyLayout, H: KeepsHeap<L>>(
    pages: &PagesOn<L, H>,
    queues: &mut Queues,
    gained: Option<u64>,
)
    requires sorted { SortedBut (λ p. gained ≡ Some p) pages.now queues.old }
    requires inside { IfSome gained (λ p. p < pages.now.count) }
    ensures sorted { SortedPages pages.now queues.new }
    ensures moved { ReturnsGained gained pages.now queues.old queues.new }
{
    let Some(page) = gained else {
        return;
    };
    return_page(pages, queues, page);
}

// Moves the page, if it is in the full queue and is not a full page, to the back of its class.
fn return_page<L: KeyLayout, H: KeepsHeap<L>>(pages: &PagesOn<L, H>, queues: &mut Queues, page: u64)
    requires inside { page < pages.now.count }
    requires classed { has_number page queues.old.full ≡ true → 0 < seen_class (page_at pages.now page) }
    requires few { has_number page queues.old.full ≡ true → seen_class (page_at pages.now page) ≤ 8 }
    ensures { ReturnsPage page pages.now queues.old queues.new }
{
    let opened = queues.opened();
    if page >= opened as u64 {
        return;
    }
    if !queues.in_full(page as u32) {
        return;
    }
    if is_full(pages, page) {
        return;
    }
    let class = pages.class_word(page) - 1;
    queues.to_back(class as u32, page as u32);
}

// Whether the page, which has a class, belongs in the full queue.
fn is_full<L: KeyLayout, H: KeepsHeap<L>>(pages: &PagesOn<L, H>, page: u64) -> bool
    requires inside { page < pages.now.count }
    requires classed { 0 < seen_class (page_at pages.now page) }
    requires few { seen_class (page_at pages.now page) ≤ 8 }
    ensures { MatchBool result (FullPage (page_at pages.now page)) (¬ FullPage (page_at pages.now page)) }
{
    if !pages.is_armed(page) {
        return false;
    }
    if pages.has_cursor(page) {
        return false;
    }
    if pages.has_slot(page) {
        return false;
    }
    true
}
