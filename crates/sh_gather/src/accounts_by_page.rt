//! The pages of a whole heap, by their numbers over the heap.
ghost use Rattle.std.specs.Prelude.{◌≡◌, ◌<◌, IfOk};
ghost use Rattle.sh_shape.specs.Places.{all_pages};
ghost use Rattle.sh_gather.specs.Gathering.{NotedMore};
ghost use Rattle.sh_gather.specs.PageLists.{IsPage, AreFirst};

use crate::view::WholeOn;
use sh_core::Accounts;
use sh_key::KeyLayout;
use sh_pass::KeepsHeap;
use sh_shape::Shape;
use std::alloc::{AllocError, Global};

/// The accounts of a page, and which page it is.
#[derive(Clone, Copy, Debug, PartialEq, Eq)]
pub struct PageAccounts {
    /// The shard, from 0.
    pub shard: u32,
    /// The page of the shard, from 0.
    pub page: u32,
    /// What its slots are.
    pub accounts: Accounts,
}

/// How many pages the heap has, in all shards together.
pub fn page_count(shape: &Shape) -> u32
    ensures { result ≡ all_pages shape.now }
{
    shape.shards() * shape.pages()
}

/// The accounts of the page with this number over the heap: those of shard 0 come first, in their order, then those of
/// shard 1, and so on.
pub fn page_accounts<L: KeyLayout, H: KeepsHeap<L>>(
    whole: &mut WholeOn<L, H>,
    number: u32,
) -> PageAccounts
    requires there { number < all_pages whole.old.heap.shape }
    ensures heap { whole.new.heap ≡ whole.old.heap }
    ensures tale { NotedMore whole.old.view whole.new.view }
    ensures is { IsPage L.layout whole.new number result }
{
    let pages = whole.shape().pages();
    let (shard, page) = (number / pages, number % pages);
    match whole.accounts(shard, page) {
        Some(accounts) => PageAccounts {
            shard,
            page,
            accounts,
        },
        None => unreachable!(),
    }
}

/// The accounts of all pages of the heap, in the order of their numbers, for a loop: `for page in &all`. Refused if
/// there is no memory for the list.
pub fn all_accounts<L: KeyLayout, H: KeepsHeap<L>>(
    alloc: Global,
    whole: &mut WholeOn<L, H>,
) -> Result<Vec<PageAccounts>, AllocError>
    ensures heap { whole.new.heap ≡ whole.old.heap }
    ensures tale { NotedMore whole.old.view whole.new.view }
    ensures all { IfOk result (λ list.
        AreFirst L.layout whole.old whole.new (all_pages whole.old.heap.shape) list.items) }
{
    let mut all = Vec::new(alloc);
    for number in 0..page_count(whole.shape()) {
        all.push(page_accounts(whole, number))?;
    }
    Ok(all)
}
