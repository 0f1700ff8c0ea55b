//! What the pages must hold by the answers.
ghost use Rattle.std.specs.Prelude.{◌≡◌, ◌==◌, ◌↔◌, IsTrue, IfOk, IfErr, OnOk, OnErr, true, false, slice_get};
ghost use Rattle.tool_judge.specs.Pages.{IsAsTallied, HasNoRoom, with_slot};
ghost use Rattle.tool_judge.specs.Tallies.{page_place, is_inserted, is_removed, holds_on, CountsSlot};
ghost use Rattle.tool_judge.specs.Tallies.{CountsNothing, NamesNoPage};

use crate::fault::{Fault, Wrong};
use history_timed::Call;
use sh_core::Accounts;
use sh_key::{KeyLayout, Parts};
use sh_shape::{CLASS_COUNT, Shape, slots};
use std::alloc::{AllocError, Global};

/// The number of slots of a page that must be of each kind.
#[derive(Clone, Copy, Debug, PartialEq, Eq)]
pub struct PageTally {
    /// Slots with a value that was inserted and not removed.
    pub live: u64,
    /// Slots with a value that was removed and is held.
    pub marked: u64,
    /// Slots whose last value was removed and is not held.
    pub retired: u64,
}

/// The tallies of all pages of a heap, or of a chunk of a heap that grows.
#[derive(Drop)]
pub struct Tally {
    pages: Vec<PageTally>,
    pages_of_shard: u32,
}

impl Tally {
    /// The tallies of a heap in which nothing was inserted.
    pub fn new(alloc: Global, shape: &Shape) -> Result<Tally, AllocError>
        ensures { IfOk result (λ tally. CountsNothing shape.now tally) }
    {
        let none = PageTally {
            live: 0,
            marked: 0,
            retired: 0,
        };
        let mut pages = Vec::new(alloc);
        for _ in 0..u64::from(shape.shards()).saturating_mul(u64::from(shape.pages())) {
            pages.push(none)?;
        }
        Ok(Tally {
            pages,
            pages_of_shard: shape.pages(),
        })
    }

    // The place of a page.
    fn place(&self, shard: u32, page: u32) -> usize
        ensures { result ≡ page_place self.now shard page }
    {
        u64::from(shard)
            .saturating_mul(u64::from(self.pages_of_shard))
            .saturating_add(u64::from(page)) as usize
    }

    /// Counts the slot of a key, by all calls on the key. The layout's key in the chunk is `within`: the key itself, if
    /// the heap does not grow.
    pub fn add<L: KeyLayout>(&mut self, key: u64, within: u64, calls: &[Call]) -> Result<(), Fault>
        // A key that was not inserted has no slot.
        ensures not_inserted { is_inserted key calls.now ≡ false → self.new ≡ self.old }
        ensures inserted { OnOk result
            (is_inserted key calls.now ≡ true → CountsSlot L.layout self.old self.new key within calls.now) }
        ensures err { OnErr result (self.new ≡ self.old) }
        ensures why { IfErr result (λ fault. (fault ≡ Fault.Wrong (Wrong.NoKey key))
            × NamesNoPage L.layout self.old key within calls.now) }
    {
        if !is_inserted(calls, key) {
            return Ok(());
        }
        let Some(parts) = L::unpack(within) else {
            return Err(Fault::Wrong(Wrong::NoKey(key)));
        };
        let place = self.place(parts.shard, parts.page);
        let Some(page) = self.pages.get_mut(place) else {
            return Err(Fault::Wrong(Wrong::NoKey(key)));
        };
        count::<L>(page, parts, is_removed(calls, key), holds_on(calls, key));
        Ok(())
    }

    /// The tally of a page.
    pub fn of(&self, shard: u32, page: u32) -> Option<PageTally>
        ensures { result ≡ slice_get self.now.pages.items (page_place self.now shard page) }
    {
        self.pages.get(self.place(shard, page)).copied()
    }
}

// Whether the key was inserted.
fn is_inserted(calls: &[Call], key: u64) -> bool
    ensures { result ≡ is_inserted key calls.now }
{
    calls.iter().any(|call| call.said.inserts(key))
}

/// Whether the key was removed.
pub fn is_removed(calls: &[Call], key: u64) -> bool
    ensures { result ≡ is_removed key calls.now }
{
    calls.iter().any(|call| call.said.removes(key))
}

/// How many holds on the key are left.
pub fn holds_on(calls: &[Call], key: u64) -> usize
    ensures { result ≡ holds_on key calls.now }
{
    let got = calls.iter().filter(|call| call.said.gets(key)).count();
    let released = calls.iter().filter(|call| call.said.releases(key)).count();
    got.saturating_sub(released)
}

// Counts the slot of a key by these facts. A slot whose value was removed and is not held is empty, unless the value
// was its last one.
fn count<L: KeyLayout>(page: &mut PageTally, parts: Parts, removed: bool, holds: usize)
    ensures { page.new ≡ with_slot removed holds (parts.generation == L.layout.gen_max) page.old }
{
    if !removed {
        page.live = page.live.saturating_add(1);
    } else if holds > 0 {
        page.marked = page.marked.saturating_add(1);
    } else if parts.generation == L::GEN_MAX {
        page.retired = page.retired.saturating_add(1);
    }
}

/// Whether a page of a shard that was full for this class has no room for it. The page has another class, or it has
/// this class and no queued slot. A page of another class may have slots that its owner has yet to collect.
pub fn is_filled(accounts: &Accounts, class: u32) -> bool
    ensures { IsTrue result ↔ HasNoRoom accounts.now class }
{
    match accounts.class {
        None => false,
        Some(own) => own != class || accounts.queued == 0,
    }
}

/// Whether the accounts of a page are those of its tally and add up to the slots of its class, and no slot is an
/// owner's or in a hand.
pub fn agrees(accounts: &Accounts, tally: PageTally) -> bool
    ensures { IsTrue result ↔ IsAsTallied accounts.now tally }
{
    let sum = u64::from(accounts.live)
        + u64::from(accounts.marked)
        + u64::from(accounts.retired)
        + u64::from(accounts.queued);
    let all = match accounts.class {
        Some(class) if u64::from(class) < CLASS_COUNT => u64::from(slots(class)),
        _ => 0,
    };
    u64::from(accounts.live) == tally.live
        && u64::from(accounts.marked) == tally.marked
        && u64::from(accounts.retired) == tally.retired
        && accounts.mine == 0
        && accounts.hand == 0
        && sum == all
}
