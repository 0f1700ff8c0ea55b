//! The accounts of a heap as a whole.
ghost use Rattle.std.specs.Prelude.{◌≡◌};
ghost use Rattle.sh_whole.specs.Homes.{GathersPool, TellsAccounts, TellsTotals};
ghost use Rattle.c_handles.specs.Heaps.{heap_layout, heap_of};
ghost use Rattle.c_handles.specs.HeldHeaps.{OnWhole};
ghost use Rattle.c_exports.specs.WholeHeap.{HeapAsked, HeapTells, page_report, sums_report, told_code, told_in};
ghost use Rattle.c_exports.specs.WholeHeap.{why_code};

use crate::codes::{AWAY, EMPTY, NO_PAGE, OK};
use c_handles::HeapHandle;
use sh_core::Accounts;
use sh_gather::Totals;
use sh_value::Refusal;
use sh_whole::NotTold;
use std::alloc::Global;

/// The accounts of a page, as C has them.
#[repr(C)]
#[derive(Clone, Copy)]
pub struct PageReport {
    /// 1 if the page has a class, otherwise 0.
    pub used: u32,
    /// Its class, from 0 to 7, or 0 if it has none.
    pub size_class: u32,
    /// Slots with a value that can be got.
    pub live: u32,
    /// Slots with a value that was removed and is held.
    pub marked: u32,
    /// Slots that are never used again.
    pub retired: u32,
    /// Empty slots.
    pub queued: u32,
}

/// The sums over all pages, as C has them.
#[repr(C)]
#[derive(Clone, Copy)]
pub struct SumsReport {
    /// Slots with a value that can be got.
    pub live: u32,
    /// Slots with a value that was removed and is held.
    pub marked: u32,
    /// Slots that are never used again.
    pub retired: u32,
    /// Empty slots.
    pub queued: u32,
    /// Pages that have a class.
    pub used_pages: u32,
    /// Pages that have none.
    pub blank_pages: u32,
}

// The code of a refusal.
pub(crate) fn why(refusal: NotTold) -> u32
    ensures { result ≡ why_code refusal }
{
    match refusal {
        NotTold::Away => AWAY,
        NotTold::Memory => Refusal::Memory.number(),
        NotTold::NoPage => NO_PAGE,
    }
}

// The code of a result.
fn code_told<T>(answer: &Result<T, NotTold>) -> u32
    ensures { result ≡ told_code answer.now }
{
    match answer {
        Ok(_) => OK,
        Err(refusal) => why(*refusal),
    }
}

// Writes the accounts, if there are any.
fn write_page(answer: &Result<Accounts, NotTold>, told: &mut PageReport)
    ensures { told.new ≡ told_in page_report told.old answer.now }
{
    if let Ok(accounts) = answer {
        let (used, size_class) = match accounts.class {
            Some(class) => (1, class),
            None => (0, 0),
        };
        *told = PageReport {
            used,
            size_class,
            live: accounts.live,
            marked: accounts.marked,
            retired: accounts.retired,
            queued: accounts.queued,
        };
    }
}

// Writes the sums, if there are any.
fn write_sums(answer: &Result<Totals, NotTold>, told: &mut SumsReport)
    ensures { told.new ≡ told_in sums_report told.old answer.now }
{
    if let Ok(totals) = answer {
        *told = SumsReport {
            live: totals.live,
            marked: totals.marked,
            retired: totals.retired,
            queued: totals.queued,
            used_pages: totals.used_pages,
            blank_pages: totals.blank_pages,
        };
    }
}

/// Joins all passes of the heap in one, and puts that one back in its pool slot. It fails if a pass is taken or lost,
/// and for a growing heap.
#[unsafe(no_mangle)]
pub extern "C" fn shardheap_raw_gather(alloc: Global, heap: &mut HeapHandle) -> u32
    ensures { HeapAsked (OnWhole (λ h. GathersPool (heap_of h))) result heap.old.slot.value heap.new.slot.value }
{
    let Some(held) = heap.take(alloc) else {
        return EMPTY;
    };
    let answer = held.gather(alloc);
    *heap = HeapHandle::of(held);
    code_told(&answer)
}

/// Writes the accounts of a page. It needs a pass that carries the tales of all.
#[unsafe(no_mangle)]
pub extern "C" fn shardheap_raw_accounts(
    alloc: Global,
    heap: &mut HeapHandle,
    shard: u32,
    page: u32,
    told: &mut PageReport,
) -> u32
    ensures { HeapTells (OnWhole (λ h. TellsAccounts (heap_layout h) (heap_of h) shard page)) page_report result
        told.old
        told.new heap.old.slot.value heap.new.slot.value }
{
    let Some(held) = heap.take(alloc) else {
        return EMPTY;
    };
    let answer = held.accounts(shard, page);
    *heap = HeapHandle::of(held);
    write_page(&answer, told);
    code_told(&answer)
}

/// Writes the sums over all pages. It needs a pass that carries the tales of all.
#[unsafe(no_mangle)]
pub extern "C" fn shardheap_raw_totals(
    alloc: Global,
    heap: &mut HeapHandle,
    told: &mut SumsReport,
) -> u32
    ensures { HeapTells (OnWhole (λ h. TellsTotals (heap_layout h) (heap_of h))) sums_report result told.old told.new
        heap.old.slot.value heap.new.slot.value }
{
    let Some(held) = heap.take(alloc) else {
        return EMPTY;
    };
    let answer = held.totals();
    *heap = HeapHandle::of(held);
    write_sums(&answer, told);
    code_told(&answer)
}
