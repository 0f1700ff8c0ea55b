//! Putting the pages of an owner into their queues, one after the other.
ghost use Rattle.std.specs.Prelude.{◌≡◌, ◌≢◌, ◌+◌, ◌*◌, ◌^◌, ◌<◌, ◌≤◌, false, replicate, IfSome, IfOk, IfErr};
ghost use Rattle.sh_shape.specs.Classes.{class_count};
ghost use Rattle.sh_shape.specs.Shape.{segment_pages};
ghost use Rattle.sh_lists.specs.Numbers.{upward};
ghost use Rattle.sh_queue.specs.Chain.{ChainNumbers};
ghost use Rattle.sh_queue.specs.Queues.{EachOnce, FilingQueues, mark_behind, next_filed, none_opened};

use crate::chain::{Chain, END};
use crate::queues::{BLANK, FIRST_PAGE, Queues};
use sh_shape::SEGMENT_PAGES;
use sh_value::Refusal;
use std::alloc::{AllocError, Global};
use std::marker::Model;

/// Queues that are being filled: pages are filed in ascending order, each straight into the queue where it belongs.
///
/// Memory for all pages is taken at once, by `new`. No other call takes any.
#[derive(Drop)]
pub struct Filing {
    chain: Chain,
    // A note for each page to file that it is not in the full queue.
    full: Vec<bool>,
    filed: u32,
    unopened: u32,
}

impl Model for Filing {
    ghost use Rattle.sh_queue.specs.Queues.{FilingQueues, filing_shown, KeepsFiling};

    ghost Value = { FilingQueues };

    ghost view = { λ f. filing_shown f.chain.numbers f.filed f.unopened f.full.items };

    ghost invariant = { λ f. KeepsFiling f.chain.numbers f.chain.size f.filed f.unopened f.full.items };
}

impl Filing {
    /// No page is filed yet, of those of this many segments; `unopened` more segments stay unopened. There are at most
    /// 2^21 segments in all. Refused as `Memory`.
    pub fn new(alloc: Global, opened: u32, unopened: u32) -> Result<Self, Refusal>
        requires { opened + unopened ≤ 2 ^ 21 }
        ensures ok { IfOk result (λ filing. filing ≡ record {
          queues = none_opened unopened;
          pages = segment_pages * opened;
        }) }
        ensures err { IfErr result (λ refusal. refusal ≡ Refusal.Memory) }
    {
        match room_for(alloc, SEGMENT_PAGES * opened) {
            Ok((chain, full)) => Ok(Filing {
                chain,
                full,
                filed: 0,
                unopened,
            }),
            Err(_) => Err(Refusal::Memory),
        }
    }

    /// The number of pages to file.
    pub fn pages(&self) -> u32
        ensures { result ≡ self.now.pages }
    {
        self.full.len() as u32
    }

    /// Files the next page, which must exist: it is blank, or the last of a class from 0 to 7.
    pub fn file(&mut self, class: Option<u32>)
        requires inside { self.old.queues.opened < self.old.pages }
        requires class { IfSome class (λ c. c < class_count) }
        ensures { self.new ≡ record self.old { queues = next_filed class self.old.queues } }
    {
        self.chain
            .put_before(mark_of(class), FIRST_PAGE + self.filed);
        self.filed += 1;
    }

    /// The queues, once all pages are filed.
    pub fn into_queues(self) -> Queues
        requires { self.queues.opened ≡ self.pages }
        ensures is { result ≡ self.queues }
        ensures once { EachOnce result }
    {
        let Filing {
            chain,
            full,
            filed,
            unopened,
        } = self;
        Queues {
            chain,
            full,
            opened: filed,
            unopened,
        }
    }
}

// The chain of the marks alone, with room for this many pages, and the notes that none of these is full.
fn room_for(alloc: Global, pages: u32) -> Result<(Chain, Vec<bool>), AllocError>
    requires { pages ≤ 2 ^ 24 }
    ensures chain { IfOk result (λ r. r.0 ≡ record { numbers = upward 0 11; size = 11 + pages }) }
    ensures notes { IfOk result (λ r. r.1.items ≡ replicate pages false) }
{
    let mut chain = Chain::new(alloc, (FIRST_PAGE + pages) as usize)?;
    let full = vec![in alloc; false; pages as usize]?;
    chain.append(1, BLANK);
    Ok((chain, full))
}

// The mark behind the pages of a class, or behind the blank pages.
fn mark_of(class: Option<u32>) -> u32
    requires { IfSome class (λ c. c < class_count) }
    ensures is { result ≡ mark_behind class }
    ensures few { result < 11 }
    ensures behind { result ≢ 0 }
{
    match class {
        Some(c) => c + 1,
        None => END,
    }
}
