//! The queues of an owner's pages.
ghost use Rattle.std.specs.Prelude.{◌≡◌, ◌≢◌, ℕ, ◌+◌, ◌-◌, ◌*◌, ◌^◌, ◌<◌, ◌≤◌, ◌++◌, true, false, length};
ghost use Rattle.std.specs.Prelude.{max, replicate, None, slice_get, IfSome, IfOk, IfErr, OnOk, OnErr};
ghost use Rattle.std.specs.List.{last_or};
ghost use Rattle.std.specs.Vec.{vec_capacity};
ghost use Rattle.sh_shape.specs.Classes.{class_count};
ghost use Rattle.sh_shape.specs.Shape.{segment_pages};
ghost use Rattle.sh_queue.specs.Numbers.{has_number};
ghost use Rattle.sh_queue.specs.Chain.{ChainNumbers};
ghost use Rattle.sh_queue.specs.Queues.{EachOnce, page_numbered, class_queue, none_opened, at_front, at_back};
ghost use Rattle.sh_queue.specs.Queues.{among_full, one_more_segment};

use crate::chain::Chain;
use crate::filing::Filing;
use sh_shape::SEGMENT_PAGES;
use sh_value::Refusal;
use std::alloc::{AllocError, Global};
use std::marker::Model;

// All queues are one chain. A number below 11 marks the beginning of a queue. 0 to 7 are ahead of the queues of the
// classes, and these two ahead of the full queue and of the blank pages. The last number of the chain is behind these.
// Page p is the number 11 + p.
const FULL: u32 = 8;

pub(crate) const BLANK: u32 = 9;

pub(crate) const FIRST_PAGE: u32 = 11;

/// The pages that an owner has opened, in queues.
///
/// A page is a number. Pages are opened 8 at a time, which is a segment, in ascending order. An opened page is blank,
/// in the queue of one class from 0 to 7, or in the full queue. Queues begin with no page, or as a `Filing`, which
/// takes memory once for all pages that are opened then. Later only `open_segment` takes memory, for one segment at a
/// time.
///
/// ```
/// let mut queues = Queues::new(alloc, 2)?;
/// let first = queues.open_segment()?; // 0: pages 0 to 7 are opened, and blank
/// queues.to_front(3, first);
/// assert_eq!((queues.front(3), queues.blank()), (Some(0), Some(1)));
/// ```
#[derive(Drop)]
pub struct Queues {
    pub(crate) chain: Chain,
    // For each opened page, whether it is in the full queue.
    pub(crate) full: Vec<bool>,
    pub(crate) opened: u32,
    pub(crate) unopened: u32,
}

impl Model for Queues {
    ghost use Rattle.sh_queue.specs.Queues.{PageQueues, queues_shown, KeepsQueues};

    ghost Value = { PageQueues };

    ghost view = { λ q. queues_shown q.chain.numbers q.opened q.unopened };

    ghost invariant = { λ q. KeepsQueues q.chain.numbers q.chain.size q.opened q.unopened q.full.items };
}

impl Queues {
    /// No page is opened yet, of this many segments, at most 2^21. Refused as `Memory`.
    pub fn new(alloc: Global, segments: u32) -> Result<Self, Refusal>
        requires { segments ≤ 2 ^ 21 }
        ensures ok { IfOk result (λ queues. queues ≡ none_opened segments) }
        ensures err { IfErr result (λ refusal. refusal ≡ Refusal.Memory) }
    {
        let filing = Filing::new(alloc, 0, segments)?;
        Ok(filing.into_queues())
    }

    /// The number of opened pages, which are the pages 0 to `opened() - 1`.
    pub fn opened(&self) -> u32
        ensures opened { result ≡ self.now.opened }
        ensures few { self.now.opened + segment_pages * self.now.unopened ≤ 2 ^ 24 }
        ensures once { EachOnce self.now }
    {
        self.opened
    }

    /// The number of segments that are not opened yet.
    pub fn unopened(&self) -> u32
        ensures { result ≡ self.now.unopened }
    {
        self.unopened
    }

    /// Opens the next segment, which must exist, and returns the first of its 8 pages, which are blank. Refused as
    /// `Memory`, with nothing changed.
    pub fn open_segment(&mut self) -> Result<u32, Refusal>
        requires { self.old.unopened ≢ 0 }
        ensures first { IfOk result (λ first. first ≡ self.old.opened) }
        ensures ok { OnOk result (self.new ≡ one_more_segment self.old) }
        ensures err { OnErr result (self.new ≡ self.old) }
        ensures memory { IfErr result (λ refusal. refusal ≡ Refusal.Memory) }
    {
        let first = self.opened;
        match make_room(&mut self.chain, &mut self.full, first + SEGMENT_PAGES) {
            Ok(()) => {
                self.chain.append(FIRST_PAGE + first, SEGMENT_PAGES);
                self.opened += SEGMENT_PAGES;
                self.unopened -= 1;
                Ok(first)
            }
            Err(_) => Err(Refusal::Memory),
        }
    }

    /// The lowest blank page.
    pub fn blank(&self) -> Option<u32>
        ensures front { result ≡ slice_get self.now.blank 0 }
        ensures lowest { IfSome result (λ page. (other : ℕ) → has_number other self.now.blank ≡ true → page ≤ other) }
        ensures opened { IfSome result (λ page. page < self.now.opened) }
    {
        page_of(self.chain.following(BLANK))
    }

    /// The front page of a class.
    pub fn front(&self, c: u32) -> Option<u32>
        requires { c < class_count }
        ensures front { result ≡ slice_get (class_queue self.now c) 0 }
        ensures opened { IfSome result (λ page. page < self.now.opened) }
    {
        page_of(self.chain.following(c))
    }

    /// The last page of a class.
    pub fn last(&self, c: u32) -> Option<u32>
        requires { c < class_count }
        ensures last { result ≡ last_or None (class_queue self.now c) }
        ensures opened { IfSome result (λ page. page < self.now.opened) }
    {
        page_of(self.chain.preceding(c + 1))
    }

    /// Whether an opened page is in the full queue.
    pub fn in_full(&self, page: u32) -> bool
        requires { page < self.now.opened }
        ensures { result ≡ has_number page self.now.full }
    {
        self.full[page as usize]
    }

    /// Moves an opened page, from wherever it is, to the front of a class.
    pub fn to_front(&mut self, c: u32, page: u32)
        requires class { c < class_count }
        requires opened { page < self.old.opened }
        ensures { self.new ≡ at_front c page self.old }
    {
        self.full[page as usize] = false;
        let number = FIRST_PAGE + page;
        self.chain.unlink(number);
        self.chain.put_after(c, number);
    }

    /// Moves an opened page, from wherever it is, to the back of a class.
    pub fn to_back(&mut self, c: u32, page: u32)
        requires class { c < class_count }
        requires opened { page < self.old.opened }
        ensures { self.new ≡ at_back c page self.old }
    {
        self.full[page as usize] = false;
        let number = FIRST_PAGE + page;
        self.chain.unlink(number);
        self.chain.put_before(c + 1, number);
    }

    /// Moves an opened page, from wherever it is, to the back of the full queue.
    pub fn to_full(&mut self, page: u32)
        requires { page < self.old.opened }
        ensures { self.new ≡ among_full page self.old }
    {
        self.full[page as usize] = true;
        let number = FIRST_PAGE + page;
        self.chain.unlink(number);
        self.chain.put_before(FULL + 1, number);
    }
}

// Makes room for this many pages. If memory is refused, the pages and the notes on them stay as they were.
fn make_room(chain: &mut Chain, full: &mut Vec<bool>, pages: u32) -> Result<(), AllocError>
    requires few { pages ≤ 2 ^ 24 }
    requires more { length full.old.items ≤ pages }
    ensures same { chain.new.numbers ≡ chain.old.numbers }
    ensures kept { chain.old.size ≤ chain.new.size }
    ensures room { OnOk result (11 + pages ≤ chain.new.size) }
    ensures lean { chain.new.size ≤ max chain.old.size (11 + pages) }
    ensures notes { OnOk result (full.new.items ≡ full.old.items ++ replicate (pages - length full.old.items) false) }
    ensures err { OnErr result (full.new.items ≡ full.old.items) }
{
    chain.grow((FIRST_PAGE + pages) as usize)?;
    note_none(full, pages)
}

// Adds notes that pages are not full, behind the last page noted, up to this many. If memory is refused, no note is
// added.
fn note_none(full: &mut Vec<bool>, pages: u32) -> Result<(), AllocError>
    requires { length full.old.items ≤ pages }
    ensures longer { OnOk result (full.new.items ≡ full.old.items ++ replicate (pages - length full.old.items) false) }
    ensures same { OnErr result (full.new.items ≡ full.old.items) }
    // It asks for no more room than for these.
    ensures lean { OnErr result (vec_capacity full.old < pages) }
{
    full.resize(pages as usize, false)
}

// The page that a number of the chain means. A mark means none.
fn page_of(number: u32) -> Option<u32>
    ensures { result ≡ page_numbered number }
{
    if number < FIRST_PAGE {
        None
    } else {
        Some(number - FIRST_PAGE)
    }
}
