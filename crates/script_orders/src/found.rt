//! What an exploration is asked, and what it finds.
ghost use Rattle.std.specs.Prelude.{◌≡◌};
ghost use Rattle.script_orders.specs.Bytes.{counted, found_bytes};

use crate::orders::Orders;
use sh_shape::Shape;
use sh_step::Event;

/// What is explored: a heap, what is done first, and the lines that are done in every order.
#[derive(Clone, Copy)]
pub struct Program<'s> {
    /// The heap.
    pub shape: Shape,
    /// What is done first, in this order.
    pub before: &'s [Event],
    /// The lines: each pass does its own in their order.
    pub lines: &'s [Event],
    /// Whether what the pages have at the end belongs to an outcome.
    pub accounts: bool,
    /// How many states may be met.
    pub limit: u64,
    /// How many bytes the states after two numbers of steps, one after the other, and the outcomes may take.
    pub bytes: u64,
}

/// An outcome.
#[derive(Drop)]
pub struct Found {
    /// The reply lines of each pass, one pass after the other.
    pub replies: Vec<Vec<u8>>,
    /// The account lines at the end; none if they do not belong to an outcome.
    pub pages: Vec<u8>,
    /// How many orders of the steps lead to it.
    pub orders: Orders,
    /// One of them, as the numbers of all lines, from 0. A line that is skipped comes just before the next one of its
    /// pass that is done, or at the end.
    pub witness: Vec<usize>,
    /// The passes of its steps that are done, in order.
    pub passes: Vec<u32>,
}

/// All that there is.
#[derive(Drop)]
pub struct Whole {
    /// How many states were met: of those after the same number of steps each is counted once.
    pub states: u64,
    /// How many of them are ends, in which no pass has a step left.
    pub ends: u64,
    /// How many orders of the steps there are.
    pub orders: Orders,
    /// The outcomes, in the order in which they were met.
    pub found: Vec<Found>,
    /// How many bytes the outcomes take.
    pub bytes: u64,
}

/// A limit of an exploration.
#[derive(Clone, Copy, Debug, PartialEq, Eq)]
pub enum Limit {
    /// How many states may be met.
    States,
    /// How many bytes may be taken.
    Bytes,
}

/// How far an exploration came that met more states than it may, or took more bytes.
#[derive(Clone, Copy, Debug, PartialEq, Eq)]
pub struct Cut {
    /// The limit that it passed.
    pub limit: Limit,
    /// How many states after fewer steps than these were met.
    pub states: u64,
    /// The number of steps after which there are too many.
    pub steps: u64,
}

/// What came of an exploration.
#[derive(Drop)]
pub enum Explored {
    /// It met all states.
    Whole(Whole),
    /// It met too many.
    Cut(Cut),
}

// The bytes of an outcome, with its blocks of memory.
const FOUND_BYTES: u64 = 192;

impl Found {
    /// How many bytes it takes.
    pub fn bytes(&self) -> u64
        ensures { result ≡ counted (found_bytes self.now) }
    {
        let order = 12u64.saturating_mul(self.witness.len() as u64);
        let mut bytes = FOUND_BYTES
            .saturating_add(order)
            .saturating_add(self.pages.len() as u64);
        for lines in &self.replies {
            bytes = bytes.saturating_add(lines.len() as u64).saturating_add(40);
        }
        bytes
    }
}
