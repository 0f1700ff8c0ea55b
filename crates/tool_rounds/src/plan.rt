//! The plan of a round: which heap it has, and how it ends.
use crate::options::Options;
use tool_judge::dice::Dice;

/// The greatest number of slots that are filled in a row: those of 8 segments, each of 8 pages of at most 48 slots. A
/// shard has at most four segments, and the chunks of a heap that grows have at most eight together.
pub const MOST_SLOTS: u32 = 8 * 8 * 48;

/// The layout of the keys of a round's heap, or that it grows.
#[derive(Clone, Copy, Debug, PartialEq, Eq)]
pub enum Layout {
    /// Few generations and few holds for each slot.
    Tiny,
    /// Many of both.
    Wide,
    /// Many pages in a shard.
    Deep,
    /// Keys with room for 8 bits of the user's.
    Tagged,
    /// A heap that grows, with keys of its chunks.
    Growing,
}

/// The names of the layouts.
pub const LAYOUT_NAMES: &[&str] = &["tiny", "wide", "deep", "tagged", "growing"];

/// The layout with this name.
pub fn layout_named(name: &str) -> Option<Layout> {
    match name {
        "tiny" => Some(Layout::Tiny),
        "wide" => Some(Layout::Wide),
        "deep" => Some(Layout::Deep),
        "tagged" => Some(Layout::Tagged),
        "growing" => Some(Layout::Growing),
        _ => None,
    }
}

/// The sizes of a round.
#[derive(Clone, Copy, Debug, PartialEq, Eq)]
pub struct Plan {
    /// The layout of the heap's keys.
    pub layout: Layout,
    /// The number of threads.
    pub threads: u32,
    /// The number of passes of each thread.
    pub passes: u32,
    /// The number of shards of the heap, or of its first chunk.
    pub shards: u32,
    /// The number of segments of a shard of the heap, or of its first chunk.
    pub segments: u32,
    /// How many chunks the heap may have: one, unless it grows.
    pub chunks: u32,
    /// The number of turns that each thread takes.
    pub steps: u64,
    /// Whether its calls report which keys they end.
    pub tells_ends: bool,
}

impl Plan {
    /// The number of passes of the heap.
    pub fn all_passes(&self) -> u32 {
        self.threads.saturating_mul(self.passes)
    }
}

// The layout of the round of this number. Every second round has the layout in which most limits are reached.
fn layout_of(round: u64) -> Layout {
    match round % 8 {
        1 => Layout::Wide,
        3 => Layout::Deep,
        5 => Layout::Tagged,
        7 => Layout::Growing,
        _ => Layout::Tiny,
    }
}

// The numbers of threads and of passes of each thread. With many passes any refusal as crowded is legal in the layout
// with few holds, since each of them may be on its way. So some of those rounds have one to three passes in all.
fn crew(options: &Options<'_>, layout: Layout, dice: &mut Dice) -> (u32, u32) {
    if layout != Layout::Tiny || !dice.once_in(3) {
        return (options.threads, options.passes);
    }
    let few = 1 + dice.below(3) as u32;
    if options.threads == 1 {
        (1, few.min(options.passes))
    } else {
        (few.min(options.threads), 1)
    }
}

// The numbers of shards and of segments of each shard. Most heaps are small, so that threads meet on their slots. The
// first chunk of a heap that grows is small too, so that a round opens several.
fn sizes(layout: Layout, dice: &mut Dice) -> (u32, u32) {
    if layout == Layout::Growing {
        return (1 + dice.below(2) as u32, 1);
    }
    if !dice.once_in(4) {
        return (1 + dice.below(3) as u32, 1 + dice.below(2) as u32);
    }
    if layout == Layout::Tiny {
        return (1 + dice.below(4) as u32, 2);
    }
    (1 + dice.below(8) as u32, 1 + dice.below(4) as u32)
}

// How many chunks the heap may have. Of a heap that grows the first five have at most eight shards together.
fn chunks(layout: Layout, dice: &mut Dice) -> u32 {
    if layout == Layout::Growing {
        2 + dice.below(4) as u32
    } else {
        1
    }
}

/// The plan of the round of this number, from 0, by the options and the dice.
pub fn plan_of(options: &Options<'_>, round: u64, dice: &mut Dice) -> Plan {
    let layout = options.layout.unwrap_or(layout_of(round));
    let (threads, passes) = crew(options, layout, dice);
    let (shards, segments) = sizes(layout, dice);
    let chunks = chunks(layout, dice);
    Plan {
        layout,
        threads,
        passes,
        shards,
        segments,
        chunks,
        steps: options.steps,
        tells_ends: dice.once_in(2),
    }
}
