//! The numbers of `shardheap.h`.
pub const OK: u32 = 0;

pub const BAD_KEY: u32 = 1;

pub const GONE: u32 = 2;

pub const CROWDED: u32 = 3;

pub const HOLDS_FULL: u32 = 4;

pub const NOT_HELD: u32 = 5;

pub const TOO_LONG: u32 = 6;

pub const FULL: u32 = 7;

pub const MEMORY: u32 = 8;

pub const TAKEN: u32 = 9;

pub const NO_SHARD: u32 = 10;

pub const BAD_SHAPE: u32 = 12;

pub const EMPTY: u32 = 14;

pub const OCCUPIED: u32 = 15;

pub const NO_PASS: u32 = 16;

pub const SHORT: u32 = 17;

pub const BAD_LAYOUT: u32 = 19;

pub const OWNS: u32 = 20;

pub const AWAY: u32 = 21;

pub const NO_PAGE: u32 = 22;

pub const NO_KEY: u32 = 28;

/// The layout with 4 shards of 16 pages. A slot serves 3 values, and a key has at most 4 holds.
pub const TINY: u32 = 3;
