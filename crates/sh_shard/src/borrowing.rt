//! Shards that borrow their heap.
use crate::{pages, shard};
use sh_pass::Heap;

/// A shard that a pass owns, on a heap that it borrows: its owner inserts into it, and gets, reads, removes and
/// releases as any pass does.
pub type Shard<'a, L> = shard::ShardOn<L, &'a Heap<L>>;

/// The pages of an owner's shard, on a heap that it borrows.
pub type Pages<'a, L> = pages::PagesOn<L, &'a Heap<L>>;
