//! The result of a run.
use std::io;
use std::io::Write;

/// The counts of what all threads did together.
#[derive(Clone, Copy, Debug, PartialEq, Eq)]
pub struct Story {
    /// The number of values that were inserted.
    pub inserted: usize,
    /// The number of them that another thread read and found right.
    pub right: usize,
    /// The number of keys that were removed.
    pub removed: usize,
    /// The number of values that were inserted in their place.
    pub again: usize,
    /// The number of shards that were filled, wholly or in part, the first time and the second.
    pub shards: u64,
    pub shards_again: u64,
    /// The number of old keys that found something to remove.
    pub stale: usize,
    /// The number of values of the second time that were right.
    pub right_again: usize,
    /// The number of values of the heap at the end, or `None` if not all passes are joined.
    pub left: Option<u32>,
}

impl Story {
    /// Whether all counts are right for `values` values.
    pub fn is_of(&self, values: usize) -> bool {
        let first = self.inserted == values && self.right == values && self.removed == values;
        let second = self.again == values && self.right_again == values && self.stale == 0;
        first
            && second
            && self.shards == self.shards_again
            && self.left == u32::try_from(values).ok()
    }

    /// Writes all counts.
    pub fn tell<W: Write>(&self, output: &mut W) -> io::Result<()> {
        writeln!(output, "inserted {}", self.inserted)?;
        writeln!(output, "read right {}", self.right)?;
        writeln!(output, "removed {}", self.removed)?;
        writeln!(output, "inserted again {}", self.again)?;
        writeln!(output, "removed by an old key {}", self.stale)?;
        writeln!(output, "read right again {}", self.right_again)?;
        writeln!(output, "shards used {}", self.shards)?;
        writeln!(output, "shards used again {}", self.shards_again)?;
        match self.left {
            Some(left) => writeln!(output, "values in the heap {left}"),
            None => writeln!(output, "not all passes met"),
        }
    }
}
