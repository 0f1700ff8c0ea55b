//! The shapes of chunks.
ghost use Rattle.std.specs.Prelude.{◌≡◌, ◌≤◌};
ghost use Rattle.sh_shape.specs.Shape.{Fits};
ghost use Rattle.sh_chunk.specs.Chunks.{chunked};
ghost use Rattle.sh_grown.specs.ChunkShapes as shapes;

use sh_shape::Shape;

// How often every second chunk is twice as large as those before it.
const MOST_DOUBLINGS: u32 = 15;

// How often it has twice as many shards.
const SHARD_DOUBLINGS: u32 = 6;

fn doublings(number: u8) -> u32
    ensures { result ≡ shapes.doublings number }
{
    let pairs = (number as u32).saturating_sub(1) / 2;
    pairs.min(MOST_DOUBLINGS)
}

/// The shape of the chunk of this number, from 0, in a growing heap with this many passes, from 1 to 64.
///
/// The first chunk has 2 shards of one segment, and the next two have one. From there on every second chunk is twice as
/// large: first the shards double, up to 64, then the segments of each shard, up to 512. So chunk n + 1 has at most
/// half as many segments as the chunks before it together. A segment has 8 pages of 48 values of one word.
///
/// ```text
/// let shape = chunk_shape(9, 64);     // 16 shards of one segment
/// let last = chunk_shape(255, 64);    // 64 shards of 512 segments
/// ```
#[tactic(auto, using(crate::proofs::Shapes::power_fits))]
pub fn chunk_shape(number: u8, passes: u32) -> Shape
    requires some { 1 ≤ passes }
    requires few { passes ≤ 64 }
    ensures shape { result ≡ shapes.shape_of number passes }
    ensures fits { Fits chunked result }
{
    let doublings = doublings(number);
    let shards = if number == 0 {
        2
    } else {
        1 << doublings.min(SHARD_DOUBLINGS)
    };
    let segments = 1 << doublings.saturating_sub(SHARD_DOUBLINGS);
    match Shape::large(shards, segments, passes) {
        Ok(shape) => shape,
        Err(_) => unreachable!(),
    }
}
