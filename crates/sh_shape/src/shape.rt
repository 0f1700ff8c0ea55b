//! The shape of a heap.
ghost use Rattle.std.specs.Prelude.{◌≡◌, ◌↔◌, ◌^◌, IfOk, IfErr, IsOk, IsTrue};
ghost use Rattle.sh_shape.specs.Shape.{Numbers, IsShape, IsSmallShape, Fits};

use sh_key::KeyLayout;
use sh_value::Refusal;
use std::marker::Model;

// How many segments all shards of a heap may have together, and those of a small heap.
pub(crate) const MOST_SEGMENTS: u64 = 1 << 21;

const FEW_SEGMENTS: u64 = 256;

const MOST_PASSES: u32 = 64;

/// How many shards a heap has, how many segments of 8 pages each shard has, and how many passes there are. A contract
/// sees the three numbers, which are within the limits.
#[derive(Clone, Copy, Debug, PartialEq, Eq)]
pub struct Shape {
    shards: u32,
    segments: u32,
    passes: u32,
}

impl Model for Shape {
    ghost use Rattle.sh_shape.specs.Shape.{Numbers, IsShape};

    ghost Value = { Numbers };

    ghost view = { λ s. record { shards = s.shards; segments = s.segments; passes = s.passes } };

    ghost invariant = { λ s. IsShape (record { shards = s.shards; segments = s.segments; passes = s.passes }) };

    ghost inverse = { λ n. record { shards = n.shards; segments = n.segments; passes = n.passes } };
}

impl Shape {
    /// The small shape with these numbers: at least one of each, at most 256 segments in all shards together, at most
    /// 64 passes. Otherwise it is refused as `BadShape`. Scripts name these shapes; `Shape::large` takes larger ones.
    ///
    /// ```text
    /// let shape = Shape::new(2, 128, 64)?;
    /// assert_eq!(shape.pages(), 1024); // of each of the two shards
    /// assert_eq!(Shape::new(2, 129, 64), Err(Refusal::BadShape)); // 258 segments
    /// ```
    pub fn new(shards: u32, segments: u32, passes: u32) -> Result<Shape, Refusal>
        ensures numbers { IfOk result (λ shape. shape ≡ record
            { shards = shards; segments = segments; passes = passes }) }
        ensures within { IsOk result ↔ IsSmallShape (record
            { shards = shards; segments = segments; passes = passes }) }
        ensures outside { IfErr result (λ refusal. refusal ≡ Refusal.BadShape) }
    {
        if shards as u64 * segments as u64 > FEW_SEGMENTS {
            return Err(Refusal::BadShape);
        }
        Self::large(shards, segments, passes)
    }

    /// The shape with these numbers: at least one of each, at most 2,097,152 segments in all shards together, which are
    /// 16,777,216 pages, at most 64 passes. Otherwise it is refused as `BadShape`. `fits` returns whether a layout has
    /// numbers for its shards and pages.
    ///
    /// ```text
    /// let shape = Shape::large(256, 128, 64)?;
    /// assert!(fits::<Wide>(&shape)); // 262,144 pages
    /// assert_eq!(Shape::large(1, 2_097_153, 1), Err(Refusal::BadShape));
    /// ```
    pub fn large(shards: u32, segments: u32, passes: u32) -> Result<Shape, Refusal>
        ensures numbers { IfOk result (λ shape. shape ≡ record
            { shards = shards; segments = segments; passes = passes }) }
        ensures within { IsOk result ↔ IsShape (record { shards = shards; segments = segments; passes = passes }) }
        ensures outside { IfErr result (λ refusal. refusal ≡ Refusal.BadShape) }
    {
        let some = 1 <= shards && 1 <= segments && 1 <= passes;
        if some && shards as u64 * segments as u64 <= MOST_SEGMENTS && passes <= MOST_PASSES {
            Ok(Shape {
                shards,
                segments,
                passes,
            })
        } else {
            Err(Refusal::BadShape)
        }
    }

    /// How many shards, at least 1.
    pub fn shards(&self) -> u32
        ensures shards { result ≡ self.now.shards }
        ensures shape { IsShape self.now }
    {
        self.shards
    }

    /// How many segments a shard has, at least 1: a segment is 8 pages.
    pub fn segments(&self) -> u32
        ensures segments { result ≡ self.now.segments }
        ensures shape { IsShape self.now }
    {
        self.segments
    }

    /// How many passes, from 1 to 64.
    pub fn passes(&self) -> u32
        ensures passes { result ≡ self.now.passes }
        ensures shape { IsShape self.now }
    {
        self.passes
    }
}

/// Whether each shard and page of the shape has a number in the layout.
pub fn fits<L: KeyLayout>(shape: &Shape) -> bool
    ensures { IsTrue result ↔ Fits L.layout shape.now }
{
    let shards = shape.shards() as u64;
    let pages = shape.pages() as u64;
    shards <= 1 << L::SHARD_BITS && pages <= 1 << L::PAGE_BITS
}
