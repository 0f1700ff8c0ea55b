//! Programs.
use crate::steps::Steps;
use sh_shape::Shape;

/// A heap, the steps that bring it to a state, and the steps of its passes from there, in any order of the passes.
#[derive(Drop)]
pub struct Program {
    /// The heap.
    pub shape: Shape,
    /// The steps that are done first, in this order.
    pub before: Steps,
    /// The steps that each pass does then, in its own order.
    pub then: Steps,
}
