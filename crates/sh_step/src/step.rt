//! One step, as the table has it.
use crate::Operation;
use sh_shape::Place;

/// The place of the one word that a step touches, and what it does there.
#[derive(Clone, Copy, Debug, PartialEq, Eq)]
pub struct Step {
    /// The place of the word.
    pub place: Place,
    /// What is done with it.
    pub operation: Operation,
}
