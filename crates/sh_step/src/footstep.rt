//! What a pass did.
use crate::Action;
use sh_shape::Place;

/// What a pass did in one step. Only contracts use it: no value of this type is made. The trail of a pass is a list of
/// these, the earliest first.
pub struct Footstep {
    /// What was done.
    pub action: Action,
    /// The place of the one word that was touched. Pages are numbered over the whole heap.
    pub place: Place,
    /// The word that was found, if the operation returns it: a store returns none.
    pub answer: Option<u64>,
}
