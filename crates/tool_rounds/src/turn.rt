//! What a pass does next.
use tool_judge::dice::Dice;

/// A turn of a pass.
#[derive(Clone, Copy, Debug, PartialEq, Eq)]
pub enum Turn {
    /// Gets a key that a thread left on the board.
    Get,
    /// Gets by a guard a key that a thread left on the board, and reads its value.
    Guard,
    /// Gets or looks at a number that may be a key.
    Guess,
    /// Reads what it holds.
    Read,
    /// Releases a hold.
    Release,
    /// Removes a key that a thread left on the board.
    Remove,
    /// Removes a key that it holds.
    RemoveHeld,
    /// Looks at a key that a thread left on the board.
    Look,
    /// The same, by a call that gets the value lent.
    With,
    /// Removes a key that a thread left on the board, and gets its value, by one call.
    Take,
    /// Begins a call by hand.
    Begin,
    /// Adopts a shard.
    Adopt,
    /// Inserts a value.
    Insert,
    /// Collects what others freed in its shard.
    Collect,
    /// Gives a page of its shard a class.
    Prepare,
    /// Leaves its shard.
    Leave,
}

impl Turn {
    /// The turn in a round whose calls report ends. A guard and a take do not, so it is a get or a removal instead.
    pub fn telling(self) -> Turn {
        match self {
            Turn::Guard => Turn::Get,
            Turn::Take => Turn::Remove,
            turn => turn,
        }
    }
}

/// The next turn of a pass that owns no shard.
pub fn of_lone(dice: &mut Dice) -> Turn {
    match dice.below(38) {
        0..6 => Turn::Get,
        6..9 => Turn::Guard,
        9..13 => Turn::Read,
        13..20 => Turn::Release,
        20 => Turn::Remove,
        21 => Turn::RemoveHeld,
        22 => Turn::Guess,
        23..29 => Turn::Begin,
        32..36 => Turn::Look,
        36 => Turn::With,
        37 => Turn::Take,
        _ => Turn::Adopt,
    }
}

/// The next turn of an owner.
pub fn of_owner(dice: &mut Dice) -> Turn {
    match dice.below(40) {
        0..4 => Turn::Get,
        4..6 => Turn::Guard,
        6..9 => Turn::Read,
        9..14 => Turn::Release,
        14 => Turn::Remove,
        15 => Turn::RemoveHeld,
        16 => Turn::Guess,
        17..31 => Turn::Insert,
        32..35 => Turn::Look,
        35 => Turn::With,
        36 => Turn::Take,
        37 | 38 => Turn::Collect,
        39 => Turn::Prepare,
        _ => Turn::Leave,
    }
}
