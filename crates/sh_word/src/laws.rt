//! What the heap's operations on a state word do to what it says.

ghost use Rattle.sh_word.specs.Laws.{AddingRaisesCount, SubtractingLowersCount, OrMarks, OrMakesPresent};

use crate::{MARK_BIT, PRESENT_BIT};

/// Each operation changes one field of what a word says and leaves the others. It adds 1 while the count has room,
/// subtracts 1 while it is above 0, or sets either flag.
pub fn operations_change_one_field()
    ensures add { AddingRaisesCount }
    ensures subtract { SubtractingLowersCount }
    ensures mark { OrMarks MARK_BIT }
    ensures publish { OrMakesPresent PRESENT_BIT }
{}
