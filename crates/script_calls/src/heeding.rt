//! Passes that hear of one another before they leave their shards and meet.
ghost use Rattle.std.specs.Prelude.{Option, map};
ghost use Rattle.sh_table.specs.Seats.{Heap};
ghost use Rattle.script_calls.specs.Parts.{RunTerms};
ghost use Rattle.script_calls.specs.Alone.{IsLastOf, HeedsLast};
ghost use Rattle.script_calls.specs.Heeding.{AllHeedInTurn, LastKnows};
ghost use Rattle.script_calls.specs.Meeting.{AllOfHeap};

use crate::side::Side;
use sh_pass::Receipt;

/// Sides that heard of one another, and a receipt of all of them.
#[derive(Drop)]
pub struct HeardSides<S> {
    /// The sides, in order.
    pub sides: Vec<S>,
    /// The receipt of the last side; if there is no side, the receipt that there was before.
    pub last: Option<Receipt>,
}

/// Heeds the receipt, if there is one.
pub fn heed_last<S: Side>(side: &mut S, last: Option<Receipt>)
    requires { IsLastOf (S.seen side.old).heap last }
    ensures { HeedsLast last (S.seen side.old) (S.seen side.new) }
{
    if let Some(receipt) = last {
        side.heed(receipt);
    }
}

/// The sides, each of which has heeded a receipt of the side before, and the first one this receipt. So what each does
/// to leave its shard comes after all that the receipt contains. A receipt of the last side contains all that they did.
pub fn heed_in_turn<S: Side>(sides: Vec<S>, last: Option<Receipt>) -> HeardSides<S>
    ghost at: { Option Heap × RunTerms }
    requires of { AllOfHeap at.0 at.1 (map S.seen sides.items) }
    requires last { IsLastOf at.0 last }
    ensures hear { AllHeedInTurn last (map S.seen sides.items) (map S.seen result.sides.items) }
    ensures of { IsLastOf at.0 result.last }
    ensures knows { LastKnows last (map S.seen sides.items) result.last }
{
    let count = sides.len();
    let mut sides = sides;
    let mut heard = last;
    for place in 0..count {
        let Some(side) = sides.get_mut(place) else {
            unreachable!()
        };
        heed_last(side, heard);
        heard = Some(side.receipt());
    }
    HeardSides { sides, last: heard }
}
