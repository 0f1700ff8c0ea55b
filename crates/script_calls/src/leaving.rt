//! Passes that leave their shards, one after the other, and then meet.
ghost use Rattle.std.specs.Prelude.{◌≡◌, true, false, Option, None, Err, IfOk, IfErr, map, option_map};
ghost use Rattle.sh_table.specs.Seats.{Heap};
ghost use Rattle.sh_member.specs.Sides.{SideLeaves};
ghost use Rattle.script_calls.specs.OwnParts.{EndsWith, own_part};
ghost use Rattle.script_calls.specs.Parts.{RunTerms, SamePass};
ghost use Rattle.script_calls.specs.Alone.{IsLastOf};
ghost use Rattle.script_calls.specs.Meeting.{AllOfHeap};
ghost use Rattle.script_calls.specs.Leaving.{AllLeaveInTurn, AreTogether, EndInTurn, IsBundleFor, KnowsSteps};
ghost use Rattle.script_calls.specs.Leaving.{LeaveAndMeet, WaitsInTurn};

use crate::heeding::{heed_in_turn, heed_last};
use crate::meeting::met;
use crate::side::Side;
use sh_pass::{Bundle, Receipt};
use sh_value::Refusal;

// Sides of which one was refused when it left its shard, and a bundle of no passes yet, for all of them to end in.
#[derive(Drop)]
struct Refused<S> {
    sides: Vec<S>,
    bundle: Bundle,
}

// Leaves the shard if the side owns one. Returns whether it owns none now.
#[tactic(auto, using(crate::proofs::EndLaws::ends_left, crate::proofs::EndLaws::ends_without_shard))]
fn retire<S: Side>(side: &mut S) -> bool
    ensures none { result ≡ true → (S.seen side.new).part.shard ≡ None }
    ensures waits { result ≡ false → SideLeaves (S.seen side.old).part.stands (Err Refusal.Waiting)
        (S.seen side.new).part.stands }
    ensures ends { result ≡ true → EndsWith (S.seen side.old).part.stands (own_part (S.seen side.new).part.stands) }
    ensures log { (S.seen side.new).part.log ≡ (S.seen side.old).part.log }
    ensures same { SamePass (S.seen side.old) (S.seen side.new) }
{
    match side.leave() {
        Ok(()) | Err(Refusal::NoShard) => true,
        Err(_) => false,
    }
}

// Each side heeds a receipt of the side before, which has left, and leaves its shard. The first one heeds this receipt,
// which contains all that any of them did. So no side does a step while another leaves.
fn leave_in_turn<S: Side>(sides: Vec<S>, last: Option<Receipt>) -> Result<Vec<S>, Refused<S>>
    ghost at: { Option Heap × RunTerms }
    requires of { AllOfHeap at.0 at.1 (map S.seen sides.items) }
    requires last { IsLastOf at.0 last }
    requires steps { KnowsSteps (map S.seen sides.items) last }
    ensures left { IfOk result (λ ts. AllLeaveInTurn (map S.seen sides.items) (map S.seen ts.items)) }
    ensures waits { IfErr result (λ r. WaitsInTurn at.0 at.1 (map S.seen sides.items) (map S.seen r.sides.items)
        r.bundle) }
{
    let count = sides.len();
    let mut sides = sides;
    let mut heard = last;
    for place in 0..count {
        let Some(side) = sides.get_mut(place) else {
            unreachable!()
        };
        heed_last(side, heard);
        let _begins = side.whole();
        if !retire(side) {
            let _stays = side.whole();
            let bundle = side.bundle();
            return Err(Refused { sides, bundle });
        }
        heard = Some(side.receipt());
    }
    Ok(sides)
}

// Ends all sides in this bundle, which has no pass yet. So one run of the core leads to the parts of all.
fn bind_all<S: Side>(sides: Vec<S>, bundle: Bundle)
    ghost at: { Option Heap × RunTerms }
    requires of { AllOfHeap at.0 at.1 (map S.seen sides.items) }
    requires bundle { IsBundleFor at.0 at.1 bundle }
    ensures { AreTogether at.1 (map S.seen sides.items) }
{
    let mut bundle = bundle;
    for side in sides {
        let _known = side.whole();
        side.bind(&mut bundle);
    }
}

// The sides leave in turn and meet. If one is refused, all end in a bundle.
fn left_and_met<S: Side>(sides: Vec<S>, last: Option<Receipt>) -> Option<S>
    ghost at: { Option Heap × RunTerms }
    requires of { AllOfHeap at.0 at.1 (map S.seen sides.items) }
    requires last { IsLastOf at.0 last }
    requires steps { KnowsSteps (map S.seen sides.items) last }
    ensures { LeaveAndMeet at.0 at.1 (map S.seen sides.items) (option_map S.seen result) }
{
    match leave_in_turn(sides, last) {
        Ok(sides) => met(sides),
        Err(refused) => {
            bind_all(refused.sides, refused.bundle);
            None
        }
    }
}

/// All sides hear of one another, leave their shards in turn, and meet. Returns the pass that carries the tale of all.
/// No pass if there is none, or if one was refused when it left: then all passes ended in one bundle.
pub fn met_in_turn<S: Side>(sides: Vec<S>, last: Option<Receipt>) -> Option<S>
    ghost at: { Option Heap × RunTerms }
    requires of { AllOfHeap at.0 at.1 (map S.seen sides.items) }
    requires last { IsLastOf at.0 last }
    ensures { EndInTurn at.0 at.1 last (map S.seen sides.items) (option_map S.seen result) }
{
    let heard = heed_in_turn(sides, last);
    left_and_met(heard.sides, heard.last)
}
