//! Passes that meet.
ghost use Rattle.std.specs.Prelude.{◌≡◌, [], Option, None, IfSome, IfNone, map, option_map};
ghost use Rattle.std.specs.List.{All};
ghost use Rattle.sh_table.specs.Seats.{Heap};
ghost use Rattle.script_calls.specs.Parts.{RunTerms};
ghost use Rattle.script_calls.specs.Meeting.{MeetsCarrier, OwnsNone, IsOfHeap, HasMet, tales_told};
ghost use Rattle.script_calls.specs.Meeting.{AllOfHeap, orders_of, JoinsParts, CarriesOwn, IsShardless};

use crate::side::Side;

/// Returns the carrier, if there is one, which now speaks for the side too; otherwise the side. Neither owns a shard.
pub fn meet<S: Side>(carrier: Option<S>, side: S) -> S
    requires heap { IsOfHeap (S.seen side).heap (option_map S.seen carrier) }
    requires none { OwnsNone (option_map S.seen carrier) × ((S.seen side).part.shard ≡ None) }
    ensures none { (S.seen result).part.shard ≡ None }
    ensures meets { MeetsCarrier (option_map S.seen carrier) (S.seen side) (S.seen result) }
    ensures parts { JoinsParts (option_map S.seen carrier) (S.seen side) (S.seen result) }
{
    match carrier {
        Some(carrier) => carrier.join(side),
        None => side,
    }
}

/// The pass that carries the tale of all once all have met. None owns a shard. No pass only if there is none.
pub fn met<S: Side>(sides: Vec<S>) -> Option<S>
    ghost at: { Option Heap × RunTerms }
    requires of { AllOfHeap at.0 at.1 (map S.seen sides.items) }
    requires none { All IsShardless (map S.seen sides.items) }
    ensures met { IfSome result (λ carrier. HasMet at.0 at.1 (S.seen carrier) (tales_told (map S.seen sides.items))
        (orders_of (map S.seen sides.items))) }
    ensures own { IfSome result (λ carrier. All (CarriesOwn (S.seen carrier)) (map S.seen sides.items)) }
    ensures stays { IfNone result (map S.seen sides.items ≡ []) }
{
    let mut carrier: Option<S> = None;
    for side in sides {
        carrier = Some(meet(carrier, side));
    }
    let carrier = carrier?;
    let _known = carrier.whole();
    Some(carrier)
}
