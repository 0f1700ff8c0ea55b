//! How passes meet.
ghost use Rattle.std.specs.Prelude.{◌≡◌, MatchResult};
ghost use Rattle.sh_table.specs.Tales.{ViewIsValid};
ghost use Rattle.sh_table.specs.Views.{joined_view};
ghost use Rattle.sh_table.specs.Whole.{IsWhole};
ghost use Rattle.sh_pass.specs.Passes.{AreAll, AreOf};
ghost use Rattle.sh_gather.specs.Gathering.{IsGatheredFrom, met_view};

use crate::view::WholeOn;
use sh_key::KeyLayout;
use sh_pass::pass::PassOn;
use sh_pass::{Heap, KeepsHeap, are_all, merge};

/// Two passes of one heap meet: returns the first one, which now carries both tales. So one legal history has the
/// entries of all passes that either names. All that the second carried happens before all later results of the first.
/// The holds of the second stay in their slots for good.
pub fn join<L: KeyLayout, H: KeepsHeap<L>>(one: PassOn<L, H>, other: PassOn<L, H>) -> PassOn<L, H>
    requires { other.heap ≡ one.heap }
    ensures heap { result.heap ≡ one.heap }
    ensures tale { result.view ≡ joined_view one.view other.view }
    ensures stands { ViewIsValid L.layout result.view }
{
    merge(one, other)
}

/// The heap as a whole, if the tales of all its passes are joined in this one; otherwise the pass comes back.
pub fn whole<L: KeyLayout, H: KeepsHeap<L>>(
    pass: PassOn<L, H>,
) -> Result<WholeOn<L, H>, PassOn<L, H>>
    ensures { MatchResult result
        (λ whole. (whole ≡ pass) × IsWhole pass.view)
        (λ back. (back ≡ pass) × ¬ IsWhole pass.view) }
{
    if pass.is_whole() {
        Ok(WholeOn { pass })
    } else {
        Err(pass)
    }
}

/// The heap as a whole, if the tales of these passes together name all its passes. Otherwise the passes come back as
/// they were, and so does an empty list. The last one takes in the others, in order. Their holds stay in their slots
/// for good.
pub fn gather<L: KeyLayout, H: KeepsHeap<L>>(
    heap: &Heap<L>,
    passes: Vec<PassOn<L, H>>,
) -> Result<WholeOn<L, H>, Vec<PassOn<L, H>>>
    requires { AreOf heap.now passes.items }
    ensures { MatchResult result
        (λ whole. (whole.heap ≡ heap.now) × IsWhole whole.view × AreAll heap.now passes.items
        × IsGatheredFrom passes.items whole.view)
        (λ back. (back ≡ passes) × ¬ AreAll heap.now passes.items) }
{
    if !are_all(heap, &passes) {
        return Err(passes);
    }
    let mut passes = passes;
    let Some(last) = passes.pop() else {
        unreachable!()
    };
    let _known = last.shape();
    match whole(met(last, passes)) {
        Ok(whole) => Ok(whole),
        Err(_) => unreachable!(),
    }
}

// The first pass, which takes in the others, in order.
fn met<L: KeyLayout, H: KeepsHeap<L>>(one: PassOn<L, H>, others: Vec<PassOn<L, H>>) -> PassOn<L, H>
    requires { AreOf one.heap others.items }
    ensures heap { result.heap ≡ one.heap }
    ensures tale { result.view ≡ met_view one.view others.items }
{
    let mut carrier = one;
    for pass in others {
        carrier = join(carrier, pass);
    }
    carrier
}
