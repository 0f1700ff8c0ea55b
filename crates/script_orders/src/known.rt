//! What a pass does next, which depends on what it did and on the word that it finds.
ghost use Rattle.std.specs.Prelude.{ℕ, ◌≡◌, ◌↔◌, IsTrue, IfOk, OnOk, MatchOption, Some, slice_get};
ghost use Rattle.std.specs.Rc.{rc_value};
ghost use Rattle.script_orders.specs.Lanes.{did};
ghost use Rattle.script_orders.specs.Known.{DoesNext, FindsSame, IsSo, shows_value};
ghost use Rattle.script_orders.specs.Reached.{HasPlayed, IsReached, Rests};
ghost use Rattle.script_orders.specs.Walks.{GoesTo};

use crate::changes::{Change, with_word, word_of};
use crate::found::Program;
use crate::heap::Heap;
use crate::lane::{Lane, share_lane};
use crate::next::next_line;
use crate::play::touch_of;
use crate::state::State;
use sh_core::Outcome;
use sh_history::Entry;
use sh_key::KeyLayout;
use std::alloc::{AllocError, Global};
use std::rc::Rc;

/// A step that a pass does next.
#[derive(Drop)]
pub struct NextStep {
    /// The number of the word that it touches.
    pub number: usize,
    /// The word that it finds.
    pub found: u64,
    /// The word that it leaves.
    pub left: u64,
    /// What the pass has done then.
    pub lane: Rc<Lane>,
    /// Whether its reply has a value, so that other words matter too.
    pub has_value: bool,
}

/// What a pass that did this does next.
#[derive(Drop)]
pub struct Known {
    /// The pass.
    pub pass: u32,
    /// What it did.
    pub lane: Rc<Lane>,
    /// Its next step; none if it has no line left that is due.
    pub next: Option<NextStep>,
}

// Whether a reply has the value of a slot.
fn shows_value(outcome: &Outcome) -> bool
    ensures { result ≡ shows_value outcome.now }
{
    match outcome {
        Outcome::Replied(Entry::Got(_, _, _)) => true,
        _ => false,
    }
}

impl NextStep {
    // Whether it finds the same word again, and that is all that matters.
    fn finds_same(&self, opening: &[u64], changes: &[Change]) -> bool
        ensures { IsTrue result ↔ FindsSame opening.now changes.now (Some self.now) }
    {
        match opening.get(self.number) {
            Some(was) => !self.has_value && word_of(changes, self.number, *was) == self.found,
            None => false,
        }
    }
}

impl Known {
    // Whether the words let it do the same next.
    fn finds_same(&self, opening: &[u64], changes: &[Change]) -> bool
        ensures { IsTrue result ↔ FindsSame opening.now changes.now self.now.next }
    {
        match &self.next {
            Some(next) => next.finds_same(opening, changes),
            None => true,
        }
    }

    // Whether it is known of this pass once it did this.
    fn is_of(&self, pass: u32, lane: &Lane) -> bool
        ensures { IsTrue result ↔ (did (rc_value self.now.lane) ≡ did lane.now) × (self.now.pass ≡ pass) }
    {
        self.lane.as_ref() == lane && self.pass == pass
    }

    // Whether it is what the pass, which did this, does next.
    fn is_so(&self, opening: &[u64], changes: &[Change], pass: u32, lane: &Lane) -> bool
        ensures { IsTrue result ↔ IsSo opening.now changes.now pass (did lane.now) self.now }
    {
        self.is_of(pass, lane) && self.finds_same(opening, changes)
    }
}

/// The place of what the pass, which did this, does next, if it is known.
pub fn known_at(
    known: &[Known],
    opening: &[u64],
    changes: &[Change],
    pass: u32,
    lane: &Lane,
) -> Option<usize>
    ensures { MatchOption result ((k : ℕ) (it : Known) → slice_get known.now k ≡ Some it
        → ¬ IsSo opening.now changes.now pass (did lane.now) it)
        (λ place. (it : Known) × (slice_get known.now place ≡ Some it)
        × IsSo opening.now changes.now pass (did lane.now) it) }
{
    for (place, it) in known.iter().enumerate() {
        if it.is_so(opening, changes, pass, lane) {
            return Some(place);
        }
    }
    None
}

/// What the pass does next in a state, whose order is done for it on the heap.
pub fn next_step<L: KeyLayout>(
    alloc: Global,
    program: &Program<'_>,
    heap: &mut Heap<L>,
    state: &State,
    pass: u32,
) -> Result<Option<NextStep>, AllocError>
    requires heap { HasPlayed L.layout program.now heap.old.opening.items heap.old.order.items heap.old.world }
    requires reached { IsReached L.layout program.now state.now }
    ensures heap { OnOk result (HasPlayed L.layout program.now heap.new.opening.items heap.new.order.items
        heap.new.world) }
    ensures next { IfOk result (DoesNext L.layout program.now state.now pass) }
{
    heap.play(alloc, program, state.order.as_slice())?;
    let Some(lane) = state.lane(pass) else {
        return Ok(None);
    };
    let Some(line) = next_line(&heap.world, program.lines, pass, lane.behind) else {
        return Ok(None);
    };
    let Some(event) = program.lines.get(line) else {
        return Ok(None);
    };
    let Some(touch) = touch_of(&heap.world, event) else {
        return Ok(None);
    };
    let behind = lane.behind;
    let outcome = heap.outcome(program, pass, behind, line, event, touch.replies)?;
    let after = lane.after(alloc, line, touch.seen, event, &outcome)?;
    let shared = Rc::new(alloc, after)?;
    let has_value = shows_value(&outcome);
    Ok(Some(NextStep {
        number: touch.number,
        found: touch.found,
        left: touch.left,
        lane: shared,
        has_value,
    }))
}

/// The state once the pass did what it does next.
pub fn state_after<L: KeyLayout>(
    alloc: Global,
    program: &Program<'_>,
    heap: &Heap<L>,
    state: &State,
    pass: u32,
    next: &Option<NextStep>,
) -> Result<Option<State>, AllocError>
    requires heap { HasPlayed L.layout program.now heap.now.opening.items heap.now.order.items heap.now.world }
    requires reached { IsReached L.layout program.now state.now }
    requires next { DoesNext L.layout program.now state.now pass next.now }
    ensures { IfOk result (λ after. MatchOption after (Rests L.layout program.now state.now pass)
        (GoesTo L.layout program.now pass state.now)) }
{
    let Some(next) = next else {
        return Ok(None);
    };
    let words = heap.opening.as_slice();
    let opening = words[next.number];
    let old = state.changes.as_slice();
    let changes = with_word(alloc, old, next.number, opening, next.left)?;
    let lane = share_lane(&next.lane)?;
    let after = state.after(alloc, program.lines, pass, lane, changes)?;
    Ok(Some(after))
}
