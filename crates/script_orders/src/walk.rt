//! Going through all orders.
ghost use Rattle.std.specs.Prelude.{◌≡◌, ℕ, ◌+◌, ◌<◌, false, cond, [], ◌∷◌, List, IfOk, IfErr, OnOk, MatchOption, Some};
ghost use Rattle.std.specs.Prelude.{length, slice_get, map, vec_items};
ghost use Rattle.std.specs.List.{All};
ghost use Rattle.sh_key.specs.Layout.{Layout};
ghost use Rattle.script_orders.specs.declared.found.Found.{Found};
ghost use Rattle.script_orders.specs.declared.found.Program.{Program};
ghost use Rattle.script_orders.specs.declared.state.State.{State};
ghost use Rattle.script_orders.specs.Counts.{CountsEnd};
ghost use Rattle.script_orders.specs.Cuts.{steps_done, AllAfter, Passes, IsCutRightly};
ghost use Rattle.script_orders.specs.Known.{IsKnown};
ghost use Rattle.script_orders.specs.States.{HasAlike};
ghost use Rattle.script_orders.specs.Steps.{AllOnce, AreCounted, AreOnce};
ghost use Rattle.script_orders.specs.Walks.{GoesTo, IsFollowed, GoesOn, HasEnd, IsSame, KeepsFound, AllRest};
ghost use Rattle.script_orders.specs.Walks.{StepsTo, GoesFrom, AddsFound, AddsEnd, Advances};
ghost use Rattle.script_orders.specs.Reached.{world_by, pages_by, pages_asked, lanes_of, HasPlayed, IsReached, Rests};
ghost use Rattle.script_orders.specs.Reached.{IsOutcome, AreOutcomes, Has, IsComplete};

use crate::found::{Cut, Explored, Found, Limit, Program, Whole};
use crate::heap::{Heap, played};
use crate::known::{Known, known_at, next_step, state_after};
use crate::lane::share_lane;
use crate::level::Level;
use crate::orders::Orders;
use crate::room::Room;
use crate::state::State;
use script_output::account_line::push_accounts;
use sh_key::KeyLayout;
use std::alloc::{AllocError, Global};

// At most so many next steps are known at a time.
const MOST_KNOWN: usize = 1024;

// The state once the pass did its next line, if it has one. What it does next is looked up, or done on the heap.
fn gone_on<L: KeyLayout>(
    alloc: Global,
    program: &Program<'_>,
    heap: &mut Heap<L>,
    known: &mut Vec<Known>,
    state: &State,
    pass: u32,
) -> Result<Option<State>, AllocError>
    requires heap { HasPlayed L.layout program.now heap.old.opening.items heap.old.order.items heap.old.world }
    requires known { All (IsKnown L.layout program.now) known.old.items }
    requires reached { IsReached L.layout program.now state.now }
    ensures heap { OnOk result (HasPlayed L.layout program.now heap.new.opening.items heap.new.order.items
        heap.new.world) }
    ensures known { OnOk result (All (IsKnown L.layout program.now) known.new.items) }
    ensures next { IfOk result (λ next. MatchOption next (Rests L.layout program.now state.now pass)
        (GoesTo L.layout program.now pass state.now)) }
{
    let Some(lane) = state.lanes.get(pass as usize) else {
        return Ok(None);
    };
    let opening = heap.opening.as_slice();
    let changes = state.changes.as_slice();
    if let Some(place) = known_at(known.as_slice(), opening, changes, pass, lane.as_ref()) {
        return state_after::<L>(alloc, program, heap, state, pass, &known[place].next);
    }
    let next = next_step::<L>(alloc, program, heap, state, pass)?;
    let after = state_after::<L>(alloc, program, heap, state, pass, &next)?;
    if known.len() < MOST_KNOWN {
        let lane = share_lane(lane)?;
        known.push(Known { pass, lane, next })?;
    }
    Ok(after)
}

// Puts the states after one further step among the next ones, and returns whether there are any.
fn go_on<L: KeyLayout>(
    alloc: Global,
    program: &Program<'_>,
    heap: &mut Heap<L>,
    known: &mut Vec<Known>,
    state: &State,
    next: &mut Level,
) -> Result<bool, AllocError>
    requires heap { HasPlayed L.layout program.now heap.old.opening.items heap.old.order.items heap.old.world }
    requires known { All (IsKnown L.layout program.now) known.old.items }
    requires reached { IsReached L.layout program.now state.now }
    requires all { All (IsReached L.layout program.now) next.old.states.items }
    ensures heap { OnOk result (HasPlayed L.layout program.now heap.new.opening.items heap.new.order.items
        heap.new.world) }
    ensures known { OnOk result (All (IsKnown L.layout program.now) known.new.items) }
    ensures all { OnOk result (All (IsReached L.layout program.now) next.new.states.items) }
    ensures rests { IfOk result (λ goes_on. goes_on ≡ false
        → (pass : ℕ) → pass < program.now.shape.passes → Rests L.layout program.now state.now pass) }
    ensures keeps { OnOk result ((t : State) → HasAlike next.old.states.items t → HasAlike next.new.states.items t) }
    ensures followed { OnOk result ((pass : ℕ) → pass < program.now.shape.passes
        → IsFollowed L.layout program.now next.new.states.items state.now pass) }
    ensures ends { IfOk result (λ goes_on. AllRest L.layout program.now state.now → goes_on ≡ false) }
    ensures steps { OnOk result ((steps : ℕ) → steps_done state.now ≡ steps → AllAfter (steps + 1) next.old.states.items
        → AllAfter (steps + 1) next.new.states.items) }
    ensures from { IfOk result (GoesFrom L.layout program.now program.now.shape.passes next.old.states.items
        next.new.states.items state.now) }
{
    let mut goes_on = false;
    for pass in 0..program.shape.passes() {
        if let Some(after) = gone_on::<L>(alloc, program, heap, known, state, pass)? {
            next.add(alloc, after)?;
            goes_on = true;
        }
    }
    Ok(goes_on)
}

// The account lines of a state.
fn pages<L: KeyLayout>(
    alloc: Global,
    program: &Program<'_>,
    state: &State,
) -> Result<Vec<u8>, AllocError>
    ensures { IfOk result (λ pages. (order : List ℕ)
        → world_by L.layout program.now order ≡ world_by L.layout program.now state.now.order.items
        → pages.items ≡ cond program.now.accounts (pages_by L.layout program.now order) []) }
{
    let mut pages = Vec::new(alloc);
    if program.accounts {
        let mut world = played::<L>(alloc, program, state.order.as_slice())?;
        push_accounts(&mut pages, &mut world)?;
    }
    Ok(pages)
}

// The outcome of a state in which no pass has a step left.
fn outcome<L: KeyLayout>(
    alloc: Global,
    program: &Program<'_>,
    state: &State,
) -> Result<Found, AllocError>
    requires reached { IsReached L.layout program.now state.now }
    requires rests { (pass : ℕ) → pass < program.now.shape.passes → Rests L.layout program.now state.now pass }
    ensures is { IfOk result (IsOutcome L.layout program.now) }
    ensures orders { IfOk result (λ found. found.orders ≡ state.now.orders) }
    ensures replies { IfOk result (λ found.
        map vec_items found.replies.items ≡ map (λ d. d.replies) (lanes_of state.now)) }
    ensures pages { IfOk result (λ found. found.pages.items ≡ pages_asked L.layout program.now state.now.order.items) }
{
    Ok(Found {
        replies: state.replies(alloc)?,
        pages: pages::<L>(alloc, program, state)?,
        orders: state.orders,
        witness: state.whole_order(alloc, program.lines, program.shape.passes())?,
        passes: Vec::from_slice(alloc, state.passes.as_slice())?,
    })
}

// The place of the outcome with the same replies and pages.
fn place_of(found: &[Found], new: &Found) -> Option<usize>
    ensures { MatchOption result (¬ Has found.now (map vec_items new.now.replies.items) new.now.pages.items)
        (λ place. (there : Found) × (slice_get found.now place ≡ Some there) × IsSame there new.now) }
{
    for (place, other) in found.iter().enumerate() {
        if other.replies == new.replies && other.pages == new.pages {
            return Some(place);
        }
    }
    None
}

// Adds an outcome: its orders to those of the same outcome, if there is one. Returns whether there was none.
fn add(found: &mut Vec<Found>, new: Found) -> Result<bool, AllocError>
    ensures all { (layout : Layout) (program : Program) → All (IsOutcome layout program) found.old.items
        → IsOutcome layout program new → OnOk result (All (IsOutcome layout program) found.new.items) }
    ensures keeps { OnOk result (KeepsFound found.old.items found.new.items) }
    ensures has { OnOk result (Has found.new.items (map vec_items new.replies.items) new.pages.items) }
    ensures adds { OnOk result (AddsFound found.old.items new found.new.items) }
{
    if let Some(place) = place_of(found.as_slice(), &new) {
        let there = &mut found[place];
        there.orders = there.orders.plus(new.orders);
        return Ok(false);
    }
    found.push(new)?;
    Ok(true)
}

// Counts a state in which no pass has a step left, and adds its outcome.
fn add_end<L: KeyLayout>(
    alloc: Global,
    program: &Program<'_>,
    state: &State,
    whole: &mut Whole,
) -> Result<(), AllocError>
    requires reached { IsReached L.layout program.now state.now }
    requires rests { (pass : ℕ) → pass < program.now.shape.passes → Rests L.layout program.now state.now pass }
    requires found { All (IsOutcome L.layout program.now) whole.old.found.items }
    ensures found { OnOk result (All (IsOutcome L.layout program.now) whole.new.found.items) }
    ensures counts { OnOk result (CountsEnd state.now.orders whole.old whole.new) }
    ensures keeps { OnOk result (KeepsFound whole.old.found.items whole.new.found.items) }
    ensures has { OnOk result (HasEnd L.layout program.now whole.new.found.items state.now) }
    ensures adds { OnOk result (AddsEnd L.layout program.now state.now whole.old.found.items whole.new.found.items) }
{
    let new = outcome::<L>(alloc, program, state)?;
    whole.ends = whole.ends.saturating_add(1);
    whole.orders = whole.orders.plus(state.orders);
    let bytes = new.bytes();
    if add(&mut whole.found, new)? {
        whole.bytes = whole.bytes.saturating_add(bytes);
    }
    Ok(())
}

// The states after one further step than these. Those that have none end an order. If there are too many, the limit
// that they pass.
fn next_level<L: KeyLayout>(
    alloc: Global,
    program: &Program<'_>,
    heap: &mut Heap<L>,
    level: &Level,
    room: Room,
    whole: &mut Whole,
) -> Result<Result<Level, Limit>, AllocError>
    requires heap { HasPlayed L.layout program.now heap.old.opening.items heap.old.order.items heap.old.world }
    requires reached { All (IsReached L.layout program.now) level.now.states.items }
    requires found { All (IsOutcome L.layout program.now) whole.old.found.items }
    requires once { AllOnce whole.old.found.items }
    ensures heap { OnOk result (HasPlayed L.layout program.now heap.new.opening.items heap.new.order.items
        heap.new.world) }
    ensures reached { IfOk result (λ next. IfOk next (λ level.
        All (IsReached L.layout program.now) level.states.items)) }
    ensures found { OnOk result (All (IsOutcome L.layout program.now) whole.new.found.items) }
    ensures followed { IfOk result (λ next. IfOk next (λ after. (place : ℕ) (state : State)
        → slice_get level.now.states.items place ≡ Some state → (pass : ℕ) → pass < program.now.shape.passes
        → IsFollowed L.layout program.now after.states.items state pass)) }
    ensures keeps { OnOk result (KeepsFound whole.old.found.items whole.new.found.items) }
    ensures ends { IfOk result (λ next. IfOk next (λ after. (place : ℕ) (state : State)
        → slice_get level.now.states.items place ≡ Some state → AllRest L.layout program.now state
        → HasEnd L.layout program.now whole.new.found.items state)) }
    ensures steps { IfOk result (λ next. IfOk next (λ after. (steps : ℕ) → AllAfter steps level.now.states.items
        → AllAfter (steps + 1) after.states.items)) }
    ensures passes { IfOk result (λ next. IfErr next (Passes L.layout program.now level.now.states.items room.states)) }
    ensures once { IfOk result (λ next. IfOk next (λ after. AllOnce whole.new.found.items)) }
    ensures advances { IfOk result (λ next. IfOk next (λ after. Advances L.layout program.now level.now.states.items
        after.states.items whole.old.found.items whole.new.found.items)) }
{
    let mut next = Level::new(alloc);
    let mut known = Vec::new(alloc);
    for state in &level.states {
        if !go_on::<L>(alloc, program, heap, &mut known, state, &mut next)? {
            add_end::<L>(alloc, program, state, whole)?;
        }
        if let Some(limit) = room.passed(level, &next, whole) {
            return Ok(Err(limit));
        }
    }
    Ok(Ok(next))
}

// The first level.
fn first_level(alloc: Global, program: &Program<'_>) -> Result<Level, AllocError>
    ensures reached { IfOk result (λ level. (layout : Layout) → All (IsReached layout program.now) level.states.items) }
    ensures begins { IfOk result (λ level. (layout : Layout) (order : List ℕ)
        → GoesOn layout program.now level.states.items order) }
    ensures first { IfOk result (λ level. (first : State) × (level.states.items ≡ first ∷ [])
        × (first.orders.count ≡ 1) × (steps_done first ≡ 0)
        × ((layout : Layout) → StepsTo layout program.now [] first)) }
{
    let mut level = Level::new(alloc);
    level.add(alloc, State::first(alloc, program)?)?;
    Ok(level)
}

// How far a walk came that passes this limit after this number of steps.
fn cut(limit: Limit, whole: &Whole, steps: u64) -> Cut
    ensures { result ≡ record { limit = limit; states = whole.now.states; steps = steps } }
{
    Cut {
        limit,
        states: whole.states,
        steps,
    }
}

/// Does the lines in every order that keeps the order of each pass, and returns each outcome. A line whose condition
/// does not hold is skipped. `AllocError` is returned if memory was refused, or if the shape does not fit the layout.
///
/// Each outcome is one of the script's, and if the walk is whole, each order of the script has one of the outcomes. No
/// outcome is there twice, and each has the number of orders of steps that end in it. A walk passes the limit of states
/// only if there are more.
pub fn explore<L: KeyLayout>(alloc: Global, program: &Program<'_>) -> Result<Explored, AllocError>
    ensures are { IfOk result (AreOutcomes L.layout program.now) }
    ensures complete { IfOk result (IsComplete L.layout program.now) }
    ensures counted { IfOk result (AreCounted L.layout program.now) }
    ensures once { IfOk result AreOnce }
    ensures cut { IfOk result (IsCutRightly L.layout program.now) }
{
    let mut whole = Whole {
        states: 0,
        ends: 0,
        orders: Orders::NONE,
        found: Vec::new(alloc),
        bytes: 0,
    };
    let mut steps = 0u64;
    let mut room = program.limit;
    let mut heap = Heap::<L>::new(alloc, program)?;
    let mut level = first_level(alloc, program)?;
    while !level.states.is_empty() {
        let count = level.states.len() as u64;
        if count > room {
            return Ok(Explored::Cut(cut(Limit::States, &whole, steps)));
        }
        room -= count;
        whole.states = whole.states.saturating_add(count);
        steps = steps.saturating_add(1);
        let most = Room {
            states: room,
            bytes: program.bytes,
        };
        match next_level::<L>(alloc, program, &mut heap, &level, most, &mut whole)? {
            Ok(next) => level = next,
            Err(limit) => return Ok(Explored::Cut(cut(limit, &whole, steps))),
        }
    }
    Ok(Explored::Whole(whole))
}
