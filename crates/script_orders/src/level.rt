//! The states after one number of steps.
ghost use Rattle.std.specs.Prelude.{◌≡◌, ◌++◌, ◌∷◌, ◌↔◌, [], ℕ, Some, IsTrue, MatchOption, IfOk, OnOk, OnErr};
ghost use Rattle.std.specs.Prelude.{slice_get};
ghost use Rattle.std.specs.List.{sum_by};
ghost use Rattle.script_orders.specs.Bytes.{counted, state_bytes};
ghost use Rattle.script_orders.specs.Marks.{mark_of};
ghost use Rattle.script_orders.specs.Filed.{AllFiled, Files, places_of};
ghost use Rattle.script_orders.specs.States.{IsAlikeAt, HasAlike, AllDiffer, Added};

use crate::alike::{are_alike, mark_of};
use crate::state::State;
use std::alloc::{AllocError, Global};
use std::collections::HashMap;

/// The states after one number of steps, no two of which are alike.
#[derive(Drop)]
pub struct Level {
    /// The states.
    pub states: Vec<State>,
    /// How many bytes they take.
    pub bytes: u64,
    // The places of the states with each mark.
    places: HashMap<u64, Vec<usize>>,
    ghost bytes_are: { bytes ≡ counted (sum_by state_bytes states.items) },
    ghost filed: { AllFiled places states.items },
    ghost differ: { AllDiffer states.items },
}

// The places with the mark.
fn places_of(
    alloc: Global,
    places: &HashMap<u64, Vec<usize>>,
    mark: u64,
) -> Result<Vec<usize>, AllocError>
    ensures { IfOk result (λ list. list.items ≡ places_of places.now mark) }
{
    match places.get(&mark) {
        Some(list) => Vec::from_slice(alloc, list.as_slice()),
        None => Ok(Vec::new(alloc)),
    }
}

// Adds a place to those with the mark.
fn file(
    alloc: Global,
    places: &mut HashMap<u64, Vec<usize>>,
    mark: u64,
    place: usize,
) -> Result<(), AllocError>
    ensures ok { OnOk result (Files places.old mark place places.new) }
    ensures err { OnErr result ((m : ℕ) → places_of places.new m ≡ places_of places.old m) }
{
    let mut list = places_of(alloc, places, mark)?;
    list.push(place)?;
    places.insert(mark, list)?;
    Ok(())
}

impl Level {
    /// No states.
    pub fn new(alloc: Global) -> Level
        ensures { result.states.items ≡ [] }
    {
        Level {
            states: Vec::new(alloc),
            bytes: 0,
            places: HashMap::new(alloc),
        }
    }

    // Whether the state at this place is alike.
    fn is_alike_at(&self, place: usize, state: &State) -> bool
        ensures { IsTrue result ↔ IsAlikeAt self.now.states.items place state.now }
    {
        match self.states.get(place) {
            Some(there) => are_alike(there, state),
            None => false,
        }
    }

    // The first of these places whose state is alike.
    fn alike_among(&self, places: &[usize], state: &State) -> Option<usize>
        ensures { MatchOption result ((k place : ℕ) → slice_get places.now k ≡ Some place
            → ¬ IsAlikeAt self.now.states.items place state.now)
            (λ place. IsAlikeAt self.now.states.items place state.now) }
    {
        for place in places {
            if self.is_alike_at(*place, state) {
                return Some(*place);
            }
        }
        None
    }

    // The place of the state that is alike.
    fn place_of(&self, mark: u64, state: &State) -> Option<usize>
        requires { mark ≡ mark_of state.now }
        ensures { MatchOption result (¬ HasAlike self.now.states.items state.now)
            (λ place. IsAlikeAt self.now.states.items place state.now) }
    {
        match self.places.get(&mark) {
            Some(places) => self.alike_among(places.as_slice(), state),
            None => None,
        }
    }

    // Adds a state to which none is alike. The place comes first: one past the end, if there is then no room for the
    // state, is no state's.
    fn push(&mut self, alloc: Global, mark: u64, state: State) -> Result<(), AllocError>
        requires mark { mark ≡ mark_of state }
        requires none { ¬ HasAlike self.old.states.items state }
        ensures { OnOk result (self.new.states.items ≡ self.old.states.items ++ state ∷ []) }
    {
        let bytes = state.bytes();
        file(alloc, &mut self.places, mark, self.states.len())?;
        self.states.push(state)?;
        self.bytes = self.bytes.saturating_add(bytes);
        Ok(())
    }

    /// Adds a state: its orders to those of the state that is alike, if there is one.
    pub fn add(&mut self, alloc: Global, state: State) -> Result<(), AllocError>
        ensures { OnOk result (Added self.old.states.items state self.new.states.items) }
    {
        let mark = mark_of(&state);
        if let Some(place) = self.place_of(mark, &state) {
            let there = &mut self.states[place];
            there.orders = there.orders.plus(state.orders);
            return Ok(());
        }
        self.push(alloc, mark, state)
    }
}
