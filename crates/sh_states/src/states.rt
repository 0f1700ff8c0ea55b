//! The states of the pages of a shard.
ghost use Rattle.std.specs.Prelude.{◌≡◌, ◌<◌, ◌≤◌, length, replicate, MatchOption, MatchBool, IfSome, IfOk};
ghost use Rattle.std.specs.Vec.{vec_capacity};
ghost use Rattle.sh_lists.specs.Lists.{SlotsOnce};
ghost use Rattle.sh_shape.specs.Places.{slot_places};
ghost use Rattle.sh_states.specs.States.{blank_state, state_at, kept_slots, WholeState, NoneWholeBelow, FirstWhole};

mod changing;
#[cfg(test)]
mod tests;

use sh_lists::PageLists;
use sh_shape::classes;
use std::alloc::{AllocError, Global};
use std::marker::Model;

// What is kept of a page.
#[derive(Drop)]
pub struct PageState {
    // Its slots that are the owner's, and the slot of its stack to follow next.
    lists: PageLists,
    // 0 if it is blank, c + 1 if it has class c.
    class_word: u32,
    armed: bool,
}

/// What an owner keeps of each page of its shard. At first all pages are blank.
///
/// Only `new` asks for memory, once, with room for all of them. A state is written when its page, or one behind it, is
/// used. So a system that gives memory as it is written gives it for the pages in use.
#[derive(Drop)]
pub struct PageStates {
    // The states of the first pages. The pages behind them are blank.
    written: Vec<PageState>,
    count: u64,
    // No page below it is whole: a search begins here. It rises to the page that a search finds, or to the end of one
    // that finds none, and falls to a page that becomes whole.
    bound: u64,
}

impl Model for PageStates {
    ghost use Rattle.std.specs.Prelude.{◌≡◌, List};
    ghost use Rattle.std.specs.Vec.{vec_capacity};
    ghost use Rattle.sh_states.specs.declared.states.PageState.{PageState};
    ghost use Rattle.sh_states.specs.States.{padded, KeepsStates};

    ghost Value = { List PageState };

    ghost view = { λ s. padded s.count s.written.items };

    ghost invariant = { λ s. KeepsStates s.written.items s.count s.bound × (vec_capacity s.written ≡ s.count) };
}

impl PageStates {
    /// The states of this many pages, all blank. Refused if there is no room for them.
    pub fn new(alloc: Global, count: u64) -> Result<Self, AllocError>
        ensures { IfOk result (λ states. states ≡ replicate count blank_state) }
    {
        let written = Vec::with_capacity(alloc, count as usize)?;
        Ok(PageStates {
            written,
            count,
            bound: 0,
        })
    }

    /// The number of pages.
    pub fn len(&self) -> u64
        ensures { result ≡ length self.now }
    {
        self.count
    }

    // What is written of a page, if anything is.
    #[inline(always)]
    fn written(&self, page: u64) -> Option<&PageState>
        ensures state { MatchOption result (state_at self.now page ≡ blank_state)
            (λ state. state.now ≡ state_at self.now page) }
        ensures few { IfSome result (λ state. state.now.class_word ≤ 8) }
    {
        if page >= self.written.len() as u64 {
            return None;
        }
        Some(&self.written[page as usize])
    }

    /// The class word of a page: 0 if it is blank, and otherwise one more than its class.
    #[inline(always)]
    pub fn class_word(&self, page: u64) -> u64
        ensures word { result ≡ (state_at self.now page).class_word }
        ensures few { result ≤ 8 }
    {
        match self.written(page) {
            Some(state) => state.class_word as u64,
            None => 0,
        }
    }

    /// The slot at which reading the page's stack continues.
    #[inline(always)]
    pub fn cursor(&self, page: u64) -> Option<u32>
        ensures cursor { result ≡ (state_at self.now page).lists.cursor }
        ensures small { IfSome result (λ slot. slot < slot_places) }
    {
        self.written(page)?.lists.cursor()
    }

    /// Whether the page is armed.
    #[inline(always)]
    pub fn is_armed(&self, page: u64) -> bool
        ensures { result ≡ (state_at self.now page).armed }
    {
        match self.written(page) {
            Some(state) => state.armed,
            None => false,
        }
    }

    /// The number of the page's slots that are the owner's.
    #[inline(always)]
    pub fn slots(&self, page: u64) -> u32
        ensures kept { result ≡ kept_slots (state_at self.now page) }
        ensures once { SlotsOnce (state_at self.now page).lists }
    {
        match self.written(page) {
            Some(state) => state.lists.len(),
            None => 0,
        }
    }

    /// Whether the page has a class, and all its slots are the owner's.
    pub fn is_whole(&self, page: u64) -> bool
        ensures whole { MatchBool result (WholeState (state_at self.now page)) (¬ WholeState (state_at self.now page)) }
        ensures once { SlotsOnce (state_at self.now page).lists }
    {
        match self.written(page) {
            Some(state) => is_whole(state),
            None => false,
        }
    }

    /// The first whole page of those below `end`.
    pub fn first_whole(&mut self, end: u64) -> Option<u64>
        requires { end ≤ length self.old }
        ensures same { self.new ≡ self.old }
        ensures first { MatchOption result (NoneWholeBelow end self.old)
            (λ page. (page < end) × FirstWhole page self.old) }
        ensures once { IfSome result (λ page. SlotsOnce (state_at self.old page).lists) }
    {
        let Some(page) = self.whole_from_bound(end) else {
            self.bound = self.bound.max(end);
            return None;
        };
        self.bound = page;
        Some(page)
    }

    // The first whole page of those below `end`: none below the bound is whole.
    fn whole_from_bound(&self, end: u64) -> Option<u64>
        ensures once { IfSome result (λ page. SlotsOnce (state_at self.now page).lists) }
        ensures first { MatchOption result (NoneWholeBelow end self.now)
            (λ page. (page < end) × FirstWhole page self.now) }
    {
        for page in self.bound..end {
            if self.is_whole(page) {
                return Some(page);
            }
        }
        None
    }
}

// Whether the page has a class, and all its slots are the owner's.
fn is_whole(state: &PageState) -> bool
    requires { state.now.class_word ≤ 8 }
    ensures once { SlotsOnce state.now.lists }
    ensures whole { MatchBool result (WholeState state.now) (¬ WholeState state.now) }
{
    let slots = state.lists.len();
    if state.class_word == 0 {
        return false;
    }
    slots >= classes::slots(state.class_word - 1)
}
