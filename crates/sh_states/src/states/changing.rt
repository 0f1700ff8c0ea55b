//! What changes the states of pages: slots that are used, come back or are read, classes, and what is armed.
ghost use Rattle.std.specs.Prelude.{◌≡◌, ◌+◌, ◌-◌, ◌<◌, ◌≤◌, [], ◌++◌, length, replicate, slice_set, IfSome, IfNone};
ghost use Rattle.std.specs.Prelude.{false};
ghost use Rattle.std.specs.Vec.{vec_capacity};
ghost use Rattle.sh_lists.specs.Numbers.{Misses, upward};
ghost use Rattle.sh_shape.specs.Classes.{slots};
ghost use Rattle.sh_shape.specs.Places.{slot_places};
ghost use Rattle.sh_states.specs.States.{blank_state, state_at, kept_slots, WholeState, with_local, with_read};
ghost use Rattle.sh_states.specs.States.{UsesNext};

use super::{PageState, PageStates, is_whole};
use sh_lists::PageLists;
use sh_shape::classes;

impl PageStates {
    /// Takes the next slot of the page to use: the front of `free`. If that is empty, it is the front of `local`, which
    /// then becomes `free`. None, with nothing changed, if both are empty.
    #[inline(always)]
    pub fn next_slot(&mut self, page: u64) -> Option<u32>
        ensures used { IfSome result (λ slot. UsesNext page slot self.old self.new) }
        ensures small { IfSome result (λ slot. slot < slot_places) }
        ensures none { IfNone result (kept_slots (state_at self.old page) ≡ 0) }
        ensures same { IfNone result (self.new ≡ self.old) }
    {
        if page >= self.written.len() as u64 {
            return None;
        }
        self.written[page as usize].lists.next_slot()
    }

    /// Puts a slot that is in neither list of the page in front of `local`.
    #[inline(always)]
    pub fn push_local(&mut self, page: u64, slot: u32)
        requires inside { page < length self.old }
        requires small { slot < slot_places }
        requires apart { Misses slot ((state_at self.old page).lists.free ++ (state_at self.old page).lists.local) }
        ensures { self.new ≡ slice_set self.old page (with_local (state_at self.old page) slot) }
    {
        write_up_to(&mut self.written, page);
        let state = &mut self.written[page as usize];
        state.lists.push_local(slot);
        self.bound = bound_with(state, page, self.bound);
    }

    /// Puts a slot that is in neither list of the page behind `free`, and sets the slot at which reading continues.
    pub fn add_read(&mut self, page: u64, slot: u32, cursor: Option<u32>)
        requires inside { page < length self.old }
        requires small { slot < slot_places }
        requires apart { Misses slot ((state_at self.old page).lists.free ++ (state_at self.old page).lists.local) }
        requires cursor { IfSome cursor (λ slot. slot < slot_places) }
        ensures { self.new ≡ slice_set self.old page (with_read (state_at self.old page) slot cursor) }
    {
        write_up_to(&mut self.written, page);
        let state = &mut self.written[page as usize];
        state.lists.add_read(slot);
        state.lists.set_cursor(cursor);
        self.bound = bound_with(state, page, self.bound);
    }

    /// Sets the slot at which reading the page's stack begins, after a take, and whether the page is armed.
    pub fn begin_reading(&mut self, page: u64, cursor: Option<u32>, armed: bool)
        requires inside { page < length self.old }
        requires cursor { IfSome cursor (λ slot. slot < slot_places) }
        ensures { self.new ≡ slice_set self.old page (record (state_at self.old page) {
          lists = record (state_at self.old page).lists { cursor = cursor };
          armed = armed;
        }) }
    {
        write_up_to(&mut self.written, page);
        let state = &mut self.written[page as usize];
        state.lists.set_cursor(cursor);
        state.armed = armed;
    }

    /// Notes that the page is not armed.
    pub fn disarm(&mut self, page: u64)
        requires { page < length self.old }
        ensures { self.new ≡ slice_set self.old page (record (state_at self.old page) { armed = false }) }
    {
        write_up_to(&mut self.written, page);
        self.written[page as usize].armed = false;
    }

    /// Gives the page a class, from 0 to 7: then all slots of the class are the owner's.
    pub fn give_class(&mut self, page: u64, class: u32)
        requires inside { page < length self.old }
        requires class { class < 8 }
        ensures { self.new ≡ slice_set self.old page (record {
          lists = record { free = upward 0 (slots class); local = []; cursor = (state_at self.old page).lists.cursor };
          class_word = class + 1;
          armed = (state_at self.old page).armed;
        }) }
    {
        write_up_to(&mut self.written, page);
        let state = &mut self.written[page as usize];
        let cursor = state.lists.cursor();
        state.lists = PageLists::full(classes::slots(class));
        state.lists.set_cursor(cursor);
        state.class_word = class + 1;
        self.bound = bound_with(state, page, self.bound);
    }

    /// Sets the class word of a page that was blank: 0 if it is blank, and otherwise one more than its class.
    #[inline(always)]
    pub fn set_word(&mut self, page: u64, class_word: u64)
        requires inside { page < length self.old }
        requires blank { state_at self.old page ≡ blank_state }
        requires few { class_word ≤ 8 }
        ensures { self.new ≡ slice_set self.old page (record blank_state { class_word = class_word }) }
    {
        if class_word == 0 {
            return;
        }
        // In ascending order, as in an adopt, a state is written once.
        if page == self.written.len() as u64 {
            self.written.push_reserved(PageState {
                lists: PageLists::bare(),
                class_word: class_word as u32,
                armed: false,
            });
            return;
        }
        write_up_to(&mut self.written, page);
        self.written[page as usize].class_word = class_word as u32;
    }
}

// The bound, once this is the state of the page.
#[inline(always)]
fn bound_with(state: &PageState, page: u64, bound: u64) -> u64
    requires { state.now.class_word ≤ 8 }
    ensures lower { result ≤ bound }
    ensures none { page < result → ¬ WholeState state.now }
{
    if page < bound && is_whole(state) {
        page
    } else {
        bound
    }
}

// Writes the states of the pages up to this one; those that were not written are blank. It is a separate function,
// because its callers seldom need it.
#[cold]
#[inline(never)]
fn write_more(written: &mut Vec<PageState>, page: u64)
    requires { page < vec_capacity written.old }
    ensures longer { written.new.items
        ≡ written.old.items ++ replicate (page + 1 - length written.old.items) blank_state }
    ensures capacity { vec_capacity written.new ≡ vec_capacity written.old }
{
    for _next in written.len() as u64..page + 1 {
        written.push_reserved(PageState {
            lists: PageLists::bare(),
            class_word: 0,
            armed: false,
        });
    }
}

// The same, for pages most of which are written.
#[inline(always)]
fn write_up_to(written: &mut Vec<PageState>, page: u64)
    requires { page < vec_capacity written.old }
    ensures longer { written.new.items
        ≡ written.old.items ++ replicate (page + 1 - length written.old.items) blank_state }
    ensures capacity { vec_capacity written.new ≡ vec_capacity written.old }
{
    if page >= written.len() as u64 {
        write_more(written, page);
    }
}
