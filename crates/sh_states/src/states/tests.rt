use super::*;
use std::fmt::Debug;
use std::process::Abort;

// Fails unless the two are equal. It is a function because each assertion that is written out is proved anew.
fn agree<T: PartialEq + Debug + Drop>(rt: &impl Abort, found: T, wanted: T) {
    assert_eq!(rt; found, wanted);
}

// The first whole page, and the number of pages that the search looks at: from the bound to the page that it finds.
fn searched(states: &mut PageStates) -> (Option<u64>, u64) {
    let began = states.bound;
    let end = states.len();
    let found = states.first_whole(end);
    let behind = match found {
        Some(page) => page.saturating_add(1),
        None => end,
    };
    (found, behind.saturating_sub(began))
}

// Gives a page class 7, which has three slots, if there is such a page.
fn give(states: &mut PageStates, page: u64) {
    if page < states.len() {
        states.give_class(page, 7);
    }
}

#[test]
fn a_search_begins_where_the_last_one_ended(rt: HostRuntime) {
    let mut states = PageStates::new(rt.alloc(), 100).expect(&rt, "there is memory");
    agree(&rt, searched(&mut states), (None, 100));
    agree(&rt, searched(&mut states), (None, 0));
    for page in 0..100u64 {
        give(&mut states, page);
    }
    // Each search looks at the page that the last one found, which has a slot out now, and at the next page.
    agree(&rt, searched(&mut states), (Some(0), 1));
    agree(&rt, searched(&mut states), (Some(0), 1));
    for page in 0..99u64 {
        agree(&rt, states.next_slot(page), Some(0));
        agree(&rt, searched(&mut states).1, 2);
    }
    agree(&rt, states.next_slot(99), Some(0));
    agree(&rt, searched(&mut states), (None, 1));
    agree(&rt, searched(&mut states), (None, 0));
    // The next search begins at a page that becomes whole.
    give(&mut states, 40);
    agree(&rt, searched(&mut states), (Some(40), 1));
    agree(&rt, states.next_slot(40), Some(0));
    agree(&rt, searched(&mut states), (None, 60));
}
