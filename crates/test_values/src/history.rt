//! Tests of the checker of histories: which entry it names, and why.
use sh_history::{Entry, Why, check};
use sh_value::Value;
use std::process::Abort;
use std::test::Fail;

// With one pass, and four holds allowed on a key, the list is judged so. It is a function, as each assertion that is
// written out is proved anew.
fn is_judged(rt: &impl Abort, entries: &[Entry], wanted: Result<(), (usize, Why)>) {
    assert_eq!(rt; check(entries, 1, 4), wanted);
}

#[test]
fn names_the_first_fault(rt: HostRuntime) -> Result<(), Fail> {
    let removed = [
        Entry::Insert(0, 4096, Value::of([7])),
        Entry::Removed(0, 4096),
        Entry::Got(0, 4096, Value::of([7])),
    ];
    is_judged(&rt, &removed, Err((2, Why::AfterRemoval)));
    is_judged(&rt, &removed[..2], Ok(()));
    is_judged(&rt, &[], Ok(()));
    let again = [
        Entry::Insert(0, 4096, Value::empty()),
        Entry::Insert(0, 4096, Value::empty()),
    ];
    is_judged(&rt, &again, Err((1, Why::NotNew)));
    let gone = [Entry::Insert(0, 4096, Value::empty()), Entry::Gone(0, 4096)];
    is_judged(&rt, &gone, Err((1, Why::StillThere)));
    Ok(())
}

#[test]
fn crowded_depends_on_the_holds(rt: HostRuntime) -> Result<(), Fail> {
    let three = [
        Entry::Insert(0, 4096, Value::empty()),
        Entry::Got(0, 4096, Value::empty()),
        Entry::Got(0, 4096, Value::empty()),
        Entry::Got(0, 4096, Value::empty()),
        Entry::Crowded(0, 4096),
    ];
    is_judged(&rt, &three, Err((4, Why::NotCrowded)));
    let four = [
        Entry::Insert(0, 4096, Value::empty()),
        Entry::Got(0, 4096, Value::empty()),
        Entry::Got(0, 4096, Value::empty()),
        Entry::Got(0, 4096, Value::empty()),
        Entry::Got(0, 4096, Value::empty()),
        Entry::Crowded(0, 4096),
    ];
    is_judged(&rt, &four, Ok(()));
    Ok(())
}
