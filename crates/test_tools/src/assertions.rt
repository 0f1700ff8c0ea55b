//! Assertions are functions, since each one that a test writes out is proved anew.
use std::fmt::Debug;
use std::process::Abort;

// Asserts that what was found is what is wanted.
pub(crate) fn agree<T: PartialEq + Debug + Drop>(rt: &impl Abort, found: T, wanted: T) {
    assert_eq!(rt; found, wanted);
}

// Asserts that it is so.
pub(crate) fn holds(rt: &impl Abort, it: bool) {
    assert!(rt; it);
}
