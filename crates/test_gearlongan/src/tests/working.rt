//! Tests of threads that do work of several kinds.
use super::{agree, opened, owner_and_reader};
use crate::work::{Work, live_after};
use gearlongan::Value;

#[test]
fn tasks_of_two_kinds_run_at_a_time(rt: HostRuntime) {
    let (heap, seats) = opened(&rt, rt.alloc(), 2);
    let (mut owner, pass) = owner_and_reader(&rt, rt.alloc(), &heap, seats);
    let key = owner.insert(&Value::from(7)).expect(&rt, "a key");
    let mut tasks = Vec::with_capacity(rt.alloc(), 2).expect(&rt, "room for two tasks");
    tasks.push_reserved(Work::Store(owner, Value::from(8)));
    tasks.push_reserved(Work::Fetch(pass, key));
    agree(&rt, live_after(&rt, rt.alloc(), &heap, tasks), Ok(Some(2)));
}
