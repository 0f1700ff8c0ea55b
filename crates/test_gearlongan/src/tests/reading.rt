//! Tests of looking up, holding and reading a value.
use super::{FIRST_KEY, agree, on_a_heap};
use gearlongan::{Hold, Pass, Reader, Refusal, Shard, Value, Wide};
use std::process::Abort;

// Gets a key, reads its value and releases it, and then holds nothing.
fn get_read_and_release(rt: &impl Abort, owner: &mut Shard<'_, Wide>, reader: &mut Pass<'_, Wide>) {
    let key = owner.insert(&Value::of([7, 8, 9])).expect(rt, "a key");
    agree(rt, key, FIRST_KEY);
    let hold = reader.get(key).expect(rt, "a hold");
    agree(rt, hold.key, key);
    agree(rt, reader.read(hold), Ok(Value::of([7, 8, 9])));
    agree(rt, reader.release(hold), Ok(()));
    agree(rt, reader.read(hold), Err(Refusal::NotHeld));
    agree(rt, reader.release(hold), Err(Refusal::NotHeld));
}

#[test]
fn a_key_is_got_read_and_released(rt: HostRuntime) {
    on_a_heap(&rt, rt.alloc(), get_read_and_release);
}

// Reads into a value of its own, while the key is held and after it.
fn read_into_ones_own(rt: &impl Abort, owner: &mut Shard<'_, Wide>, reader: &mut Pass<'_, Wide>) {
    let key = owner.insert(&Value::of([7, 8])).expect(rt, "a key");
    let mut value = Value::from(5);
    let hold = reader.get(key).expect(rt, "a hold");
    agree(rt, reader.read_into(hold, &mut value), Ok(()));
    agree(rt, value.words(), [7, 8].as_slice());
    agree(rt, reader.release(hold), Ok(()));
    agree(
        rt,
        reader.read_into(hold, &mut value),
        Err(Refusal::NotHeld),
    );
    agree(rt, value.words(), [7, 8].as_slice());
}

#[test]
fn a_value_is_read_into_the_callers(rt: HostRuntime) {
    on_a_heap(&rt, rt.alloc(), read_into_ones_own);
}

// Reads by a guard.
fn read_by_a_guard(rt: &impl Abort, owner: &mut Shard<'_, Wide>, reader: &mut Pass<'_, Wide>) {
    let key = owner.insert(&Value::from(7)).expect(rt, "a key");
    let guard = reader.get_guard(key).expect(rt, "a guard");
    agree(rt, guard.key(), key);
    let mut value = Value::empty();
    agree(rt, reader.read_guard(&guard, &mut value), Ok(()));
    agree(rt, value, Value::from(7));
    agree(rt, reader.release_guard(guard), Ok(()));
}

#[test]
fn a_guard_is_a_hold_that_keeps_its_place(rt: HostRuntime) {
    on_a_heap(&rt, rt.alloc(), read_by_a_guard);
}

// Asserts that each of these calls finds the key gone, and that 0 is no key.
fn fetch_and_take_nothing(rt: &impl Abort, reader: &mut Pass<'_, Wide>, key: u64) {
    agree(rt, reader.fetch(key), Err(Refusal::Gone));
    let length = reader.with(key, |value| value.words().len());
    agree(rt, length, Err(Refusal::Gone));
    agree(rt, reader.take(key), Err(Refusal::Gone));
    agree(rt, reader.fetch(0), Err(Refusal::BadKey));
}

// Fetches a value, looks at it in place, and takes it. Then the key is gone.
fn fetch_and_take(rt: &impl Abort, owner: &mut Shard<'_, Wide>, reader: &mut Pass<'_, Wide>) {
    let key = owner.insert(&Value::of([7, 8, 9])).expect(rt, "a key");
    agree(rt, reader.fetch(key), Ok(Value::of([7, 8, 9])));
    agree(rt, reader.with(key, |value| value.words().len()), Ok(3));
    agree(rt, owner.take(key), Ok(Value::of([7, 8, 9])));
    fetch_and_take_nothing(rt, reader, key);
}

// Takes as many holds on a key as a pass may have.
fn take_all_holds(rt: &impl Abort, reader: &mut Pass<'_, Wide>, key: u64) {
    for _ in 0..16 {
        agree(rt, reader.get(key), Ok(Hold { key }));
    }
    agree(rt, reader.take(key), Err(Refusal::HoldsFull));
}

// Looks at the value, and into a value of its own.
fn look_twice(rt: &impl Abort, reader: &mut Pass<'_, Wide>, key: u64, value: &mut Value) {
    agree(rt, reader.look(key), Ok(Value::of([7, 8, 9])));
    agree(rt, reader.look_into(key, value), Ok(()));
    agree(rt, value.words(), [7, 8, 9].as_slice());
}

// Asserts that both looks find the key gone, and leave the value as it is.
fn look_at_nothing(rt: &impl Abort, reader: &mut Pass<'_, Wide>, key: u64, value: &mut Value) {
    agree(rt, reader.look(key), Err(Refusal::Gone));
    agree(rt, reader.look_into(key, value), Err(Refusal::Gone));
    agree(rt, value.words(), [7, 8, 9].as_slice());
}

// Looks at a value with as many holds as a pass may have, and once more when the key is gone.
fn look_with_holds(rt: &impl Abort, owner: &mut Shard<'_, Wide>, reader: &mut Pass<'_, Wide>) {
    let key = owner.insert(&Value::of([7, 8, 9])).expect(rt, "a key");
    take_all_holds(rt, reader, key);
    let mut value = Value::from(5);
    look_twice(rt, reader, key, &mut value);
    agree(rt, owner.remove(key), Ok(()));
    look_at_nothing(rt, reader, key, &mut value);
}

#[test]
fn a_look_needs_no_hold(rt: HostRuntime) {
    on_a_heap(&rt, rt.alloc(), look_with_holds);
}

// Fetches into a value of its own, and once more when the key is gone.
fn fetch_into_ones_own(rt: &impl Abort, owner: &mut Shard<'_, Wide>, reader: &mut Pass<'_, Wide>) {
    let key = owner.insert(&Value::of([7, 8])).expect(rt, "a key");
    let mut value = Value::from(5);
    agree(rt, reader.fetch_into(key, &mut value), Ok(()));
    agree(rt, value.words(), [7, 8].as_slice());
    agree(rt, owner.remove(key), Ok(()));
    agree(rt, reader.fetch_into(key, &mut value), Err(Refusal::Gone));
    agree(rt, value.words(), [7, 8].as_slice());
}

#[test]
fn a_value_is_fetched_into_the_callers(rt: HostRuntime) {
    on_a_heap(&rt, rt.alloc(), fetch_into_ones_own);
}

// Stores two values, and removes the second.
fn store_and_remove(rt: &impl Abort, owner: &mut Shard<'_, Wide>) -> (u64, u64) {
    let key = owner.insert(&Value::of([7, 8])).expect(rt, "a key");
    let gone = owner.insert(&Value::from(9)).expect(rt, "a key");
    agree(rt, owner.remove(gone), Ok(()));
    (key, gone)
}

// Fetches three keys at a time: one was removed, and one is no key. Each has its own result.
fn fetch_three(rt: &impl Abort, reader: &mut Pass<'_, Wide>, key: u64, gone: u64) {
    let mut values = [Ok(Value::from(0)), Ok(Value::from(0)), Ok(Value::from(0))];
    reader.fetch_each(&[gone, 0, key], &mut values);
    let [first, second, third] = values;
    agree(rt, first, Err(Refusal::Gone));
    agree(rt, second, Err(Refusal::BadKey));
    agree(rt, third, Ok(Value::of([7, 8])));
}

// Gets the same three.
fn get_three(rt: &impl Abort, owner: &mut Shard<'_, Wide>, key: u64, gone: u64) {
    let mut holds = [Err(Refusal::Full), Err(Refusal::Full), Err(Refusal::Full)];
    owner.get_each(&[gone, 0, key], &mut holds);
    agree(rt, holds[0], Err(Refusal::Gone));
    agree(rt, holds[1], Err(Refusal::BadKey));
    agree(rt, holds[2], Ok(Hold { key }));
}

// Reads by a hold and gives it back, once.
fn read_and_release(rt: &impl Abort, owner: &mut Shard<'_, Wide>, hold: Hold) {
    agree(rt, owner.read(hold), Ok(Value::of([7, 8])));
    agree(rt, owner.release(hold), Ok(()));
    agree(rt, owner.release(hold), Err(Refusal::NotHeld));
}

// Both, of values that are there and not.
fn fetch_and_get_three(rt: &impl Abort, owner: &mut Shard<'_, Wide>, reader: &mut Pass<'_, Wide>) {
    let (key, gone) = store_and_remove(rt, owner);
    fetch_three(rt, reader, key, gone);
    get_three(rt, owner, key, gone);
    read_and_release(rt, owner, Hold { key });
}

#[test]
fn a_batch_has_a_result_for_each_key(rt: HostRuntime) {
    on_a_heap(&rt, rt.alloc(), fetch_and_get_three);
}

#[test]
fn fetch_with_and_take_leave_no_hold(rt: HostRuntime) {
    on_a_heap(&rt, rt.alloc(), fetch_and_take);
}

// Holds a key that its owner removes.
fn hold_and_remove(rt: &impl Abort, owner: &mut Shard<'_, Wide>, reader: &mut Pass<'_, Wide>) {
    let key = owner.insert(&Value::from(7)).expect(rt, "a key");
    let hold = reader.get(key).expect(rt, "a hold");
    agree(rt, owner.remove(key), Ok(()));
    agree(rt, owner.remove(key), Err(Refusal::Gone));
    agree(rt, reader.get(key), Err(Refusal::Gone));
    agree(rt, reader.read(hold), Ok(Value::from(7)));
    agree(rt, reader.release(hold), Ok(()));
}

#[test]
fn what_is_held_stays_readable_when_it_is_removed(rt: HostRuntime) {
    on_a_heap(&rt, rt.alloc(), hold_and_remove);
}
