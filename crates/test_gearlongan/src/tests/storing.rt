//! Tests of values, of records, and of the texts of refusals.
use super::{FIRST_KEY, agree, opened, owner_and_reader};
use gearlongan::{Pass, Record, Refusal, Shape, Shard, Typed, Value, Wide};
use std::process::Abort;
use std::test::Fail;

#[test]
fn values_have_up_to_sixteen_words(rt: HostRuntime) -> Result<(), Fail> {
    let words = [0; 17];
    agree(&rt, Value::new(&words), Err(Refusal::TooLong));
    agree(
        &rt,
        Value::new(&words[..16]).map(|value| value.words().len()),
        Ok(16),
    );
    agree(&rt, Value::of([1, 2]).words(), [1, 2].as_slice());
    agree(&rt, Value::empty().words().len(), 0);
    Ok(())
}

// Stores a pair, and gets it.
fn store_and_get(rt: &impl Abort, sessions: &mut Typed<Shard<'_, Wide>, (u64, u64)>) {
    let key = sessions.insert(&(110, 42)).expect(rt, "a key");
    agree(rt, key, FIRST_KEY);
    let (hold, session) = sessions.get(key).expect(rt, "a session");
    agree(rt, session, (110, 42));
    agree(rt, sessions.release(hold), Ok(()));
}

#[test]
fn a_struct_of_two_numbers_is_stored_as_a_pair(rt: HostRuntime) {
    let (heap, seats) = opened(&rt, rt.alloc(), 2);
    let (owner, _) = owner_and_reader(&rt, rt.alloc(), &heap, seats);
    let mut sessions = Typed::<_, (u64, u64)>::new(owner);
    store_and_get(&rt, &mut sessions);
    let mut owner = sessions.into_store();
    agree(&rt, owner.remove(FIRST_KEY), Ok(()));
}

// Stores a pair, which another pass finds and removes.
fn store_and_find(
    rt: &impl Abort,
    sessions: &mut Typed<Shard<'_, Wide>, (u64, u64)>,
    found: &mut Typed<Pass<'_, Wide>, (u64, u64)>,
) {
    let key = sessions.insert(&(110, 42)).expect(rt, "a key");
    let (hold, session) = found.get(key).expect(rt, "a session");
    agree(rt, session, (110, 42));
    agree(rt, found.release(hold), Ok(()));
    agree(rt, found.remove(key), Ok(()));
    agree(rt, sessions.get(key), Err(Refusal::Gone));
}

#[test]
fn a_pass_looks_records_up(rt: HostRuntime) {
    let (heap, seats) = opened(&rt, rt.alloc(), 2);
    let (owner, reader) = owner_and_reader(&rt, rt.alloc(), &heap, seats);
    let mut sessions = Typed::<_, (u64, u64)>::new(owner);
    let mut found = Typed::<_, (u64, u64)>::new(reader);
    store_and_find(&rt, &mut sessions, &mut found);
}

// Gets a value of another kind, and removes it.
fn get_and_remove(rt: &impl Abort, triples: &mut Typed<Shard<'_, Wide>, [u64; 3]>, key: u64) {
    agree(rt, triples.get(key), Err(Refusal::WrongKind));
    agree(rt, triples.remove(key), Ok(()));
}

#[test]
fn what_is_of_another_kind_is_refused(rt: HostRuntime) {
    let (heap, seats) = opened(&rt, rt.alloc(), 2);
    let (mut owner, _) = owner_and_reader(&rt, rt.alloc(), &heap, seats);
    let key = owner.insert(&Value::from(7)).expect(&rt, "a key");
    let mut triples = Typed::<_, [u64; 3]>::new(owner);
    get_and_remove(&rt, &mut triples, key);
    agree(&rt, <[u64; 3]>::KIND, 3);
}

#[test]
fn a_refusal_says_why(rt: HostRuntime) -> Result<(), Fail> {
    let why = Shape::new(0, 1, 1).err();
    agree(&rt, why, Some(Refusal::BadShape));
    let shown = format!(in rt.alloc(); "{}", Refusal::Gone)?;
    agree(&rt, shown.starts_with("Gone: "), true);
    agree(&rt, Refusal::from((7, Refusal::Full)), Refusal::Full);
    Ok(())
}
