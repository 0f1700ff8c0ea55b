//! Tests of values, of refusals as they are shown, and of the numbers that are records.
use crate::assertions::agree;
use sh_value::{Record, Refusal, Value};
use std::alloc::AllocError;
use std::fmt::Debug;
use std::process::Abort;
use std::test::Fail;

#[test]
fn holds_up_to_sixteen_words(rt: HostRuntime) -> Result<(), Fail> {
    let words = [1, 2, 3, 4, 5, 6, 7, 8, 9, 10, 11, 12, 13, 14, 15, 16, 17];
    let whole = Value::new(&words[..16]).expect(&rt, "sixteen words fit");
    agree(&rt, whole.words(), &words[..16]);
    agree(&rt, whole.copy(), whole);
    agree(&rt, Value::new(&words), Err(Refusal::TooLong));
    let mut empty = Value::new(&[]).expect(&rt, "no word fits");
    agree(&rt, empty.words(), [].as_slice());
    agree(&rt, empty.copy(), Value::empty());
    empty.push(7);
    agree(&rt, empty.words(), [7].as_slice());
    empty.clear();
    agree(&rt, empty, Value::empty());
    agree(&rt, Value::of([5, 6]).words(), [5, 6].as_slice());
    agree(&rt, Value::from(9).words(), [9].as_slice());
    let rest = Value::new(&[5, 6]).expect(&rt, "two words fit");
    agree(&rt, Value::prefixed(1, &rest).words(), [1, 5, 6].as_slice());
    Ok(())
}

// Whether it had two words, one or none.
#[test]
fn is_set_to_one_word(rt: HostRuntime) {
    let mut value = Value::of([7, 8]);
    value.set(9);
    agree(&rt, value.words(), [9].as_slice());
    value.set(10);
    agree(&rt, value.words(), [10].as_slice());
    value.clear();
    value.set(11);
    agree(&rt, value, Value::from(11));
}

// Whether it had fewer words, as many or more.
#[test]
fn is_set_to_several_words(rt: HostRuntime) {
    let mut value = Value::of([7]);
    value.set_words(&[8, 9]);
    agree(&rt, value.words(), [8, 9].as_slice());
    value.set_words(&[10, 11]);
    agree(&rt, value.words(), [10, 11].as_slice());
    value.set_words(&[12]);
    agree(&rt, value, Value::from(12));
}

#[test]
fn refusals_have_numbers_and_names(rt: HostRuntime) -> Result<(), Fail> {
    let table = [
        (Refusal::BadKey, 1, "BadKey"),
        (Refusal::Gone, 2, "Gone"),
        (Refusal::Crowded, 3, "Crowded"),
        (Refusal::HoldsFull, 4, "HoldsFull"),
        (Refusal::NotHeld, 5, "NotHeld"),
        (Refusal::TooLong, 6, "TooLong"),
        (Refusal::Full, 7, "Full"),
        (Refusal::Memory, 8, "Memory"),
        (Refusal::Taken, 9, "Taken"),
        (Refusal::NoShard, 10, "NoShard"),
        (Refusal::Waiting, 11, "Waiting"),
        (Refusal::BadShape, 12, "BadShape"),
        (Refusal::WrongKind, 13, "WrongKind"),
    ];
    for (refusal, number, name) in table {
        agree(&rt, (refusal.number(), refusal.name()), (number, name));
        let shown = format!(in rt.alloc(); "{refusal}")?;
        assert!(rt; shown.starts_with(name), "{shown}");
        assert!(rt; shown[name.len()..].starts_with(": "), "{shown}");
    }
    let lost: Refusal = AllocError.into();
    agree(&rt, lost, Refusal::Memory);
    agree(&rt, Refusal::from((7, Refusal::Taken)), Refusal::Taken);
    Ok(())
}

// The record is stored as these words, its kind is their number, and it is read from them only.
fn is_stored_as<R: Record>(rt: &impl Abort, stored: R, words: &[u64])
where
    R: PartialEq + Debug + Drop,
{
    let value = stored.encode();
    agree(rt, value.words(), words);
    agree(rt, R::KIND, words.len() as u64);
    agree(rt, R::decode(&value), Some(stored));
    agree(rt, R::decode(&Value::prefixed(0, &value)), None);
    agree(rt, R::decode(&Value::empty()), None);
}

#[test]
fn numbers_are_records(rt: HostRuntime) -> Result<(), Fail> {
    is_stored_as(&rt, 7, &[7]);
    is_stored_as(&rt, [7], &[7]);
    is_stored_as(&rt, (8, 7), &[8, 7]);
    is_stored_as(&rt, (9, 8, 7), &[9, 8, 7]);
    is_stored_as(
        &rt,
        (1, 2, 3, 18446744073709551615),
        &[1, 2, 3, 18446744073709551615],
    );
    is_stored_as(
        &rt,
        [1, 2, 3, 4, 5, 6, 7, 8, 9, 10, 11, 12, 13, 14, 15],
        &[1, 2, 3, 4, 5, 6, 7, 8, 9, 10, 11, 12, 13, 14, 15],
    );
    agree(&rt, <[u64; 2]>::decode(&(4, 5).encode()), Some([4, 5]));
    Ok(())
}
