//! Tests of making a value word by word.
use super::agree;
use gearlongan::Value;

#[test]
fn a_value_grows_by_a_word(rt: HostRuntime) {
    let mut value = Value::empty();
    value.push(7);
    value.push(8);
    agree(&rt, value.words(), [7, 8].as_slice());
    agree(&rt, value.copy(), value);
}

#[test]
fn a_value_is_set_to_a_word_and_cleared(rt: HostRuntime) {
    let mut value = Value::of([7, 8]);
    value.set(9);
    agree(&rt, value.words(), [9].as_slice());
    value.clear();
    agree(&rt, value, Value::empty());
}

#[test]
fn a_word_goes_before_the_words_of_a_value(rt: HostRuntime) {
    let value = Value::prefixed(1, &Value::of([7, 8]));
    agree(&rt, value, Value::of([1, 7, 8]));
}
