//! Values whose words each show the value that they belong to.
ghost use Rattle.std.specs.Prelude.{◌≡◌, ◌≤◌, ◌↔◌, IsTrue, length};
ghost use Rattle.tool_judge.specs.Pattern.{mixed_word, IsPatternOf, IsPattern};

use sh_value::Value;

// An odd number with many bits, so that words of different values differ.
const SPREAD: u64 = 0x9e37_79b9_7f4a_7c15;

// The word of the value with this serial number at a place behind the first.
#[tactic(auto, unfolding(crate::specs::Pattern::mixed_word))]
fn word(serial: u64, place: u64) -> u64
    ensures { result ≡ mixed_word serial place }
{
    serial
        .wrapping_add(place)
        .wrapping_mul(SPREAD)
        .rotate_left(29)
}

/// The value with this serial number, of `len` words.
pub fn value(serial: u64, len: usize) -> Value
    requires { len ≤ 16 }
    ensures len { length result ≡ len }
    ensures words { IsPatternOf serial result }
{
    let mut words = [serial; 16];
    for place in 1..16u64 {
        words[place as usize] = word(serial, place);
    }
    match Value::new(&words[..len]) {
        Ok(value) => value,
        Err(_) => unreachable!(),
    }
}

/// Whether all words belong to one value.
pub fn is_whole(value: &Value) -> bool
    ensures { IsTrue result ↔ IsPattern value.now }
{
    let words = value.words();
    let Some(serial) = words.first() else {
        return true;
    };
    for place in 1..words.len() {
        if words[place] != word(*serial, place as u64) {
            return false;
        }
    }
    true
}
