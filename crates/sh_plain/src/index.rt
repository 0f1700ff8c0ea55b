//! What a plain store looks up in place of going through its entries: what it knows of each issued key, and the holds.
ghost use Rattle.std.specs.Prelude.{◌≡◌, ◌<◌, ◌≤◌, count_by, position, IfErr, OnOk, OnErr, vec_len, vec_capacity};
ghost use Rattle.std.specs.Option.{option_copied};
ghost use Rattle.sh_plain.specs.Index.{issued_at, is_hold_by, is_hold_of, is_hold_on};

use sh_value::{Refusal, Value};

// What is known of an issued key.
#[derive(Drop)]
pub(crate) struct Issued {
    pub(crate) value: Value,
    pub(crate) removed: bool,
}

// A hold that a pass has on a key.
#[derive(Clone, Copy)]
pub(crate) struct Held {
    pub(crate) pass: u32,
    pub(crate) key: u64,
}

// Makes room for one more item. The list stays as it is.
pub(crate) fn make_room<T>(items: &mut Vec<T>) -> Result<(), Refusal>
    ensures items { items.new.items ≡ items.old.items }
    ensures room { OnOk result (vec_len items.new < vec_capacity items.new) }
    // It asks for no more room than for this item.
    ensures lean { OnErr result (vec_capacity items.old ≤ vec_len items.old) }
    ensures memory { IfErr result (λ refusal. refusal ≡ Refusal.Memory) }
{
    match items.reserve(1) {
        Ok(()) => Ok(()),
        Err(_) => Err(Refusal::Memory),
    }
}

// What is known of the key. The first item is for the first key, and each further item for the next key.
pub(crate) fn issued_at(issued: &[Issued], first: u64, key: u64) -> Option<&Issued>
    ensures { option_copied result ≡ issued_at first issued.now key }
{
    if key < first {
        None
    } else {
        issued.get((key - first) as usize)
    }
}

// The place of a hold of the pass on the key.
pub(crate) fn find_hold(holds: &[Held], pass: u32, key: u64) -> Option<usize>
    ensures { result ≡ position (is_hold_by pass key) holds.now }
{
    holds
        .iter()
        .position(|held| held.pass == pass && held.key == key)
}

// The number of holds that the pass has.
pub(crate) fn hold_count(holds: &[Held], pass: u32) -> usize
    ensures { result ≡ count_by (is_hold_of pass) holds.now }
{
    holds.iter().filter(|held| held.pass == pass).count()
}

// The number of holds on the key.
pub(crate) fn holds_on(holds: &[Held], key: u64) -> usize
    ensures { result ≡ count_by (is_hold_on key) holds.now }
{
    holds.iter().filter(|held| held.key == key).count()
}
