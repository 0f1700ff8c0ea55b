//! The keys that a pass holds: each is listed once for each hold on it, in any order.
ghost use Rattle.std.specs.Prelude.{◌≡◌, ◌==◌, ◌-◌, ◌↔◌, IsTrue, true, Some, position, slice_get, length};
ghost use Rattle.sh_step.specs.Collections.{has, without};
ghost use Rattle.sh_pass.specs.Passes.{HoldsKept};

use arrayvec::ArrayVec;
use sh_value::HOLDS_MAX;

/// The first place of the key.
pub(crate) fn find(held: &[u64], key: u64) -> Option<usize>
    ensures { result ≡ position (λ k. k == key) held.now }
{
    held.iter().position(|k| *k == key)
}

// The same, as a separate function for calls that are rarely made.
#[cold]
#[inline(never)]
fn find_behind(held: &[u64], key: u64) -> Option<usize>
    ensures { result ≡ position (λ k. k == key) held.now }
{
    find(held, key)
}

// Whether the key is the one that was held last.
fn is_last(held: &[u64], key: u64) -> bool
    ensures { IsTrue result ↔ (slice_get held.now (length held.now - 1) ≡ Some key) }
{
    match held.last() {
        Some(last) => *last == key,
        None => false,
    }
}

/// Whether the key is in the list. Mostly it is the last one, which is looked at first.
pub(crate) fn is_held(held: &[u64], key: u64) -> bool
    ensures { result ≡ has (λ k. k == key) held.now }
{
    is_last(held, key) || find_behind(held, key).is_some()
}

/// Removes one hold on the key from the list, which has one.
pub(crate) fn remove_one(held: &mut ArrayVec<u64, HOLDS_MAX>, key: u64)
    requires { has (λ k. k == key) held.old.items ≡ true }
    ensures { HoldsKept held.new.items (without (λ k. k == key) held.old.items) }
{
    if is_last(held.as_slice(), key) {
        held.pop();
    } else if let Some(at) = find_behind(held.as_slice(), key) {
        // Their order means nothing, so only the last one moves.
        held.swap_remove(at);
    }
}
