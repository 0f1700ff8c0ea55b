//! What heeding a receipt guarantees.
ghost use Rattle.std.specs.Prelude.{◌≡◌, ◌⊎◌};
ghost use Rattle.sh_pass.specs.Receipts.{RemovalRefused, GetsAfterRemoval};

use crate::keeping::KeepsHeap;
use crate::pass::PassOn;
use sh_key::KeyLayout;
use sh_table::heard_comes_first;
use sh_value::{Hold, Refusal};

/// Removes a key by one pass, and then gets it by another, which heeds a receipt of the removal. If the removal is
/// refused, as `BadKey` or `Gone`, the call ends there. Otherwise the get does not find the key: it is refused, and not
/// as `Crowded`.
pub fn remove_then_get<L: KeyLayout, H: KeepsHeap<L>>(
    one: &mut PassOn<L, H>,
    other: &mut PassOn<L, H>,
    key: u64,
) -> Result<Hold, Refusal>
    requires { other.old.heap ≡ one.old.heap }
    ensures { RemovalRefused L.layout key one.old other.old result one.new other.new
        ⊎ GetsAfterRemoval L.layout key one.old other.old result one.new other.new }
{
    one.remove(key)?;
    let told = one.receipt();
    other.heed(told);
    heard_comes_first();
    other.get(key)
}
