//! The two kinds of hold: a plain one, and one that keeps the place.
ghost use Rattle.std.specs.Prelude.{◌≡◌, ◌≢◌, ℕ, Some, None};
ghost use Rattle.sh_step.specs.Moves.{place_named};
ghost use Rattle.sh_step.specs.Plans.{plan_of};

use sh_key::KeyLayout;
use sh_shape::Shape;
use sh_slots::KeyRef;
use sh_value::Hold;

/// A hold as a caller has it: its key, and a way to the place of the key's slot.
pub(crate) trait Holding<L: KeyLayout> {
    ghost key_of: { Self → ℕ };

    /// The key that is held.
    fn held_key(&self) -> u64
        ensures { result ≡ key_of self.now };

    /// What the key names in this shape, which has it.
    fn place_in(&self, shape: &Shape) -> KeyRef
        requires { place_named (plan_of L.layout shape.now) (key_of self.now) ≢ None }
        ensures { place_named (plan_of L.layout shape.now) (key_of self.now) ≡ Some result };
}

impl<L: KeyLayout> Holding<L> for Hold {
    ghost key_of = { λ hold. hold.key };

    #[inline(always)]
    fn held_key(&self) -> u64 {
        self.key
    }

    #[inline(always)]
    fn place_in(&self, shape: &Shape) -> KeyRef {
        place_of_held::<L>(shape, self.key)
    }
}

/// What a key names in a shape that has its place. The caller knows that it has, so nothing is tested again.
#[inline(always)]
pub(crate) fn place_of_held<L: KeyLayout>(shape: &Shape, key: u64) -> KeyRef
    requires { place_named (plan_of L.layout shape.now) key ≢ None }
    ensures { place_named (plan_of L.layout shape.now) key ≡ Some result }
{
    let Some(parts) = L::unpack(key) else {
        unreachable!()
    };
    KeyRef {
        page: u64::from(shape.page_number(parts.shard, parts.page)),
        slot: u64::from(parts.slot),
        generation: parts.generation,
    }
}
