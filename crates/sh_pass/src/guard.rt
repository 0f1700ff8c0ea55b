//! Holds that know where their key's slot is.
ghost use Rattle.std.specs.Prelude.{◌≡◌, ◌≢◌, Some, None};
ghost use Rattle.sh_step.specs.Moves.{place_named};
ghost use Rattle.sh_step.specs.Plans.{plan_of};

use crate::holding::{Holding, place_of_held};
use sh_key::KeyLayout;
use sh_shape::Shape;
use sh_slots::KeyRef;
use sh_value::Hold;
use std::marker::{Model, PhantomData};

/// A hold on a key that keeps the place of the key's slot.
///
/// It is for a caller that uses a value more than once. `get_guard` of a pass or of a shard returns it, and
/// `read_guard` and `release_guard` take it. It is the same hold as the plain `Hold` of its key. A contract sees no
/// more of a guard, `hold` returns the plain one, and the two kinds may be mixed. A guard releases nothing when it is
/// dropped: it does not know the pass that holds. (So the name says what it guards: the place.)
///
/// The place depends on the number of pages of a shard. A guard from a heap whose shards have another number of pages
/// does what its plain hold would do.
#[derive(Drop)]
pub struct Guard<L: KeyLayout> {
    key: u64,
    name: KeyRef,
    // The number of pages of a shard for which the key has this place.
    pages: u32,
    layout: PhantomData<L>,
}

impl<L: KeyLayout> Model for Guard<L> {
    ghost use Rattle.std.specs.Prelude.{◌≡◌};
    ghost use Rattle.sh_value.specs.declared.hold.Hold.{Hold};
    ghost use Rattle.sh_pass.specs.Placing.{IsPlacedBy};

    ghost Value = { Hold };

    ghost view = { λ g. record { key = g.key } };

    ghost invariant = { λ g. IsPlacedBy L.layout g.pages g.key g.name };
}

impl<L: KeyLayout> Guard<L> {
    // The guard of a key whose place in the shape is this.
    #[inline(always)]
    pub(crate) fn new(key: u64, name: KeyRef, shape: &Shape) -> Self
        requires { place_named (plan_of L.layout shape.now) key ≡ Some name }
        ensures { result ≡ record { key = key } }
    {
        Guard {
            key,
            name,
            pages: shape.pages(),
            layout: PhantomData,
        }
    }

    /// The key that is held.
    pub fn key(&self) -> u64
        ensures { result ≡ self.now.key }
    {
        self.key
    }

    /// The plain hold of the same key.
    pub fn hold(&self) -> Hold
        ensures { result ≡ self.now }
    {
        Hold { key: self.key }
    }
}

impl<L: KeyLayout> Holding<L> for Guard<L> {
    ghost key_of = { λ guard. guard.key };

    #[inline(always)]
    fn held_key(&self) -> u64 {
        self.key
    }

    // Mostly it is the heap that the guard is for.
    #[inline(always)]
    fn place_in(&self, shape: &Shape) -> KeyRef {
        if self.pages == shape.pages() {
            self.name
        } else {
            place_elsewhere::<L>(shape, self.key)
        }
    }
}

// The place of a key in a shape that the guard is not for.
#[cold]
#[inline(never)]
fn place_elsewhere<L: KeyLayout>(shape: &Shape, key: u64) -> KeyRef
    requires { place_named (plan_of L.layout shape.now) key ≢ None }
    ensures { place_named (plan_of L.layout shape.now) key ≡ Some result }
{
    place_of_held::<L>(shape, key)
}
