//! The laws of packing.
ghost use Rattle.std.specs.Prelude.{ℕ, ◌^◌, ◌<◌, IsSome};
ghost use Rattle.sh_key.specs.Layout.{IsLayout, unpacked};
ghost use Rattle.sh_key.specs.Layouts.{tagged};
ghost use Rattle.sh_key.specs.Laws.{KeysUnpack, OnlyKeysUnpack, KeysFit, KeysAreConsecutive};

use crate::KeyLayout;

/// What is true of the keys of every layout. One number names one place and generation, and each key fits 64 bits. The
/// keys are the numbers from `first_key` on, `key_count` of them.
pub fn packing_laws<L: KeyLayout>()
    ensures lawful { IsLayout L.layout }
    ensures returns { KeysUnpack L.layout }
    ensures only { OnlyKeysUnpack L.layout }
    ensures fits { KeysFit L.layout }
    ensures consecutive { KeysAreConsecutive L.layout }
{}

/// Each key of `Tagged` is below 2^52, so that it may be tagged.
pub fn tagged_keys_fit()
    ensures { (k : ℕ) → IsSome (unpacked tagged k) → k < 2 ^ 52 }
{}
