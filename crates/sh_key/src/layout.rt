//! How keys are packed.
ghost use Rattle.std.specs.Prelude.{◌≡◌, ℕ, ◌+◌, ◌*◌, ◌^◌, ◌<◌, ◌≤◌, ◌↔◌, IsTrue, IfSome, Some, None};
ghost use Rattle.sh_key.specs.declared.parts.Parts.{Parts};
ghost use Rattle.sh_key.specs.Layout.{Layout, HasNumbers, IsInRange, IsKeyOf, packed, unpacked, first_key, key_count};

use crate::Parts;

// How many numbers this many bits have.
fn power_of_two(bits: u32) -> u64
    requires { bits ≤ 32 }
    ensures power { result ≡ 2 ^ bits }
    ensures small { result ≤ 2 ^ 32 }
{
    1 << bits
}

// The number whose digits are the parts, if a shard's digit is below `shards` and a page's below `pages`.
fn joined(parts: Parts, shards: u64, pages: u64) -> u64
    requires some_page { 1 ≤ pages }
    requires fits { ((parts.generation * shards + parts.shard) * pages + parts.page) * 64 + parts.slot < 2 ^ 64 }
    ensures { result ≡ ((parts.generation * shards + parts.shard) * pages + parts.page) * 64 + parts.slot }
{
    let shard = parts.generation as u64 * shards + parts.shard as u64;
    let page = shard * pages + parts.page as u64;
    page * 64 + parts.slot as u64
}

/// How a place and a generation are packed into a key, and what a slot and a key may have.
///
/// A layout gives its four numbers; all the rest is proved once, for every layout. A key is the number `((generation ·
/// 2^SHARD_BITS + shard) · 2^PAGE_BITS + page) · 64 + slot`, so one number names one place and generation.
pub trait KeyLayout: Drop {
    /// How many bits of a key name the shard. With `PAGE_BITS` at most 26, so that a key fits 64 bits.
    const SHARD_BITS: u32;

    /// How many bits of a key name the page of the shard.
    const PAGE_BITS: u32;

    /// The last generation of a slot, at least 1: a slot stores this many values, one after the other.
    const GEN_MAX: u32;

    /// How many holds a key may have: at least 1, and with one more for each of 64 passes below 2^30.
    const GUARD_MAX: u32;

    ghost SHARD_BITS: { ℕ };

    ghost PAGE_BITS: { ℕ };

    ghost GEN_MAX: { ℕ };

    ghost GUARD_MAX: { ℕ };

    // The four numbers as one value, and that they are within the limits.
    ghost layout: { Layout };

    ghost numbers: { HasNumbers layout SHARD_BITS PAGE_BITS GEN_MAX GUARD_MAX };

    /// Whether each part is within the layout: a generation from 1 to `GEN_MAX`, a shard and a page of their bits, and
    /// a slot below 64.
    final fn in_range(parts: Parts) -> bool
        ensures { IsTrue result ↔ IsInRange layout parts }
    {
        1 <= parts.generation
            && parts.generation <= Self::GEN_MAX
            && (parts.shard as u64) < power_of_two(Self::SHARD_BITS)
            && (parts.page as u64) < power_of_two(Self::PAGE_BITS)
            && parts.slot < 64
    }

    /// The key of these parts, which are in range.
    final fn pack(parts: Parts) -> u64
        requires { IsInRange layout parts }
        ensures key { result ≡ packed layout parts }
        ensures unpacks { unpacked layout result ≡ Some parts }
    {
        let shards = power_of_two(Self::SHARD_BITS);
        let pages = power_of_two(Self::PAGE_BITS);
        joined(parts, shards, pages)
    }

    /// The parts of a key, or `None` if the number is the key of no parts in range.
    final fn unpack(key: u64) -> Option<Parts>
        ensures parts { result ≡ unpacked layout key }

        // Parts that are returned are in range and have this key, and if parts in range have this key, they are
        // returned.
        ensures packs { IfSome result (λ p. IsKeyOf layout p key) }
        ensures only { (p : Parts) → IsKeyOf layout p key → result ≡ Some p }
    {
        let shards = power_of_two(Self::SHARD_BITS);
        let pages = power_of_two(Self::PAGE_BITS);
        let page = key / 64;
        let shard = page / pages;
        let generation = shard / shards;
        if generation == 0 || generation > Self::GEN_MAX as u64 {
            return None;
        }
        Some(Parts {
            generation: generation as u32,
            shard: (shard % shards) as u32,
            page: (page % pages) as u32,
            slot: (key % 64) as u32,
        })
    }

    /// The least key. The keys are the numbers from it on, `key_count` of them.
    final fn first_key() -> u64
        ensures first { result ≡ first_key layout }
        ensures small { result ≤ 2 ^ 32 }
    {
        power_of_two(Self::SHARD_BITS + Self::PAGE_BITS + 6)
    }

    /// How many keys there are.
    final fn key_count() -> u64
        ensures { result ≡ key_count layout }
    {
        Self::GEN_MAX as u64 * Self::first_key()
    }
}
