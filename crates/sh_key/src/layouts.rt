//! The layouts.
ghost use Rattle.std.specs.Prelude.{◌≡◌, ◌≢◌, ℕ, ◌/◌, ◌%◌, ◌^◌, ◌<◌, ◌↔◌, IfSome, IsNone, Some};
ghost use Rattle.sh_key.specs.Layouts.{tiny, tiny_numbers, wide, wide_numbers, tagged, tagged_numbers};
ghost use Rattle.sh_key.specs.Layouts.{deep, deep_numbers};
ghost use Rattle.sh_key.specs.Tag.{with_tag, IsTaggedKey};

use crate::KeyLayout;

// The keys of `Tagged` are below `TAGGED_KEYS`, and a tag adds multiples of `TAG_UNIT`.
const TAGGED_KEYS: u64 = 1 << 52;

const TAG_UNIT: u64 = 1 << 56;

/// The small layout, in which each limit can be seen: 4 shards of 16 pages, 3 generations, 4 holds a key.
#[derive(Drop)]
pub struct Tiny;

impl KeyLayout for Tiny {
    const SHARD_BITS: u32 = 2;

    const PAGE_BITS: u32 = 4;

    const GEN_MAX: u32 = 3;

    const GUARD_MAX: u32 = 4;

    ghost SHARD_BITS = { 2 };

    ghost PAGE_BITS = { 4 };

    ghost GEN_MAX = { 3 };

    ghost GUARD_MAX = { 4 };

    ghost layout = { tiny };

    ghost numbers = { tiny_numbers };
}

/// The layout for large heaps: 256 shards of 1024 pages, 2^32 - 1 generations, 2^20 holds a key.
#[derive(Drop)]
pub struct Wide;

impl KeyLayout for Wide {
    const SHARD_BITS: u32 = 8;

    const PAGE_BITS: u32 = 10;

    const GEN_MAX: u32 = u32::MAX;

    const GUARD_MAX: u32 = 1048576;

    ghost SHARD_BITS = { 8 };

    ghost PAGE_BITS = { 10 };

    ghost GEN_MAX = { 4294967295 };

    ghost GUARD_MAX = { 1048576 };

    ghost layout = { wide };

    ghost numbers = { wide_numbers };
}

/// The layout whose keys leave room for 8 bits of the user's: 64 shards of 256 pages, 2^32 - 1 generations, 2^20 holds
/// a key. Bits 52 to 63 of a key are zero.
#[derive(Drop)]
pub struct Tagged;

impl KeyLayout for Tagged {
    const SHARD_BITS: u32 = 6;

    const PAGE_BITS: u32 = 8;

    const GEN_MAX: u32 = u32::MAX;

    const GUARD_MAX: u32 = 1048576;

    ghost SHARD_BITS = { 6 };

    ghost PAGE_BITS = { 8 };

    ghost GEN_MAX = { 4294967295 };

    ghost GUARD_MAX = { 1048576 };

    ghost layout = { tagged };

    ghost numbers = { tagged_numbers };
}

/// The layout for the largest heaps: 64 shards of 1,048,576 pages, 2^32 - 1 generations, 2^20 holds a key. Its keys use
/// all 64 bits.
#[derive(Drop)]
pub struct Deep;

impl KeyLayout for Deep {
    const SHARD_BITS: u32 = 6;

    const PAGE_BITS: u32 = 20;

    const GEN_MAX: u32 = u32::MAX;

    const GUARD_MAX: u32 = 1048576;

    ghost SHARD_BITS = { 6 };

    ghost PAGE_BITS = { 20 };

    ghost GEN_MAX = { 4294967295 };

    ghost GUARD_MAX = { 1048576 };

    ghost layout = { deep };

    ghost numbers = { deep_numbers };
}

impl Tagged {
    /// The key with 8 bits of the user's at bits 56 to 63.
    pub fn tag(key: u64, tag: u8) -> u64
        requires { key < 2 ^ 52 }
        ensures { result ≡ with_tag key tag }
    {
        tag as u64 * TAG_UNIT + key
    }

    /// The user's bits and the key of a tagged number, or `None` if bits 52 to 55 are not all zero.
    pub fn untag(number: u64) -> Option<(u8, u64)>
        ensures none { IsNone result ↔ ((number / 2 ^ 52) % 16 ≢ 0) }

        // A tag and key that are returned make the number, and if a tag and key make it, they are returned.
        ensures tags { IfSome result (λ parts. IsTaggedKey number parts.0 parts.1) }
        ensures only { (tag key : ℕ) → IsTaggedKey number tag key → result ≡ Some (tag, key) }
    {
        if number / TAGGED_KEYS % 16 == 0 {
            Some(((number / TAG_UNIT) as u8, number % TAGGED_KEYS))
        } else {
            None
        }
    }
}
