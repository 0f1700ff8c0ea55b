//! The layout of a chunk's keys, and the chunk's number in the bits above them.
ghost use Rattle.std.specs.Prelude.{◌≡◌, ℕ, ◌^◌, ◌<◌};
ghost use Rattle.sh_chunk.specs.Chunks.{chunked, chunked_numbers, with_chunk, chunk_of, key_within, IsKeyOfChunk};

use sh_key::KeyLayout;

/// How many chunks a heap may have: their numbers are those of 8 bits.
pub const CHUNKS: usize = 256;

// The keys of a chunk are below `CHUNK_KEYS`, and a chunk's number adds multiples of it.
const CHUNK_KEYS: u64 = 1 << 56;

/// The layout of a chunk: 64 shards of 4096 pages, 2^32 - 1 generations, 2^20 holds a key. Bits 56 to 63 of a key are
/// zero, so that they have room for the chunk's number.
#[derive(Drop)]
pub struct Chunked;

impl KeyLayout for Chunked {
    const SHARD_BITS: u32 = 6;

    const PAGE_BITS: u32 = 12;

    const GEN_MAX: u32 = u32::MAX;

    const GUARD_MAX: u32 = 1048576;

    ghost SHARD_BITS = { 6 };

    ghost PAGE_BITS = { 12 };

    ghost GEN_MAX = { 4294967295 };

    ghost GUARD_MAX = { 1048576 };

    ghost layout = { chunked };

    ghost numbers = { chunked_numbers };
}

impl Chunked {
    /// The key with the chunk's number at bits 56 to 63. No other chunk and key have this number.
    ///
    /// Key 5 of chunk 2 is `2 << 56 | 5`. Each key of the layout is below 2^56 (`chunked_keys_fit`).
    pub fn chunk_key(chunk: u8, key: u64) -> u64
        requires { key < 2 ^ 56 }
        ensures number { result ≡ with_chunk key chunk }
        ensures chunk { chunk_of result ≡ chunk }
        ensures key { key_within result ≡ key }
    {
        chunk as u64 * CHUNK_KEYS + key
    }

    /// The chunk and the key that a number has. Every number has a chunk, from 0 to 255, and a key below 2^56.
    pub fn split(number: u64) -> (u8, u64)
        ensures chunk { result.0 ≡ chunk_of number }
        ensures key { result.1 ≡ key_within number }

        // The chunk and key that are returned make the number, and if a chunk and key make it, they are returned.
        ensures makes { IsKeyOfChunk number result.0 result.1 }
        ensures only { (chunk key : ℕ) → IsKeyOfChunk number chunk key → result ≡ (chunk, key) }
    {
        ((number / CHUNK_KEYS) as u8, number % CHUNK_KEYS)
    }
}

#[cfg(test)]
mod tests {
    use super::*;
    use sh_key::Parts;

    #[test]
    fn a_number_has_a_chunk_and_a_key(rt: HostRuntime) {
        assert_eq!(rt; Chunked::chunk_key(2, 5), 144115188075855877);
        assert_eq!(rt; Chunked::split(144115188075855877), (2, 5));
        assert_eq!(rt; Chunked::split(u64::MAX), (255, 72057594037927935));
    }

    #[test]
    fn the_last_slot_has_a_key(rt: HostRuntime) {
        let last = Parts {
            generation: 1,
            shard: 63,
            page: 4095,
            slot: 47,
        };
        assert_eq!(rt; Chunked::pack(last), 33554415);
    }
}
