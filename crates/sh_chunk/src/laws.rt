//! Laws of the keys of chunks.
ghost use Rattle.std.specs.Prelude.{ℕ, ◌^◌, ◌<◌, IsSome};
ghost use Rattle.sh_key.specs.Layout.{unpacked};
ghost use Rattle.sh_chunk.specs.Chunks.{chunked};
ghost use Rattle.sh_chunk.specs.Histories.{OneHistoryOfChunks};

/// Each key of `Chunked` is below 2^56, so that a chunk's number may be put above it.
pub fn chunked_keys_fit()
    ensures { (k : ℕ) → IsSome (unpacked chunked k) → k < 2 ^ 56 }
{}

/// Legal histories of chunks make one legal history of one map, on keys with the chunk's number above them. In it, the
/// entries of each chunk are those of that chunk's history on keys below 2^56, in order. These are all if each is on a
/// key of `Chunked`.
///
/// It says nothing of a caller's order over several chunks: see `callers_order_is_not_local` of `history_local`.
pub fn one_history_of_chunks()
    ensures { OneHistoryOfChunks }
{}
