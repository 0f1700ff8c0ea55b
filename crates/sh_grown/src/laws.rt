//! The chunks of a growing heap are one map, and none is larger than half of those before it.
ghost use Rattle.sh_grown.specs.OneMap.{BundlesHaveOneMap, CallersHaveOneMap};
ghost use Rattle.sh_grown.specs.Sizes.{FewInAll, HalfAsLarge};

/// A caller sees one map: one legal history, on keys with their chunk's number, has what it knows in each chunk. That
/// is the tale of its member there, and so its log. `Caller::receipt` says it of the running heap.
///
/// The caller's own order over several chunks is not in it: see `one_history_of_chunks`.
pub fn callers_have_one_map()
    ensures { CallersHaveOneMap }
{}

/// The same of callers that ended together, in a bundle of each chunk: one legal history has the logs of all of them.
/// That of a bundle is the log of a run of the core which leads to all its parts.
pub fn bundles_have_one_map()
    ensures { BundlesHaveOneMap }
{}

/// A chunk has at most half as many words as all those before it together, and one word. The first one has to have two
/// segments, as that of `Growing::open`. An insert opens a chunk only if each shard of those before it was refused. So
/// all chunks have at most 1.5 times the words of those that were refused, and one.
pub fn chunks_grow_by_half()
    ensures half { HalfAsLarge }
    ensures all { FewInAll }
{}
