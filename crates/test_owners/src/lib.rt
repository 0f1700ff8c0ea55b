//! Tests of owners: worked calls, shards that change hands, passes that stop, threads, and refused memory.
#![tactic(auto)]

#[cfg(test)]
mod shard;
