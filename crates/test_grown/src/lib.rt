//! Tests of growing heaps: the shapes of chunks, many values over several chunks, and full heaps. Others are of the
//! order in which an insert tries shards, of its steps, of refused memory, and of threads that open one chunk. The rest
//! are of receipts, of holds of a pass that is claimed again, and of shards that are left. They are of sizes, of
//! lengths that change, of walks over live keys, of keys that end, and of records that four threads store.
#![tactic(auto)]

#[cfg(test)]
mod chunks;
#[cfg(test)]
mod ends;
#[cfg(test)]
mod growing;
#[cfg(test)]
mod holds;
#[cfg(test)]
mod leaving;
#[cfg(test)]
mod lengths;
#[cfg(test)]
mod live_keys;
#[cfg(test)]
mod memory;
#[cfg(test)]
mod receipts;
#[cfg(test)]
mod records;
#[cfg(test)]
mod shapes;
#[cfg(test)]
mod sizes;
#[cfg(test)]
mod steps;
#[cfg(test)]
mod walks;
