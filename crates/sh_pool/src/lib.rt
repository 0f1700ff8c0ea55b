//! Pools: a heap with a pool slot for each of its passes. Any thread takes a pass out of its pool slot, and gives it
//! back.
//!
//! A heap has at most 64 passes, and a lost pass never comes back, while threads come and go. So a pool keeps the
//! passes that are not in use. A pass that was taken is given back, or lost by a call of that name. Neither `take` nor
//! `give` takes memory or waits.
//!
//! Pool slot n is for the pass of number n, and has a pointer to it, or none. A take empties the first full pool slot
//! that it finds by one atomic step, and a give fills the pool slot of its pass again. The box behind the pointer goes
//! along with the pass, so that a give asks for no memory.
#![tactic(auto)]

pub mod crossing;
mod pool;
mod pool_slot;
mod share;

pub use pool::Pool;
pub use pool_slot::{PoolSlot, Taken};
pub use share::{Share, give_pass, take_pass};
