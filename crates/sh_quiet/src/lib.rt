//! What an owner finds that took in all other passes, so that no other pass steps. What it collects is all that was
//! put, Full is exact, and it never waits when it leaves.
//!
//! The core's laws of quiet heaps, as `collecting_finds_all`, speak of a world in which no pass has begun anything. The
//! passes that an owner took in have an idle hand, and it heard of all their steps. So a run that leads to its part and
//! to theirs, as a bundle gives one, is cut where it goes on alone, and their conditions hold there.
#![tactic(auto)]

pub mod laws;
pub mod leaving;

pub use laws::{
    collected_is_empty, full_is_exact, joins_are_heard, last_ones_are_quiet, leaves_never_wait,
};
pub use leaving::leave_last;
