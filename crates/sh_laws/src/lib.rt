//! Laws of runs, in the words of those who use a heap. Nothing here runs: each law is a function with an empty body.
//!
//! They speak of every list of events of the core. So they hold of the running heap, whose words and passes are always
//! a state of the core.
#![tactic(auto)]

pub mod laws;
pub mod refuted;

pub use laws::{
    core_is_strongly_linearizable, garbage_is_bounded, keys_end_once, missed_is_absent,
    whole_object_is_atomic,
};
pub use refuted::{refutes_wider_laws, refutes_wrong_cores};
