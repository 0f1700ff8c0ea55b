//! Legality is local: a history is judged key by key. So the histories of heaps whose keys are apart are, in any
//! interleaving, a legal history of one map.
#![tactic(auto)]

pub mod laws;
pub mod refuted;

pub use laws::{
    groups_are_legal, interleavings_are_legal, keys_may_be_renamed, legality_is_local,
    one_history_of_all,
};
pub use refuted::{callers_order_is_not_local, refutes_wider_laws};
