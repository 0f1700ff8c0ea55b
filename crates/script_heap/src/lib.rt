//! Mode heap: a running heap is opened for a script of calls, and its lines are run in one thread. Once all passes have
//! met, the heap as a whole gives the accounts of its pages. Mode threads opens and gathers its heap by the same calls.
#![tactic(auto)]

pub mod heap_lines;
pub mod heap_output;
pub mod laws;
mod whole_heap;
