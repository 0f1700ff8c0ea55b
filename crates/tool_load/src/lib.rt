//! The input and output of a run of the bench: its command line, the workloads and layouts, the values that it stores,
//! and a shape with room for them. It reports the counts and times of its threads.
#![tactic(auto)]

pub mod command_line;
pub mod demand;
pub mod fault;
pub mod layout;
pub mod options;
pub mod outcome;
pub mod plan;
pub mod samples;
pub mod workload;
