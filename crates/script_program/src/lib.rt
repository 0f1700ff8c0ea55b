//! The program `shardheap MODE [--accounts]`, without its `main`: it runs the script that a reader gives in a mode, and
//! writes the replies. `program` is the whole program, over the words of a command line, a reader and two writers.
//! `options` reads the command line, and `faults` has the text and the exit status of each fault. `words` is for a
//! process whose words cannot be read.
#![tactic(auto)]

pub mod faults;
pub mod options;
pub mod program;
pub mod words;
