//! The pages of an owner in queues: one for each class, one for the pages that are full, and the pages that are blank.
//!
//! ```text
//! class 0   3, 0      an insert of the class looks at the front page first
//! class 5   1
//! full      2, 4      a page leaves this queue if its bell rings, or if the owner frees one of its slots
//! blank     5, 6, 7   they have no class yet
//! ```
//!
//! Each opened page is in exactly one of these. All queues are one linked list of numbers, with room for every opened
//! page, so a move takes no memory.
#![tactic(auto)]

mod chain;
pub mod filing;
pub mod queues;

pub use filing::Filing;
pub use queues::Queues;
