//! The core: the heap as a state machine over its words, with the laws that hold after every list of events.
//!
//! An event is one action of one pass: one operation on one word, by a row of the table in `sh_step`. A world is the
//! words, what each pass has of its own, and one log of all replies. `refines_map` is the theorem, and
//! `refutes_wrong_tables` says that wrong tables of actions break it.
//!
//! A step in code finds the row of the action by its condition on the pass's own part. It does the row's operation on
//! the one word, and then changes the part and adds the entry. Room for the entry and for the part's lists is asked for
//! first, so a refused step changes nothing. The running heap takes the same rows on words that threads share.
#![tactic(auto)]

pub mod accounts;
pub mod claims;
mod entry;
pub mod laws;
mod moving;
pub mod opening;
pub mod outcome;
pub mod refuted;
pub mod world;

pub use accounts::Accounts;
pub use claims::refines_map;
pub use laws::{
    counts_leave_room, deciding_events_reply, plans_have_the_places_of_shapes, trails_grow,
};
pub use opening::opening_of;
pub use outcome::Outcome;
pub use refuted::{every_table_keeps, refutes_more_wrong_tables, refutes_wrong_tables};
pub use world::{World, run};
