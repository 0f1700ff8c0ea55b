//! The atomic steps of the heap: the actions, and the passes that do them.
//!
//! An action is one operation on one word by one pass. There are 19 kinds; some have several forms, as a `Drop` of what
//! the hand left and a `Drop` of a hold.
//!
//! ```text
//! Move::of      action, part       ->  the move, if the action's condition holds of the part
//! Move::step    move               ->  the place of one word, and the operation on it
//! Part::apply   move, word found   ->  the part after the step, and the reply
//! ```
//!
//! Other threads may step between these calls. None of the three looks at a word but the one that the operation found.
#![tactic(auto)]

pub mod action;
pub mod body;
pub mod footstep;
mod in_hand;
mod keyed;
pub mod kind;
pub mod laws;
pub mod moves;
pub mod names;
pub mod operands;
pub mod operation;
mod owners;
mod paged;
pub mod part;
mod slotted;
pub mod step;
mod steps;

pub use action::{Action, Event, PageName, SlotName};
pub use body::Body;
pub use footstep::Footstep;
pub use kind::ActionKind;
pub use laws::{
    conditions_have_rows, deciding_steps_reply, footsteps_count, hands_end, room_does_not_wrap,
    steps_look_at_no_part,
};
pub use moves::{Move, enabled};
pub use operation::Operation;
pub use part::Part;
pub use step::Step;
