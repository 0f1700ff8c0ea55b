//! What a pass does with one slot: what its hand holds, what a step on the slot's state word means to it, and what a
//! step replies.
//!
//! Each function takes the word that a step found, and returns what that means to the pass:
//!
//! ```text
//! get finds       live, in the key's generation, with room   ->  a hold
//!                 the same without room                      ->  Crowded, and the hand leaves the slot
//!                 any other word                             ->  Gone, and the hand leaves the slot
//! look finds      live, in the key's generation              ->  the hand looks on; at the end, Seen
//!                 marked in it, or of a later one            ->  Gone
//!                 any other word                             ->  nothing, since the key was not there yet
//! drop finds      marked, with a count of 1                  ->  the hand finishes the slot
//!                 any other word                             ->  nothing is left to do
//! ```
#![tactic(auto)]

pub mod enter;
pub mod fill;
pub mod free;
pub mod hand;
pub mod look;
pub mod reply;

pub use enter::{GetAnswer, after_enter_remove, answer_to_get, is_live_at, is_past_at};
pub use fill::published_name;
pub use free::{
    after_drop, finished_word, is_first_mark, is_reusable_after, marked_word, retired_word,
    reusable_word,
};
pub use hand::{Hand, KeyRef, Sight, SlotRef};
pub use look::after_look;
pub use reply::Reply;
