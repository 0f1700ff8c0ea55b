//! Scripts of atomic steps in every order of their lines.
//!
//! A script brings a heap to a state, and then lists for each pass what it does. `explore` runs the lines on the core,
//! in every order that keeps the order of each pass. It returns each outcome: what the passes were replied, how many
//! orders lead to it, and one of them. Of states that are alike after the same number of steps it follows one.
#![tactic(auto)]

mod alike;
pub mod answer;
pub mod calls;
mod changes;
pub mod comments;
pub mod expected;
pub mod found;
mod heap;
mod known;
mod lane;
mod level;
mod next;
pub mod orders;
mod play;
pub mod report;
mod room;
mod seen;
mod state;
pub mod text;
pub mod walk;

pub use found::{Cut, Explored, Found, Limit, Program, Whole};
pub use orders::Orders;
pub use walk::explore;
