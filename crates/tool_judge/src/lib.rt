//! The judge of a stress run. It keeps records of what the calls of each thread returned and when. `history_timed` says
//! whether an order of these answers that keeps to the times is a legal history, and a tally says what each page holds
//! by them. The dice, by which the threads choose their calls, are here too.
#![tactic(auto)]

pub mod counts;
pub mod dice;
pub mod end;
pub mod fault;
pub mod judge;
pub mod line;
pub mod pattern;
pub mod record;
pub mod tally;
pub mod walk;
