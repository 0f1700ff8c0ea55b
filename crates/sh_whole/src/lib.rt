//! The whole of a pool's heap: all passes that are in their pool slots are joined in one. That one carries their tales,
//! so it knows the accounts of each page and the totals, and it is given back to a pool slot.
//!
//! ```text
//! gather_pool     takes all passes that are pooled, joins them if they know all passes, and gives one back
//! pool_totals     takes a pass, counts by it if it knows all passes, and gives it back
//! ```
//!
//! Otherwise each pass that was taken is given back, and the call is refused as `Away`.
#![tactic(auto)]

pub mod accounts;
mod calling;
pub mod keys;
pub mod refusal;
pub mod whole;

pub use accounts::{pool_accounts, pool_totals};
pub use keys::pool_next_key;
pub use refusal::NotTold;
pub use whole::{gather_pool, go_home, pool_whole, whole_of};
