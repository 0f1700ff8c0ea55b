//! Passes that meet. Once two passes are joined, one of them can report for both. A pass that can report for all passes
//! of its heap has the heap as a whole: the accounts of its pages, their sums, and its live keys.
//!
//! A join adds no step. The first pass takes over what the second knows: its log, its steps, and all that it had heard
//! of. The second is gone then, so it steps no more. A pass that knows all passes of the heap is the only one left, and
//! no word changes but by its own steps. So it may read one word after the other: the class and states of a page, and
//! its stack, link by link.
#![tactic(auto)]

mod accounts;
pub mod accounts_by_page;
mod borrowing;
pub mod gathering;
mod keys;
pub mod laws;
pub mod next_keys;
pub mod totals;
pub mod view;

pub use accounts_by_page::{PageAccounts, all_accounts, page_accounts};
pub use borrowing::Whole;
pub use gathering::{gather, join, whole};
pub use laws::{notes_keep_histories, page_keys_are_all};
pub use next_keys::next_key;
pub use sh_core::Accounts;
pub use totals::{Totals, total};
pub use view::WholeOn;
