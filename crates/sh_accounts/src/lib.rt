//! The accounts of a heap's pages: how many of the slots of a page's class are of each kind, after every list of
//! events.
//!
//! Most of the kinds can be read off a slot's state word. An empty slot is its owner's, in a pass's hand, or queued:
//! the parts of all passes decide which. What no part has is queued.
#![tactic(auto)]

pub mod kinds;
pub mod page_accounts;

pub use page_accounts::page;
pub use sh_core::Accounts;
