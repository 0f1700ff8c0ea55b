//! What an owner keeps of each page of its shard: the slots that are its own, the page's class, and whether it is
//! armed.
//!
//! The states of all pages are asked for in one allocation, when the shard is adopted. They are written from page 0 on,
//! up to the last page that was used, and the pages behind are blank. A search for a page of which all slots are the
//! owner's begins at a bound, below which there is none.
#![tactic(auto)]

pub mod states;

pub use states::PageStates;
