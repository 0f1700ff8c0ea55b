//! Histories with the times of their calls: some order of the answers that keeps to the times is looked for, and judged
//! by `history_audit`.
//!
//! `course`, `holding` and `moment` give each call a moment within its times, `order` sorts by it, and `judging` audits
//! that order. It is proved that this order is legal, or that there is none by the lines named. It stays open only if no
//! call clashes with others of its key (`clashing`, `finding`). `index` answers what is asked of those without a look at
//! all calls.
#![tactic(auto)]

pub mod call;
mod changes;
pub mod clashing;
mod course;
pub mod finding;
mod holding;
pub mod index;
pub mod judging;
pub mod law;
mod marks;
mod moment;
mod order;
pub mod span;
pub mod verdict;

pub use call::{Call, Said};
pub use finding::{Finding, findings};
pub use judging::judge;
pub use law::clashes_forbid;
pub use span::Span;
pub use verdict::Verdict;
