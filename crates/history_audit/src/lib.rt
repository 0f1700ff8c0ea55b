//! Histories that are judged while they come, one entry after the other. Each entry is allowed by those before it, or
//! it is named with the reason and the line that it clashes with. The verdict is that of `sh_history`. An entry takes a
//! few look-ups, and memory grows with the keys and the holds, not with the entries.
#![tactic(auto)]

pub mod audit;
pub mod clash;
pub mod holds;
pub mod note;
pub mod whole;

pub use audit::Audit;
pub use clash::Clash;
pub use whole::check;
