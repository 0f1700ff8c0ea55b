//! All lines that clash.
ghost use Rattle.std.specs.Prelude.{IfOk};
ghost use Rattle.history_timed.specs.Verdicts.{AreFindings};

use crate::call::Call;
use crate::clashing::any_clash;
use crate::index::Index;
use history_audit::Clash;
use std::alloc::{AllocError, Global};

/// A line that is not allowed.
#[derive(Clone, Copy, Debug, PartialEq, Eq)]
pub struct Finding {
    /// Its number.
    pub line: u64,
    /// Why, and the line that it clashes with.
    pub clash: Clash,
}

/// The findings on calls with times, in the order of the calls: one for each call that no order allows which keeps to
/// the times. Refused if memory is.
pub fn findings(
    alloc: Global,
    calls: &[Call],
    passes: u32,
    guard_max: u32,
) -> Result<Vec<Finding>, AllocError>
    ensures { IfOk result (λ found. AreFindings passes guard_max calls.now calls.now found.items) }
{
    let index = Index::new(alloc, calls)?;
    let mut found = Vec::new(alloc);
    for call in calls {
        if let Some(clash) = any_clash(&index, call, passes, guard_max) {
            found.push(Finding {
                line: call.line,
                clash,
            })?;
        }
    }
    Ok(found)
}
