//! The verdict on calls with times.
ghost use Rattle.std.specs.Prelude.{IfOk, IfErr, map};
ghost use Rattle.history_timed.specs.Placing.{call_of};
ghost use Rattle.history_timed.specs.Verdicts.{IsVerdictOn, HasLegalHistory, IsRefusedAt};

use crate::call::Call;
use crate::clashing::{first_clashing, refusal};
use crate::index::Index;
use crate::order::{Placed, in_order};
use crate::verdict::Verdict;
use history_audit::Audit;
use sh_history::Why;
use std::alloc::{AllocError, Global};

// Audits the calls in this order: on how many keys they are, if it is legal. Otherwise the first call that is not
// allowed, and why.
fn audited<'a>(
    alloc: Global,
    placed: &[Placed<'a>],
    passes: u32,
    guard_max: u32,
) -> Result<Result<usize, (&'a Call, Why)>, AllocError>
    ensures legal { IfOk result (λ found. IfOk found
        (HasLegalHistory passes guard_max (map call_of placed.now))) }
    ensures not_allowed { IfOk result (λ found. IfErr found
        (λ fault. IsRefusedAt passes guard_max (map call_of placed.now) fault.0.now fault.1)) }
{
    let mut audit = Audit::new(alloc, passes, guard_max);
    for at in placed {
        let entry = at.call.said.entry(&audit);
        if let Some(clash) = audit.push(at.call.line, &entry)? {
            return Ok(Err((at.call, clash.why)));
        }
    }
    Ok(Ok(audit.keys()))
}

/// Judges calls by their answers and times: whether some order of them that keeps to the times is legal, of a map with
/// this number of passes. A key may have at most `guard_max` holds. Calls that never ended may be left out. It stays
/// undecided only if the order that is tried is not legal, and no call clashes. Refused if memory is.
pub fn judge(
    alloc: Global,
    calls: &[Call],
    passes: u32,
    guard_max: u32,
) -> Result<Verdict, AllocError>
    ensures { IfOk result (IsVerdictOn passes guard_max calls.now) }
{
    let enough = (guard_max as u64 + 1).saturating_sub(passes as u64);
    let placed = in_order(alloc, calls, enough)?;
    let (call, why) = match audited(alloc, placed.as_slice(), passes, guard_max)? {
        Ok(keys) => return Ok(Verdict::Legal(placed.len() as u64, keys)),
        Err(fault) => fault,
    };
    let index = Index::new(alloc, calls)?;
    if let Some((clashing, clash)) = refusal(&index, call, why, passes, guard_max) {
        return Ok(Verdict::Broken(clashing.line, clash));
    }
    match first_clashing(&index, passes, guard_max) {
        Some((clashing, clash)) => Ok(Verdict::Broken(clashing.line, clash)),
        None => Ok(Verdict::Undecided(call.line, why)),
    }
}
