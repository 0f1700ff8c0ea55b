//! The verdict on a whole list of entries.
ghost use Rattle.std.specs.Prelude.{◌↔◌, IsOk, IfOk, IfErr};
ghost use Rattle.sh_history.specs.History.{Legal};
ghost use Rattle.sh_history.specs.FirstFault.{IsFirstFault};

use crate::Audit;
use sh_history::{Entry, Why};
use std::alloc::{AllocError, Global};

/// What `sh_history::check` returns, in one pass over the entries. Refused if memory is.
pub fn check(
    alloc: Global,
    entries: &[Entry],
    passes: u32,
    guard_max: u32,
) -> Result<Result<(), (usize, Why)>, AllocError>
    ensures yes { IfOk result (λ verdict. IsOk verdict ↔ Legal passes guard_max entries.now) }
    ensures no { IfOk result (λ verdict. IfErr verdict
        (λ fault. IsFirstFault passes guard_max entries.now fault.0 fault.1)) }
{
    let mut audit = Audit::new(alloc, passes, guard_max);
    for (at, entry) in entries.iter().enumerate() {
        if let Some(clash) = audit.push(at as u64, entry)? {
            return Ok(Err((at, clash.why)));
        }
    }
    Ok(Ok(()))
}
