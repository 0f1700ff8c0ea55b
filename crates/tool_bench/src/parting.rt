//! Divides the passes among threads, and joins the outcomes of the threads.
ghost use Rattle.std.specs.Prelude.{◌≡◌, ◌++◌, reverse, min, vec_len, IfOk, IfErr};
ghost use Rattle.tool_load.specs.Outcomes.{AllTogether, TellsOf};

use sh_key::KeyLayout;
use sh_pass::Pass;
use std::alloc::{AllocError, Global};
use tool_load::fault::Fault;
use tool_load::outcome::{NOTHING, Outcome};

/// Takes `count` passes out of those that are left, or all if there are fewer: the last ones, the last one first.
pub fn taken<'a, L: KeyLayout>(
    alloc: Global,
    passes: &mut Vec<Pass<'a, L>>,
    count: usize,
) -> Result<Vec<Pass<'a, L>>, AllocError>
    ensures count { IfOk result (λ part. vec_len part ≡ min count (vec_len passes.old)) }
    ensures last { IfOk result (λ part. passes.old.items ≡ passes.new.items ++ reverse part.items) }
{
    let mut part = Vec::new(alloc);
    for _n in 0..count {
        if let Some(pass) = passes.pop() {
            part.push(pass)?;
        }
    }
    Ok(part)
}

/// The joint outcome of all threads, which ran at the same time, or the first fault. `Late` is returned only if there
/// is no other fault: what a thread waited for may have a fault of its own.
pub fn together(outcomes: &[Result<Outcome, Fault>]) -> Result<Outcome, Fault>
    ensures all { IfOk result (AllTogether outcomes.now) }
    ensures fault { IfErr result (TellsOf outcomes.now) }
{
    let mut all = NOTHING;
    let mut late = false;
    for outcome in outcomes {
        match outcome {
            Ok(outcome) => all = all.beside(*outcome),
            Err(Fault::Late) => late = true,
            Err(fault) => return Err(*fault),
        }
    }
    if late { Err(Fault::Late) } else { Ok(all) }
}
