//! Workers that have ended: their passes, and the answers to the calls of each.
ghost use Rattle.std.specs.Prelude.{◌≡◌, ◌≤◌, ◌∷◌, [], length, map, vec_len, IfOk, IfErr, MatchOption};
ghost use Rattle.std.specs.Vec.{vec_capacity};
ghost use Rattle.script_calls.specs.Parts.{passes_below};
ghost use Rattle.script_workers.specs.Gathers.{HaveEnded};

use crate::room::Room;
use crate::worker::{Made, Worker};
use script_calls::side::Side;
use sh_script::Fault;
use std::alloc::{AllocError, Global};
use std::marker::Model;
use std::vec::IntoIter;

/// Calls that were made, from the first on. A contract sees the list of them.
#[derive(Drop)]
pub struct Rest {
    made: IntoIter<Made>,
}

impl Model for Rest {
    ghost use Rattle.std.specs.Prelude.{List};
    ghost use Rattle.std.specs.Vec.Iter.{into_iter_items};
    ghost use Rattle.script_workers.specs.declared.worker.Made.{Made};

    ghost Value = { List Made };

    ghost view = { λ r. into_iter_items r.made };
}

impl Rest {
    /// All of them.
    pub fn new(made: Vec<Made>) -> Rest
        ensures { result ≡ made.items }
    {
        Rest {
            made: made.into_iter(),
        }
    }

    /// The next one.
    pub fn take(&mut self) -> Option<Made>
        ensures { MatchOption result (self.old ≡ []) (λ m. self.old ≡ m ∷ self.new) }
    {
        self.made.next()
    }
}

/// The passes of workers that have ended, pass n at place n, and the calls that each made.
#[derive(Drop)]
pub struct Ended<S: Side> {
    pub sides: Vec<S>,
    pub rests: Vec<Rest>,
}

impl<S: Side> Ended<S> {
    /// Of no worker yet, with room for this many.
    pub fn with_capacity(alloc: Global, count: usize) -> Result<Self, AllocError>
        ensures sides { IfOk result (λ ended. (ended.sides.items ≡ []) × (count ≤ vec_capacity ended.sides)) }
        ensures rests { IfOk result (λ ended. (ended.rests.items ≡ []) × (count ≤ vec_capacity ended.rests)) }
    {
        Ok(Ended {
            sides: Vec::with_capacity(alloc, count)?,
            rests: Vec::with_capacity(alloc, count)?,
        })
    }
}

/// The passes of these workers, and the calls of each. `Io` if one did not make all its calls.
pub fn all_ended<S: Side, B: Room>(
    empty: Ended<S>,
    workers: Vec<Worker<S, B>>,
    count: usize,
) -> Result<Ended<S>, Fault>
    requires empty { (empty.sides.items ≡ []) × (empty.rests.items ≡ []) }
    requires space { (vec_len workers ≤ vec_capacity empty.sides) × (vec_len workers ≤ vec_capacity empty.rests) }
    requires count { count ≡ length B.lines }
    requires all { workers.items ≡ passes_below B.terms.shape.passes }
    ensures ended { IfOk result (λ ended. HaveEnded B.heap B.terms B.tag B.lines B.terms.shape.passes
        (map S.seen ended.sides.items) ended.rests.items) }
    ensures fault { IfErr result (λ fault. fault ≡ Fault.Io) }
{
    let Ended {
        mut sides,
        mut rests,
    } = empty;
    for worker in workers {
        let Some((side, made)) = worker.finish(count) else {
            return Err(Fault::Io);
        };
        sides.push_reserved(side);
        rests.push_reserved(Rest::new(made));
    }
    Ok(Ended { sides, rests })
}
