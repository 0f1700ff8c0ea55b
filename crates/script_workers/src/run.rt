//! All workers at once.
ghost use Rattle.std.specs.Prelude.{◌≡◌, ◌≤◌, IfOk, IfErr, map, [], vec_len};
ghost use Rattle.std.specs.Vec.{vec_capacity};
ghost use Rattle.script_output.specs.Keys.{HasTagRoom};
ghost use Rattle.script_output.specs.Ends.{IsEndFault};
ghost use Rattle.script_workers.specs.Promises.{promised};

use crate::gate::Gate;
use crate::room::Room;
use crate::worker::{Shared, Worker};
use script_calls::side::Side;
use sh_script::Fault;
use std::sync::Wait;
use std::thread;
use std::thread::{Promise, PromisedHandle, Scope, Threads};

/// The number of the worker.
#[derive(Clone, Copy, Drop)]
pub struct Number(usize);

impl<S: Side, B: Room> Promise<Worker<S, B>> for Number {
    ghost use Rattle.std.specs.Prelude.{◌≡◌};

    ghost kept_by = { λ p w. w ≡ p.0 };
}

/// A worker that has ended because it has no lines of its own, or the thread of one that may run.
#[derive(Drop)]
pub enum Started<S: Side, B: Room> {
    Here(Worker<S, B>),
    There(PromisedHandle<Worker<S, B>, Number>),
}

// Waits until all have ended.
fn joined<S: Side, B: Room, R: Threads>(
    rt: &R,
    handles: Vec<Started<S, B>>,
    mut all: Vec<Worker<S, B>>,
) -> Vec<Worker<S, B>>
    requires empty { all.items ≡ [] }
    requires space { vec_len handles ≤ vec_capacity all }
    ensures { result.items ≡ map promised handles.items }
{
    for handle in handles {
        all.push_reserved(match handle {
            Started::Here(worker) => worker,
            Started::There(handle) => handle.join(rt),
        });
    }
    all
}

// One worker, in its thread.
fn ran<S: Side, B: Room, R: Wait, G: Gate>(
    rt: &R,
    shared: &Shared<'_, G, B>,
    worker: Worker<S, B>,
) -> Worker<S, B>
    requires lines { shared.now.lines.now ≡ B.lines }
    requires tag { shared.now.tag ≡ B.tag }
    requires room { HasTagRoom B.terms.layout shared.now.tag }
    ensures { result ≡ worker }
{
    let mut worker = worker;
    worker.run(rt, shared);
    worker
}

// Starts a worker in a thread of its own, if it has lines; otherwise it ends here. `Io` if the thread can't be started:
// the board is then closed.
fn start<
    's,
    'e: 's,
    S: Side + Send + 's,
    B: Room + Send + Sync + 's,
    R: Wait + Sync + 's,
    G: Gate + Sync + 's,
>(
    scope: &Scope<'s, &'e ()>,
    rt: &'s R,
    shared: &'s Shared<'s, G, B>,
    worker: Worker<S, B>,
) -> Result<Started<S, B>, Fault>
    requires lines { shared.now.lines.now ≡ B.lines }
    requires tag { shared.now.tag ≡ B.tag }
    requires room { HasTagRoom B.terms.layout shared.now.tag }
    ensures promised { IfOk result (λ started. promised started ≡ worker) }
    ensures fault { IfErr result (λ fault. fault ≡ Fault.Io) }
{
    if !worker.has_calls(shared.lines) {
        return Ok(Started::Here(ran(rt, shared, worker)));
    }
    let thread = scope.spawn_with(
        Number(worker.number()),
        move || -> Worker<S, B>
            requires lines { shared.now.lines.now ≡ B.lines }
            requires tag { shared.now.tag ≡ B.tag }
            requires room { HasTagRoom B.terms.layout shared.now.tag }
            ensures { result ≡ worker }
        { ran(rt, shared, worker) },
    );
    match thread {
        Ok(handle) => Ok(Started::There(handle)),
        Err(_) => {
            shared.board.close(rt);
            Err(Fault::Io)
        }
    }
}

/// Runs each worker that has lines in a thread of its own. `Io` if one can't be started: the board is then closed, and
/// those that run end.
pub fn run_all<S: Side + Send, B: Room + Send + Sync, R: Threads + Wait + Sync, G: Gate + Sync>(
    rt: &R,
    shared: &Shared<'_, G, B>,
    workers: Vec<Worker<S, B>>,
) -> Result<Vec<Worker<S, B>>, Fault>
    requires lines { shared.now.lines.now ≡ B.lines }
    requires tag { shared.now.tag ≡ B.tag }
    requires room { HasTagRoom B.terms.layout shared.now.tag }
    ensures all { IfOk result (λ v. v.items ≡ workers.items) }
    ensures fault { IfErr result IsEndFault }
{
    thread::scope(
        thread::scope_env(),
        rt,
        move |scope| -> Result<Vec<Worker<S, B>>, Fault>
            requires lines { shared.now.lines.now ≡ B.lines }
            requires tag { shared.now.tag ≡ B.tag }
            requires room { HasTagRoom B.terms.layout shared.now.tag }
            ensures all { IfOk result (λ v. v.items ≡ workers.items) }
            ensures fault { IfErr result IsEndFault }
        {
            let Ok(mut handles) = Vec::with_capacity(shared.alloc, workers.len()) else {
                return Err(Fault::Memory);
            };
            let Ok(all) = Vec::with_capacity(shared.alloc, workers.len()) else {
                return Err(Fault::Memory);
            };
            for worker in workers {
                handles.push_reserved(start(scope, rt, shared, worker)?);
            }
            Ok(joined(rt, handles, all))
        },
    )
}
