//! Work for threads, with a relation between the work and its output.
ghost use Rattle.std.specs.Prelude.{IfOk};
ghost use Rattle.gearlongan.specs.Tasks.{AllGive};

use std::alloc::AllocError;
use std::thread::{Threads, join, map_vec};

/// Work for a thread of its own, with what is known of its output.
///
/// A closure that borrows a heap, as one that has a pass does, promises nothing of its result by `thread::join`. A task
/// does: it is a struct with the pass, and `gives` relates the task before the run to its output. So a pass that a task
/// gives back is known to be of its heap:
///
/// ```text
/// impl<'a> Task for Reading<'a> {
///     type Output = (Pass<'a, Wide>, Result<Value, Refusal>);
///
///     ghost gives = { λ task output. output.0.heap ≡ task.pass.heap };
///
///     fn run(self) -> Self::Output {
///         let Reading { mut pass, key } = self;
///         let value = pass.fetch(key);    // by `Reader` of `sh_member`
///         (pass, value)
///     }
/// }
/// ```
pub trait Task {
    /// The output of the task.
    type Output;

    // What is known of the output of this task.
    ghost gives: { Self → Self.Output → Type 0 };

    /// Does the work.
    fn run(self) -> Self::Output
        ensures { gives self result };
}

/// Runs two tasks, each in a thread of its own if one can be made, and returns the outputs of both. What a task
/// promises by `gives` holds of its output.
pub fn both<R: Threads, S: Task<Output = A> + Send + Drop, T: Task<Output = B> + Drop, A: Send, B>(
    rt: &R,
    one: S,
    two: T,
) -> (A, B)
    ensures one { S.gives one result.0 }
    ensures two { T.gives two result.1 }
{
    join(
        rt,
        move || -> A
            ensures { S.gives one result }
        { one.run() },
        move || -> B
            ensures { T.gives two result }
        { two.run() },
    )
}

/// Runs all tasks of a list, each in a thread of its own if one can be made, and returns their outputs in order.
/// Refused if there is no memory for the outputs: then some tasks may not have run, and what they had is lost.
pub fn all<R: Threads + Sync, T: Task<Output = A> + Send + Drop, A: Send + Drop>(
    rt: &R,
    tasks: Vec<T>,
) -> Result<Vec<A>, AllocError>
    ensures { IfOk result (λ outputs. AllGive T.gives tasks.items outputs.items) }
{
    let run = |task: T| -> A
        ensures { T.gives task result }
    { task.run() };
    map_vec(rt, tasks, &run)
}
