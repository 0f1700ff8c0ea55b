//! Four tasks that run at the same time, each in a thread.
ghost use Rattle.std.specs.Prelude.{◌≡◌, IfOk, Ok};

use crate::worker::Worker;
use gearlongan::{KeyLayout, Refusal, Task, both};
use std::thread::{Threads, join};

/// One item for each thread.
#[derive(Drop)]
pub struct Four<T> {
    pub one: T,
    pub two: T,
    pub three: T,
    pub four: T,
}

/// The workers in the four threads.
pub type Crew<'a, L> = Four<Worker<'a, L>>;

/// The result of a thread: its worker, and what it did, or the refusal that ended it.
pub type Done<'a, L, T> = Result<(Worker<'a, L>, T), Refusal>;

/// Runs four tasks, each in a thread of its own if one can be made. What a task promises by `gives` holds of its
/// output.
pub fn all_four<R: Threads + Sync, T: Task<Output = A> + Send + Drop, A: Send>(
    rt: &R,
    tasks: Four<T>,
) -> Four<A>
    ensures one { T.gives tasks.one result.one }
    ensures two { T.gives tasks.two result.two }
    ensures three { T.gives tasks.three result.three }
    ensures four { T.gives tasks.four result.four }
{
    let Four {
        one,
        two,
        three,
        four,
    } = tasks;
    let ((one, two), (three, four)) = join(
        rt,
        move || -> (A, A)
            ensures { T.gives one result.0 × T.gives two result.1 }
        { both(rt, one, two) },
        move || -> (A, A)
            ensures { T.gives three result.0 × T.gives four result.1 }
        { both(rt, three, four) },
    );
    Four {
        one,
        two,
        three,
        four,
    }
}

// The outputs of two threads, or the first refusal.
fn both_done<A: Drop, B: Drop>(
    one: Result<A, Refusal>,
    two: Result<B, Refusal>,
) -> Result<(A, B), Refusal>
    ensures one { IfOk result (λ r. one ≡ Ok r.0) }
    ensures two { IfOk result (λ r. two ≡ Ok r.1) }
{
    let one = one?;
    let two = two?;
    Ok((one, two))
}

/// The outputs of four threads, or the first refusal.
pub fn four_done<A: Drop>(done: Four<Result<A, Refusal>>) -> Result<Four<A>, Refusal>
    ensures one { IfOk result (λ r. done.one ≡ Ok r.one) }
    ensures two { IfOk result (λ r. done.two ≡ Ok r.two) }
    ensures three { IfOk result (λ r. done.three ≡ Ok r.three) }
    ensures four { IfOk result (λ r. done.four ≡ Ok r.four) }
{
    let Four {
        one,
        two,
        three,
        four,
    } = done;
    let (one, two) = both_done(one, two)?;
    let (three, four) = both_done(three, four)?;
    Ok(Four {
        one,
        two,
        three,
        four,
    })
}

/// The workers of all four threads, and what they did, or the first refusal.
pub fn all_done<W: Drop, T: Drop>(
    done: Four<Result<(W, T), Refusal>>,
) -> Result<(Four<W>, Four<T>), Refusal>
    ensures one { IfOk result (λ r. done.one ≡ Ok (r.0.one, r.1.one)) }
    ensures two { IfOk result (λ r. done.two ≡ Ok (r.0.two, r.1.two)) }
    ensures three { IfOk result (λ r. done.three ≡ Ok (r.0.three, r.1.three)) }
    ensures four { IfOk result (λ r. done.four ≡ Ok (r.0.four, r.1.four)) }
{
    let Four {
        one: (first, one),
        two: (second, two),
        three: (third, three),
        four: (fourth, four),
    } = four_done(done)?;
    let workers = Four {
        one: first,
        two: second,
        three: third,
        four: fourth,
    };
    Ok((
        workers,
        Four {
            one,
            two,
            three,
            four,
        },
    ))
}
