//! One pass owns a shard and stores a value there. Two threads, with a pass each, read it at the same time. The owner
//! removes it, and the key finds nothing any more. Then all passes are joined, and the values of the heap are counted.
//!
//! Every pass can get, read, remove and release any key of the heap. Only an insert needs a shard of the pass's own.
#![tactic(auto)]

ghost use Rattle.std.specs.Prelude.{◌≡◌};
ghost use Rattle.gearlongan.specs.Passes.{AreOf};

use gearlongan::{
    Heap, Pass, Reader, Refusal, Shape, Shard, Task, Value, Wide, both, gather, total,
};
use std::alloc::Global;
use std::io;
use std::process::ExitCode;
use std::thread::Threads;

// Reads the value of a key, in a thread of its own.
#[derive(Drop)]
struct Reading<'a> {
    pass: Pass<'a, Wide>,
    key: u64,
}

impl<'a> Task for Reading<'a> {
    type Output = (Pass<'a, Wide>, Result<Value, Refusal>);

    // The pass that comes back has the same heap as the one that went.
    ghost gives = { λ task output. output.0.heap ≡ task.pass.heap };

    fn run(self) -> (Pass<'a, Wide>, Result<Value, Refusal>) {
        let Reading { mut pass, key } = self;
        let value = pass.fetch(key);
        (pass, value)
    }
}

// The result of a run.
#[derive(Drop)]
struct Story {
    key: u64,
    first: Value,
    second: Value,
    after: &'static str,
    // The number of values of the heap at the end, or `None` if not all passes are joined.
    left: Option<u32>,
}

// Removes the key, and says what a fetch of it finds then.
fn removed(owner: &mut Shard<'_, Wide>, key: u64) -> Result<&'static str, Refusal>
    ensures { owner.new.pages.owner.heap ≡ owner.old.pages.owner.heap }
{
    owner.remove(key)?;
    match owner.fetch(key) {
        Ok(_) => Ok("a value"),
        Err(why) => Ok(why.name()),
    }
}

// Joins the three passes, and counts the values of the heap.
fn live<'a>(
    alloc: Global,
    heap: &'a Heap<Wide>,
    owner: Pass<'a, Wide>,
    one: Pass<'a, Wide>,
    two: Pass<'a, Wide>,
) -> Result<Option<u32>, Refusal>
    requires owner { owner.heap ≡ heap.now }
    requires one { one.heap ≡ heap.now }
    requires two { two.heap ≡ heap.now }
{
    let mut back = Vec::with_capacity(alloc, 3)?;
    back.push_reserved(owner);
    back.push_reserved(one);
    back.push_reserved(two);
    match gather(heap, back) {
        Ok(mut all) => Ok(Some(total(&mut all).live)),
        Err(_) => Ok(None),
    }
}

// Stores a value, which both other passes read at the same time, and removes it.
fn share<'a>(
    rt: &impl Threads,
    alloc: Global,
    heap: &'a Heap<Wide>,
    passes: Vec<Pass<'a, Wide>>,
) -> Result<Story, Refusal>
    requires { AreOf heap.now passes.items }
{
    let mut passes = passes.into_iter();
    let (Some(owner), Some(one), Some(two)) = (passes.next(), passes.next(), passes.next()) else {
        return Err(Refusal::BadShape);
    };
    let mut owner = Shard::adopt(alloc, owner, 0)?;
    let key = owner.insert(&Value::of([7, 8, 9]))?;
    let (one, two) = both(rt, Reading { pass: one, key }, Reading { pass: two, key });
    let after = removed(&mut owner, key)?;
    let left = live(alloc, heap, owner.leave()?, one.0, two.0)?;
    Ok(Story {
        key,
        first: one.1?,
        second: two.1?,
        after,
        left,
    })
}

fn run(rt: &impl Threads, alloc: Global) -> Result<Story, Refusal> {
    // One shard, of one segment, and three passes.
    let shape = Shape::new(1, 1, 3)?;
    let (heap, seats) = Heap::<Wide>::open(alloc, shape)?;
    let passes = heap.passes(alloc, seats)?;
    share(rt, alloc, &heap, passes)
}

fn tell(rt: &impl Print, story: &Story) -> io::Result<()> {
    println!(rt; "stored under {}", story.key)?;
    println!(rt; "first thread read {} words", story.first.words().len())?;
    println!(rt; "second thread read {} words", story.second.words().len())?;
    println!(rt; "removed; a get answers {}", story.after)?;
    match story.left {
        Some(left) => println!(rt; "all passes met; the heap has {left} values"),
        None => println!(rt; "not all passes met"),
    }
}

fn main(rt: HostRuntime) -> ExitCode {
    let story = match run(&rt, rt.alloc()) {
        Ok(story) => story,
        Err(why) => {
            let _ = eprintln!(rt; "refused: {why}");
            return ExitCode::FAILURE;
        }
    };
    match tell(&rt, &story) {
        Ok(()) => ExitCode::SUCCESS,
        Err(_) => ExitCode::FAILURE,
    }
}
