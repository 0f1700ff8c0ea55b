//! One thread stores values and sends their keys over a channel, each with a receipt of its insert. Another thread
//! fetches the values. So a key is `Gone` there only if a call removed it: the first thread removes every third key.
#![tactic(auto)]

mod message;

ghost use Rattle.std.specs.Prelude.{◌≡◌, Some, IfOk};
ghost use Rattle.gearlongan.specs.Passes.{AreOf};

use crossbeam_channel::{Receiver, Sender, bounded};
use gearlongan::{Heap, Pass, Refusal, Shape, Shard, Value, Wide, gather, total};
use message::{Message, Room};
use std::alloc::Global;
use std::marker::Brand;
use std::process::ExitCode;
use std::sync::Wait;
use std::thread::Threads;
use std::{io, thread};

// The number of values that are stored, and the greatest number of messages in the channel.
const VALUES: u64 = 12;

const WAITING: usize = 4;

// The thread that stores the values.
#[derive(Drop)]
struct Storing<'a, B: Room> {
    owner: Shard<'a, Wide>,
    to: Sender<Message<B>, Global>,
    ghost in_room: { Some owner.pages.owner.heap ≡ B.heap },
}

impl<'a, B: Room> Storing<'a, B> {
    fn run<R: Wait>(self, rt: &R) -> Result<Shard<'a, Wide>, Refusal>
        ensures { IfOk result (λ owner. Some owner.pages.owner.heap ≡ B.heap) }
    {
        let Storing { mut owner, to } = self;
        store_all(rt, &mut owner, &to)?;
        Ok(owner)
    }
}

fn store_all<R: Wait, B: Room>(
    rt: &R,
    owner: &mut Shard<'_, Wide>,
    to: &Sender<Message<B>, Global>,
) -> Result<(), Refusal>
    requires { Some owner.old.pages.owner.heap ≡ B.heap }
    ensures { owner.new.pages.owner.heap ≡ owner.old.pages.owner.heap }
{
    for number in 1..=VALUES {
        let message = Message::<B>::store(owner, &Value::of([number]))?;
        if number % 3 == 0 {
            owner.remove(message.key())?;
        }
        if to.send(rt, message).is_err() {
            break;
        }
    }
    Ok(())
}

// The results of fetching the keys.
#[derive(Clone, Copy, Drop)]
struct Counts {
    read: u64,
    gone: u64,
}

// The thread that fetches them.
#[derive(Drop)]
struct Fetching<'a, B: Room> {
    pass: Pass<'a, Wide>,
    from: Receiver<Message<B>, Global>,
    ghost in_room: { Some pass.heap ≡ B.heap },
}

impl<'a, B: Room> Fetching<'a, B> {
    fn run<R: Wait>(self, rt: &R) -> Result<(Pass<'a, Wide>, Counts), Refusal>
        ensures { IfOk result (λ r. Some r.0.heap ≡ B.heap) }
    {
        let Fetching { mut pass, from } = self;
        let counts = fetch_all(rt, &mut pass, &from)?;
        Ok((pass, counts))
    }
}

fn fetch_all<R: Wait, B: Room>(
    rt: &R,
    pass: &mut Pass<'_, Wide>,
    from: &Receiver<Message<B>, Global>,
) -> Result<Counts, Refusal>
    requires { Some pass.old.heap ≡ B.heap }
    ensures { pass.new.heap ≡ pass.old.heap }
{
    let mut counts = Counts { read: 0, gone: 0 };
    for _ in 0..VALUES {
        let Ok(message) = from.recv(rt) else {
            break;
        };
        match message.fetch(pass) {
            Ok(_) => counts.read = counts.read.saturating_add(1),
            Err(Refusal::Gone) => counts.gone = counts.gone.saturating_add(1),
            Err(why) => return Err(why),
        }
    }
    Ok(counts)
}

// The result of a run. `left` is the number of values of the heap at the end, if both passes are joined.
#[derive(Drop)]
struct Story {
    counts: Counts,
    left: Option<u32>,
}

// Runs both, each in a thread of its own if one can be made.
fn run_both<'a, R: Threads + Wait + Sync, B: Room + Send>(
    rt: &R,
    storing: Storing<'a, B>,
    fetching: Fetching<'a, B>,
) -> Result<(Shard<'a, Wide>, Pass<'a, Wide>, Counts), Refusal>
    ensures owner { IfOk result (λ r. Some r.0.pages.owner.heap ≡ B.heap) }
    ensures pass { IfOk result (λ r. Some r.1.heap ≡ B.heap) }
{
    let (owner, fetched) = thread::join(
        rt,
        move || -> Result<Shard<'_, Wide>, Refusal>
            ensures { IfOk result (λ owner. Some owner.pages.owner.heap ≡ B.heap) }
        { storing.run(rt) },
        move || -> Result<(Pass<'_, Wide>, Counts), Refusal>
            ensures { IfOk result (λ r. Some r.0.heap ≡ B.heap) }
        { fetching.run(rt) },
    );
    let owner = owner?;
    let (pass, counts) = fetched?;
    Ok((owner, pass, counts))
}

// The number of values of the heap, or `None` if not all its passes are joined.
fn live(heap: &Heap<Wide>, passes: Vec<Pass<'_, Wide>>) -> Option<u32>
    requires { AreOf heap.now passes.items }
{
    match gather(heap, passes) {
        Ok(mut all) => Some(total(&mut all).live),
        Err(_) => None,
    }
}

fn share<'a, R: Threads + Wait + Sync, B: Room + Send>(
    rt: &R,
    alloc: Global,
    heap: &'a Heap<Wide>,
    passes: Vec<Pass<'a, Wide>>,
) -> Result<Story, Refusal>
    requires passes { AreOf heap.now passes.items }
    requires room { Some heap.now ≡ B.heap }
{
    let mut passes = passes.into_iter();
    let (Some(owner), Some(pass)) = (passes.next(), passes.next()) else {
        return Err(Refusal::BadShape);
    };
    let mut back = Vec::with_capacity(alloc, 2)?;
    let owner = Shard::adopt(alloc, owner, 0)?;
    let (to, from) = bounded::<Message<B>, Global>(alloc, WAITING)?;
    let (owner, pass, counts) = run_both(rt, Storing { owner, to }, Fetching { pass, from })?;
    back.push_reserved(owner.leave()?);
    back.push_reserved(pass);
    Ok(Story {
        counts,
        left: live(heap, back),
    })
}

fn run<R: Threads + Wait + Sync + 'static>(rt: &R, alloc: Global) -> Result<Story, Refusal> {
    // One shard, of one segment, and two passes.
    let shape = Shape::new(1, 1, 2)?;
    let (heap, seats) = Heap::<Wide>::open(alloc, shape)?;
    let passes = heap.passes(alloc, seats)?;
    share::<R, Brand>(rt, alloc, &heap, passes)
}

fn tell(rt: &impl Print, story: &Story) -> io::Result<()> {
    println!(rt; "{} values were fetched", story.counts.read)?;
    println!(rt;
        "{} were gone, for they had been removed",
        story.counts.gone
    )?;
    match story.left {
        Some(left) => println!(rt; "both passes met; the heap has {left} values"),
        None => println!(rt; "not all passes met"),
    }
}

fn main(rt: HostRuntime) -> ExitCode {
    let story = match run(&rt, rt.alloc()) {
        Ok(story) => story,
        Err(why) => {
            let _ = eprintln!(rt; "refused: {why}");
            return ExitCode::FAILURE;
        }
    };
    match tell(&rt, &story) {
        Ok(()) => ExitCode::SUCCESS,
        Err(_) => ExitCode::FAILURE,
    }
}
