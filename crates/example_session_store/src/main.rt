//! A store of sessions. Two owners open sessions, each in a thread and a shard of its own. Two readers look up all of
//! them by their keys at the same time, and end the old ones. Then all passes are joined, and the heap is counted.
//!
//! Exactly one reader ends each old session: the one that comes first.
#![tactic(auto)]

ghost use Rattle.std.specs.Prelude.{◌≡◌, IfOk};
ghost use Rattle.gearlongan.specs.Passes.{AreOf};

use gearlongan::{
    Heap, Pass, Reader, Refusal, Shape, Shard, Task, Totals, Value, Wide, both, gather, total,
};
use std::alloc::Global;
use std::io;
use std::process::ExitCode;
use std::thread::Threads;

// A session that was last seen before this time is old.
const OLD: u64 = 100;

// A pass, with the result of its work.
type Done<'a, T> = Result<(Pass<'a, Wide>, T), Refusal>;

// Opens a session for each of these users, in a shard of its own, and returns the keys.
#[derive(Drop)]
struct Opening<'a> {
    pass: Pass<'a, Wide>,
    shard: u64,
    users: [u64; 4],
    alloc: Global,
}

impl<'a> Task for Opening<'a> {
    type Output = Done<'a, Vec<u64>>;

    ghost gives = { λ task output. IfOk output (λ done. done.0.heap ≡ task.pass.heap) };

    fn run(self) -> Done<'a, Vec<u64>> {
        let mut owner = Shard::adopt(self.alloc, self.pass, self.shard)?;
        let keys = opened(&mut owner, &self.users, self.alloc)?;
        Ok((owner.leave()?, keys))
    }
}

// Opens a session for each user. A session has two words: its user, and the time when it was last seen.
fn opened(owner: &mut Shard<'_, Wide>, users: &[u64], alloc: Global) -> Result<Vec<u64>, Refusal>
    ensures { owner.new.pages.owner.heap ≡ owner.old.pages.owner.heap }
{
    let mut keys = Vec::new(alloc);
    for user in users {
        keys.push(owner.insert(&Value::of([*user, *user % 200]))?)?;
    }
    Ok(keys)
}

// Ends the old ones of these sessions, and returns the keys of those that it ended itself.
#[derive(Drop)]
struct Sweeping<'a, 'k> {
    pass: Pass<'a, Wide>,
    keys: &'k [u64],
    alloc: Global,
}

impl<'a> Task for Sweeping<'a, '_> {
    type Output = Done<'a, Vec<u64>>;

    ghost gives = { λ task output. IfOk output (λ done. done.0.heap ≡ task.pass.heap) };

    fn run(self) -> Done<'a, Vec<u64>> {
        let mut reader = self.pass;
        let ended = swept(&mut reader, self.keys, self.alloc)?;
        Ok((reader, ended))
    }
}

fn swept(reader: &mut Pass<'_, Wide>, keys: &[u64], alloc: Global) -> Result<Vec<u64>, Refusal>
    ensures { reader.new.heap ≡ reader.old.heap }
{
    let mut ended = Vec::new(alloc);
    for key in keys {
        if ends(reader, *key)? {
            ended.push(*key)?;
        }
    }
    Ok(ended)
}

// Ends the session of a key if it is old. Returns false too if another reader ended it first.
fn ends(reader: &mut Pass<'_, Wide>, key: u64) -> Result<bool, Refusal>
    ensures { reader.new.heap ≡ reader.old.heap }
{
    let old = match reader.with(key, |session| is_old(session)) {
        Ok(old) => old,
        Err(Refusal::Gone) => false,
        Err(why) => return Err(why),
    };
    if !old {
        return Ok(false);
    }
    match reader.take(key) {
        Ok(_) => Ok(true),
        Err(Refusal::Gone) => Ok(false),
        Err(why) => Err(why),
    }
}

fn is_old(session: &Value) -> bool {
    match session.words() {
        [_, seen] => *seen < OLD,
        _ => false,
    }
}

// The result of a run.
#[derive(Drop)]
struct Story {
    opened: usize,
    ended: usize,
    // `None` if not all passes came back.
    totals: Option<Totals>,
}

// Two owners open sessions, each in its thread. Returns their passes, and all keys.
fn opened_by_two<'a>(
    rt: &impl Threads,
    alloc: Global,
    one: Pass<'a, Wide>,
    two: Pass<'a, Wide>,
) -> Result<(Pass<'a, Wide>, Pass<'a, Wide>, Vec<u64>), Refusal>
    ensures one { IfOk result (λ done. done.0.heap ≡ one.entry.heap) }
    ensures two { IfOk result (λ done. done.1.heap ≡ two.entry.heap) }
{
    let (one, two) = both(
        rt,
        Opening {
            pass: one,
            shard: 0,
            users: [10, 60, 110, 160],
            alloc,
        },
        Opening {
            pass: two,
            shard: 1,
            users: [20, 70, 120, 170],
            alloc,
        },
    );
    let (one, mut keys) = one?;
    let (two, mut theirs) = two?;
    keys.append(&mut theirs)?;
    Ok((one, two, keys))
}

// Two readers end the old sessions, each in its thread. Returns their passes, and the number of sessions they ended.
fn swept_by_two<'a>(
    rt: &impl Threads,
    alloc: Global,
    one: Pass<'a, Wide>,
    two: Pass<'a, Wide>,
    keys: &[u64],
) -> Result<(Pass<'a, Wide>, Pass<'a, Wide>, usize), Refusal>
    ensures one { IfOk result (λ done. done.0.heap ≡ one.entry.heap) }
    ensures two { IfOk result (λ done. done.1.heap ≡ two.entry.heap) }
{
    let (one, two) = both(
        rt,
        Sweeping {
            pass: one,
            keys,
            alloc,
        },
        Sweeping {
            pass: two,
            keys,
            alloc,
        },
    );
    let (one, mut ended) = one?;
    let (two, mut theirs) = two?;
    ended.append(&mut theirs)?;
    Ok((one, two, ended.len()))
}

// Joins all passes, and counts the values of the heap. `None` if not all passes came back.
fn counted<'a>(heap: &'a Heap<Wide>, passes: Vec<Pass<'a, Wide>>) -> Option<Totals>
    requires { AreOf heap.now passes.items }
{
    let mut whole = gather(heap, passes).ok()?;
    Some(total(&mut whole))
}

fn told<'a>(
    rt: &impl Threads,
    alloc: Global,
    heap: &'a Heap<Wide>,
    passes: Vec<Pass<'a, Wide>>,
) -> Result<Story, Refusal>
    requires { AreOf heap.now passes.items }
{
    let mut passes = passes.into_iter();
    let (Some(one), Some(two)) = (passes.next(), passes.next()) else {
        return Err(Refusal::BadShape);
    };
    let (Some(three), Some(four)) = (passes.next(), passes.next()) else {
        return Err(Refusal::BadShape);
    };
    let mut back = Vec::with_capacity(alloc, 4)?;
    let (one, two, keys) = opened_by_two(rt, alloc, one, two)?;
    let (three, four, ended) = swept_by_two(rt, alloc, three, four, &keys)?;
    back.push_reserved(one);
    back.push_reserved(two);
    back.push_reserved(three);
    back.push_reserved(four);
    Ok(Story {
        opened: keys.len(),
        ended,
        totals: counted(heap, back),
    })
}

fn run(rt: &impl Threads, alloc: Global) -> Result<Story, Refusal> {
    // Two shards of one segment, and a pass for each of the four threads.
    let shape = Shape::new(2, 1, 4)?;
    let (heap, seats) = Heap::<Wide>::open(alloc, shape)?;
    let passes = heap.passes(alloc, seats)?;
    told(rt, alloc, &heap, passes)
}

fn tell(rt: &impl Print, story: &Story) -> io::Result<()> {
    println!(rt; "opened {} sessions", story.opened)?;
    println!(rt; "ended {} that were old", story.ended)?;
    match &story.totals {
        Some(totals) => println!(rt;
            "the heap has {} sessions, on {} pages",
            totals.live, totals.used_pages
        ),
        None => println!(rt; "not all passes came back"),
    }
}

fn main(rt: HostRuntime) -> ExitCode {
    let story = match run(&rt, rt.alloc()) {
        Ok(story) => story,
        Err(why) => {
            let _ = eprintln!(rt; "refused: {why}");
            return ExitCode::FAILURE;
        }
    };
    match tell(&rt, &story) {
        Ok(()) => ExitCode::SUCCESS,
        Err(_) => ExitCode::FAILURE,
    }
}
