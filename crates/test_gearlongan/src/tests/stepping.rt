//! States, which are passes that do not borrow the heap, and passes that step by hand.
ghost use Rattle.std.specs.Prelude.{◌≡◌};

use super::{FIRST_KEY, agree, opened, owner_and_reader};
use gearlongan::{Pass, Reader, Refusal, Value, Wide};
use std::process::Abort;

#[test]
#[tactic(auto, using(sh_pass::proofs::Together::newcomers_are_of))]
fn a_heap_gives_its_passes_as_states(rt: HostRuntime) {
    let (heap, seats) = opened(&rt, rt.alloc(), 3);
    let Ok(states) = heap.states(rt.alloc(), seats) else {
        panic!(rt; "no states")
    };
    agree(&rt, states.len(), 3);
    let mut states = states.into_iter();
    let state = states.next().expect(&rt, "a state");
    let mut pass = Pass::on(&heap, state);
    agree(&rt, pass.get(FIRST_KEY), Err(Refusal::Gone));
}

// Begins to step a pass by hand, and ends that before a step.
fn ended<'a>(rt: &impl Abort, pass: Pass<'a, Wide>) -> Pass<'a, Wide>
    ensures { result.heap ≡ pass.entry.heap }
{
    let busy = pass.begin();
    let Ok(pass) = busy.end() else {
        panic!(rt; "the pass has begun something")
    };
    pass
}

#[test]
fn a_pass_steps_by_hand_and_is_a_pass_again(rt: HostRuntime) {
    let (heap, seats) = opened(&rt, rt.alloc(), 2);
    let (mut owner, reader) = owner_and_reader(&rt, rt.alloc(), &heap, seats);
    let key = owner.insert(&Value::from(7)).expect(&rt, "a key");
    let mut reader = ended(&rt, reader);
    agree(&rt, reader.fetch(key), Ok(Value::from(7)));
}
