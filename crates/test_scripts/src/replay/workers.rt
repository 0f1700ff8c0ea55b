//! Workers in threads: they wait for names, and end if one stops.
ghost use Rattle.std.specs.Prelude.{◌≡◌, ◌<◌};
ghost use Rattle.std.specs.List.{All};
ghost use Rattle.sh_script.specs.declared.calls.CallLine.{CallLine};

use crate::assertions::{agree, holds};
use script_calls::side::Side;
use script_heap::heap_lines::{HeapMember, members};
use script_workers::board::{Binding, Board, Bound};
use script_workers::gate::{Gate, OpenGate};
use script_workers::room::Room;
use script_workers::threads::threads_lines;
use sh_key::Tiny;
use sh_pass::Heap;
use sh_script::{Call, CallLine, Fault, Reference};
use sh_shape::Shape;
use std::alloc::{AllocError, Global};
use std::marker::Brand;
use std::sync::Wait;
use std::thread::Threads;

/// The reply lines of the calls of two passes on a new heap, each pass in a thread of its own.
fn replies<R: Threads + Wait + Sync, G: Gate + Sync>(
    rt: &R,
    alloc: Global,
    lines: &[CallLine],
    gate: &G,
) -> Result<Vec<u8>, Fault>
    requires { All (λ (l : CallLine). l.pass < 2) lines.now }
{
    let Ok(shape) = Shape::new(1, 1, 2) else {
        return Err(Fault::BadShape);
    };
    let Ok((heap, seats)) = Heap::<Tiny>::open(alloc, shape) else {
        return Err(Fault::BadShape);
    };
    let sides = members(alloc, &heap, seats)?;
    let (output, _) = threads_lines(rt, alloc, lines, None, sides, gate)?;
    Ok(output)
}

// A name of a pass that has no entries.
const UNNUMBERED: Bound = Bound {
    number: None,
    pass: 0,
    entries: 0,
};

// What a closed board of two names returns for a name. The first name is bound to no number.
fn told_once_closed<S: Side, B: Room, R: Wait>(
    rt: &R,
    alloc: Global,
    side: S,
    name: usize,
) -> Result<Option<Bound>, AllocError>
    requires { (S.seen side).heap ≡ B.heap }
{
    let mut side = side;
    let board = Board::<B>::new(alloc, 2)?;
    board.bind(rt, 0, Binding::new(UNNUMBERED, side.receipt()));
    board.close(rt);
    Ok(board.wait(rt, name, &mut side))
}

// The same, for a pass of a new heap.
fn told_of<R: Wait>(rt: &R, alloc: Global, name: usize) -> Result<Option<Bound>, Fault> {
    let Ok(shape) = Shape::new(1, 1, 2) else {
        return Err(Fault::BadShape);
    };
    let Ok((heap, seats)) = Heap::<Tiny>::open(alloc, shape) else {
        return Err(Fault::BadShape);
    };
    let mut sides = members(alloc, &heap, seats)?;
    let Some(side) = sides.pop() else {
        return Err(Fault::BadShape);
    };
    match told_once_closed::<HeapMember<'_, Tiny>, Brand, R>(rt, alloc, side, name) {
        Ok(told) => Ok(told),
        Err(_) => Err(Fault::Memory),
    }
}

#[test]
fn a_closed_board_tells_of_what_is_bound_and_waits_for_nothing(rt: HostRuntime) {
    let bound = told_of(&rt, rt.alloc(), 0).expect(&rt, "it runs");
    let open = told_of(&rt, rt.alloc(), 1).expect(&rt, "it runs");
    let absent = told_of(&rt, rt.alloc(), 2).expect(&rt, "it runs");
    agree(&rt, bound, Some(UNNUMBERED));
    agree(&rt, open, None);
    agree(&rt, absent, None);
}

#[test]
fn names_are_waited_for(rt: HostRuntime) {
    let lines = [
        CallLine {
            pass: 1,
            call: Call::Leave,
        },
        CallLine {
            pass: 1,
            call: Call::Post,
        },
        CallLine {
            pass: 0,
            call: Call::Wait(0),
        },
        CallLine {
            pass: 0,
            call: Call::Post,
        },
        CallLine {
            pass: 1,
            call: Call::Get(Reference::Name(1)),
        },
    ];
    let output = replies(&rt, rt.alloc(), &lines, &OpenGate).expect(&rt, "it runs");
    agree(
        &rt,
        output.as_slice(),
        b"1 leave refused 10 NoShard\n1 post ok\n0 wait ok\n0 post ok\n1 get unbound\n".as_slice(),
    );
}

// The second pass waits for a name that the first would bind after a wait for one that no pass binds.
#[test]
fn a_worker_that_stops_ends_the_others(rt: HostRuntime) {
    let lines = [
        CallLine {
            pass: 0,
            call: Call::Wait(7),
        },
        CallLine {
            pass: 0,
            call: Call::Post,
        },
        CallLine {
            pass: 1,
            call: Call::Wait(0),
        },
    ];
    let ended = replies(&rt, rt.alloc(), &lines, &OpenGate);
    holds(&rt, matches!(ended, Err(Fault::Io)));
}
