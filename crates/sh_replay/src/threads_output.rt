//! The output of mode threads.
ghost use Rattle.std.specs.Prelude.{false, ◌≡◌, ℕ, ◌<◌, List, [], Option, IfOk, IfErr};
ghost use Rattle.std.specs.List.{All};
ghost use Rattle.sh_shape.specs.Shape.{IsShape, Fits};
ghost use Rattle.sh_script.specs.declared.calls.CallLine.{CallLine};
ghost use Rattle.sh_table.specs.Seats.{Heap as HeapSeen};
ghost use Rattle.script_output.specs.Keys.{HasTagRoom};
ghost use Rattle.script_heap.specs.HeapOutput.{IsHeapOutput, IsHeap};
ghost use Rattle.script_output.specs.Ends.{IsEndFault};
ghost use Rattle.script_output.specs.Faults.{IsScriptOf, IsFaultOf};

use script_heap::heap_lines::{gathered, members, opened};
use script_output::Mode;
use script_workers::gate::Gate;
use script_workers::threads::threads_lines;
use sh_key::{KeyLayout, Tagged, Tiny, Wide};
use sh_pass::{Heap, Seats};
use sh_script::{CallLine, Calls, Fault, Layout, parse_calls};
use sh_shape::Shape;
use std::alloc::Global;
use std::sync::Wait;
use std::thread::Threads;

// Runs the lines on the passes of a heap, those of each pass in a thread of its own.
fn lines_on<L: KeyLayout + Send + Sync, R: Threads + Wait + Sync, G: Gate + Sync>(
    rt: &R,
    alloc: Global,
    heap: &Heap<L>,
    seats: Seats<L>,
    tag: Option<u8>,
    lines: &[CallLine],
    asked: bool,
    gate: &G,
) -> Result<Vec<u8>, Fault>
    ghost at: { HeapSeen × Option ℕ × List CallLine }
    requires heap { heap.now ≡ at.0 }
    requires tag { tag ≡ at.1 }
    requires lines { lines.now ≡ at.2 }
    requires seats { seats ≡ heap.now }
    requires shape { IsShape at.0.shape }
    requires room { HasTagRoom L.layout at.1 }
    requires passes { All (λ (l : CallLine). l.pass < at.0.shape.passes) at.2 }
    ensures told { IfOk result (λ output. IsHeapOutput false L.layout at.0.shape at.1 at.2 asked output.items) }
    ensures fault { IfErr result IsEndFault }
{
    let sides = members(alloc, heap, seats)?;
    let (output, carrier) = threads_lines(rt, alloc, lines, tag, sides, gate)?;
    gathered(output, carrier, asked)
}

// Runs the lines on a heap of their own.
fn heap_lines<L: KeyLayout + Send + Sync, R: Threads + Wait + Sync, G: Gate + Sync>(
    rt: &R,
    alloc: Global,
    shape: Shape,
    tag: Option<u8>,
    lines: &[CallLine],
    asked: bool,
    gate: &G,
) -> Result<Vec<u8>, Fault>
    requires shape { IsShape shape }
    requires fits { Fits L.layout shape }
    requires room { HasTagRoom L.layout tag }
    requires passes { All (λ (l : CallLine). l.pass < shape.passes) lines.now }
    ensures told { IfOk result (λ output. IsHeapOutput false L.layout shape tag lines.now asked output.items) }
    ensures fault { IfErr result IsEndFault }
{
    let (heap, seats) = opened::<L>(alloc, shape)?;
    lines_on(rt, alloc, &heap, seats, tag, lines, asked, gate)
}

/// What is written for a script of calls on the running heap, with a thread for each pass, or its fault.
pub fn threads_output<R: Threads + Wait + Sync, G: Gate + Sync>(
    rt: &R,
    alloc: Global,
    text: &[u8],
    asked: bool,
    gate: &G,
) -> Result<Vec<u8>, Fault>
    ensures output { IfOk result (λ output. IsHeap false asked text.now output.items) }
    ensures fault { IfErr result (IsFaultOf Mode.Threads text.now) }
    ensures answers { IsScriptOf Mode.Threads text.now → IfErr result IsEndFault }
{
    let Calls { header, lines } = parse_calls(alloc, text)?;
    let lines = lines.as_slice();
    match header.layout {
        Layout::Tiny => heap_lines::<Tiny, R, G>(
            rt,
            alloc,
            header.shape,
            header.tag,
            lines,
            asked,
            gate,
        ),
        Layout::Wide => heap_lines::<Wide, R, G>(
            rt,
            alloc,
            header.shape,
            header.tag,
            lines,
            asked,
            gate,
        ),
        Layout::Tagged => heap_lines::<Tagged, R, G>(
            rt,
            alloc,
            header.shape,
            header.tag,
            lines,
            asked,
            gate,
        ),
    }
}
