//! What mode heap writes.
ghost use Rattle.std.specs.Prelude.{true, ◌≡◌, ℕ, ◌<◌, List, [], Option, IfOk, IfErr};
ghost use Rattle.std.specs.List.{All};
ghost use Rattle.sh_shape.specs.Shape.{IsShape, Fits};
ghost use Rattle.sh_script.specs.declared.calls.CallLine.{CallLine};
ghost use Rattle.sh_table.specs.Seats.{Heap as HeapSeen};
ghost use Rattle.script_output.specs.Keys.{HasTagRoom};
ghost use Rattle.script_heap.specs.HeapOutput.{IsHeapOutput, IsHeap};
ghost use Rattle.script_output.specs.Ends.{IsEndFault};
ghost use Rattle.script_output.specs.Faults.{IsScriptOf, IsFaultOf};

use crate::heap_lines::{gathered, members, opened};
use script_calls::alone::alone_lines;
use script_output::Mode;
use sh_key::{KeyLayout, Tagged, Tiny, Wide};
use sh_pass::{Heap, Seats};
use sh_script::{CallLine, Calls, Fault, Layout, parse_calls};
use sh_shape::Shape;
use std::alloc::Global;

// The lines on the passes of a heap, one after the other.
fn lines_on<L: KeyLayout>(
    alloc: Global,
    heap: &Heap<L>,
    seats: Seats<L>,
    tag: Option<u8>,
    lines: &[CallLine],
    asked: bool,
) -> Result<Vec<u8>, Fault>
    ghost at: { HeapSeen × Option ℕ × List CallLine }
    requires heap { heap.now ≡ at.0 }
    requires tag { tag ≡ at.1 }
    requires lines { lines.now ≡ at.2 }
    requires seats { seats ≡ heap.now }
    requires shape { IsShape at.0.shape }
    requires room { HasTagRoom L.layout at.1 }
    requires passes { All (λ (l : CallLine). l.pass < at.0.shape.passes) at.2 }
    ensures told { IfOk result (λ output. IsHeapOutput true L.layout at.0.shape at.1 at.2 asked output.items) }
    ensures memory { IfErr result (λ fault. fault ≡ Fault.Memory) }
{
    let sides = members(alloc, heap, seats)?;
    let (output, carrier) = alone_lines(alloc, lines, tag, sides)?;
    gathered(output, carrier, asked)
}

// The lines on a heap of their own.
fn heap_lines<L: KeyLayout>(
    alloc: Global,
    shape: Shape,
    tag: Option<u8>,
    lines: &[CallLine],
    asked: bool,
) -> Result<Vec<u8>, Fault>
    requires shape { IsShape shape }
    requires fits { Fits L.layout shape }
    requires room { HasTagRoom L.layout tag }
    requires passes { All (λ (l : CallLine). l.pass < shape.passes) lines.now }
    ensures told { IfOk result (λ output. IsHeapOutput true L.layout shape tag lines.now asked output.items) }
    ensures memory { IfErr result (λ fault. fault ≡ Fault.Memory) }
{
    let (heap, seats) = opened::<L>(alloc, shape)?;
    lines_on(alloc, &heap, seats, tag, lines, asked)
}

/// What is written for a script of calls on the running heap, or its fault.
pub fn heap_output(alloc: Global, text: &[u8], asked: bool) -> Result<Vec<u8>, Fault>
    ensures output { IfOk result (λ output. IsHeap true asked text.now output.items) }
    ensures fault { IfErr result (IsFaultOf Mode.Heap text.now) }
    ensures answers { IsScriptOf Mode.Heap text.now → IfErr result IsEndFault }
{
    let Calls { header, lines } = parse_calls(alloc, text)?;
    let lines = lines.as_slice();
    match header.layout {
        Layout::Tiny => heap_lines::<Tiny>(alloc, header.shape, header.tag, lines, asked),
        Layout::Wide => heap_lines::<Wide>(alloc, header.shape, header.tag, lines, asked),
        Layout::Tagged => heap_lines::<Tagged>(alloc, header.shape, header.tag, lines, asked),
    }
}
