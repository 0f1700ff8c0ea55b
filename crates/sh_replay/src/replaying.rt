//! A whole run: reads, parses and runs a script, and writes its output.
ghost use Rattle.std.specs.Prelude.{◌≡◌, ◌≢◌, ℕ, List, IfOk, IfErr, Some, take};
ghost use Rattle.script_output.specs.Ends.{IsEndFault, ReadsAtMostBytes};
ghost use Rattle.script_output.specs.Faults.{IsScriptOf, IsFaultOf};
ghost use Rattle.sh_replay.specs.Output.{IsOutput, Replays};

use crate::threads_output::threads_output;
use script_heap::heap_output::heap_output;
use script_models::plain_output::plain_output;
use script_models::steps_output::steps_output;
use script_output::Mode;
use script_output::ends::{read_text, write_text};
use script_workers::gate::{Gate, OpenGate};
use sh_script::Fault;
use std::alloc::Global;
use std::io::{Read, Write};
use std::sync::Wait;
use std::thread::Threads;

// The output of a script's run in one thread.
fn output(alloc: Global, text: &[u8], mode: Mode, accounts: bool) -> Result<Vec<u8>, Fault>
    requires { mode ≢ Mode.Threads }
    ensures output { IfOk result (λ output. IsOutput mode accounts text.now output.items) }
    ensures fault { IfErr result (IsFaultOf mode text.now) }
    ensures answers { IsScriptOf mode text.now → IfErr result IsEndFault }
{
    match mode {
        Mode::Plain => plain_output(alloc, text),
        Mode::Steps => steps_output(alloc, text, accounts),
        Mode::Heap => heap_output(alloc, text, accounts),
        Mode::Threads => unreachable!(),
    }
}

// The same in any mode.
fn output_gated<R: Threads + Wait + Sync, G: Gate + Sync>(
    rt: &R,
    alloc: Global,
    text: &[u8],
    mode: Mode,
    accounts: bool,
    gate: &G,
) -> Result<Vec<u8>, Fault>
    ensures output { IfOk result (λ output. IsOutput mode accounts text.now output.items) }
    ensures fault { IfErr result (IsFaultOf mode text.now) }
    ensures answers { IsScriptOf mode text.now → IfErr result IsEndFault }
{
    match mode {
        Mode::Threads => threads_output(rt, alloc, text, accounts, gate),
        _ => output(alloc, text, mode, accounts),
    }
}

/// Reads a script, runs it in one thread, in a mode other than threads, and writes its replies.
///
/// It reads until a read gives no byte, or 1,048,577 bytes, and parses the whole script before anything runs. The fault
/// is the first fault of the script, or `Memory`, or `Io` if a read or a write failed. It is never `Waiting`, since all
/// owners can leave once the lines have run. The flag asks for accounts; mode plain has none.
pub fn replay_alone<R: Read, W: Write>(
    alloc: Global,
    reader: &mut R,
    writer: &mut W,
    mode: Mode,
    accounts: bool,
) -> Result<(), Fault>
    requires mode { mode ≢ Mode.Threads }

    // If the run ends well, what was read is a script, and the output of its run was written. Otherwise it ends with a
    // fault of the script; or, even with a script, with want of memory or a failed end.
    ensures ends { (input : List ℕ) → R.remaining reader.old ≡ Some input → Replays mode accounts (take 1048577 input)
        result (W.contents writer.old) (W.contents writer.new) }
    ensures reads { ReadsAtMostBytes (R.remaining reader.old) (R.remaining reader.new) 1048577 }
{
    let text = read_text(alloc, reader)?;
    let output = output(alloc, text.as_slice(), mode, accounts)?;
    write_text(writer, output.as_slice())
}

/// The same in any mode. In mode threads the lines of each pass run in a thread of their own, and a line that uses a
/// name waits until it is bound. Each worker passes the gate before and after each of its calls. If a thread can't be
/// started, it ends with `Io` too, with nothing written.
///
/// Nothing is promised of a gate that does not return, or about when a thread runs.
pub fn replay_gated<R: Read, W: Write, T: Threads + Wait + Sync, G: Gate + Sync>(
    rt: &T,
    alloc: Global,
    reader: &mut R,
    writer: &mut W,
    mode: Mode,
    accounts: bool,
    gate: &G,
) -> Result<(), Fault>
    ensures ends { (input : List ℕ) → R.remaining reader.old ≡ Some input → Replays mode accounts (take 1048577 input)
        result (W.contents writer.old) (W.contents writer.new) }
    ensures reads { ReadsAtMostBytes (R.remaining reader.old) (R.remaining reader.new) 1048577 }
{
    let text = read_text(alloc, reader)?;
    let output = output_gated(rt, alloc, text.as_slice(), mode, accounts, gate)?;
    write_text(writer, output.as_slice())
}

/// The same with a gate that does nothing.
pub fn replay<R: Read, W: Write, T: Threads + Wait + Sync>(
    rt: &T,
    alloc: Global,
    reader: &mut R,
    writer: &mut W,
    mode: Mode,
    accounts: bool,
) -> Result<(), Fault>
    ensures ends { (input : List ℕ) → R.remaining reader.old ≡ Some input → Replays mode accounts (take 1048577 input)
        result (W.contents writer.old) (W.contents writer.new) }
    ensures reads { ReadsAtMostBytes (R.remaining reader.old) (R.remaining reader.new) 1048577 }
{
    match mode {
        Mode::Threads => replay_gated(rt, alloc, reader, writer, mode, accounts, &OpenGate),
        _ => replay_alone(alloc, reader, writer, mode, accounts),
    }
}
