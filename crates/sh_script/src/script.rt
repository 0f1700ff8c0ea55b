//! Whole scripts, of calls and of events.
ghost use Rattle.std.specs.Prelude.{◌≡◌, ◌≢◌, ◌<◌, List, [], IfOk, IfErr, Ok, Err};
ghost use Rattle.std.specs.List.{All};
ghost use Rattle.sh_step.specs.declared.action.Event.{Event};
ghost use Rattle.sh_script.specs.declared.fault.Fault.{Fault};
ghost use Rattle.sh_script.specs.declared.header.Header.{Header};
ghost use Rattle.sh_script.specs.declared.calls.CallLine.{CallLine};
ghost use Rattle.sh_script.specs.HeaderMeaning.{HasTag};
ghost use Rattle.sh_script.specs.EventLines.{event_added};
ghost use Rattle.sh_script.specs.BoundNames.{NamesAreBound};
ghost use Rattle.sh_script.specs.Script.{script_of};
ghost use Rattle.sh_script.specs.Scripts.{IsCalls, IsCallsFault, IsEvents, IsEventsFault, calls_of, GivesCalls};
ghost use Rattle.sh_script.specs.Scripts.{GivesEvents};

use crate::call::CallsRead;
use crate::calls::Calls;
use crate::event::{Events, EventsRead};
use crate::fault::Fault;
use crate::reader::parse;
use std::alloc::Global;

fn calls(alloc: Global, text: &[u8]) -> Result<Calls, Fault>
    ensures { GivesCalls result (calls_of text.now) }
{
    let (header, read) = parse(alloc, text, CallsRead::new(alloc))?;
    let lines = read.into_lines();
    Ok(Calls { header, lines })
}

fn events(alloc: Global, text: &[u8]) -> Result<Events, Fault>
    ensures { GivesEvents result (script_of event_added [] text.now) }
{
    let (header, read) = parse(alloc, text, EventsRead::new(alloc))?;
    let lines = read.into_lines();
    Ok(Events { header, lines })
}

/// The calls of a script: its header, and its call lines in order.
///
/// For a text that is no script it returns the fault of the first line that has one, with the line's number from 1. Of
/// several faults in a line it is the first in the order of `Cause`. If the header is well formed and its shape is
/// refused, that is `BadShape`. A script of more than 1,048,576 bytes is `Size` at line 0, whatever else is wrong with
/// it. `Memory` is returned if a growth was refused.
pub fn parse_calls(alloc: Global, text: &[u8]) -> Result<Calls, Fault>
    // What is returned is the script of the text.
    ensures calls { IfOk result (λ c. IsCalls text.now c.header c.lines.items) }
    ensures tag { IfOk result (λ c. HasTag c.header.layout c.header.tag) }
    ensures passes { IfOk result (λ c. All (λ l. l.pass < c.header.shape.passes) c.lines.items) }
    // A line uses, and waits for, only names that the lines before it bind.
    ensures bound { IfOk result (λ c. NamesAreBound c.lines.items) }
    ensures fault { IfErr result (λ f. f ≢ Fault.Memory → IsCallsFault text.now f) }

    // A text that is a script is returned as one, unless memory runs out.
    ensures only_calls { (header : Header) (calls : List CallLine) → IsCalls text.now header calls
        → GivesCalls result (Ok (header, calls)) }
    ensures only_fault { (f : Fault) → IsCallsFault text.now f
        → GivesCalls result (Err f) }
{
    calls(alloc, text)
}

/// The events of a script: its header, and its event lines in order. Keys are as they are written, even if the header
/// has a tag.
///
/// Faults are returned as by `parse_calls`.
pub fn parse_events(alloc: Global, text: &[u8]) -> Result<Events, Fault>
    // What is returned is the script of the text.
    ensures events { IfOk result (λ e. IsEvents text.now e.header e.lines.items) }
    ensures tag { IfOk result (λ e. HasTag e.header.layout e.header.tag) }
    ensures passes { IfOk result (λ e. All (λ l. l.pass < e.header.shape.passes) e.lines.items) }
    ensures fault { IfErr result (λ f. f ≢ Fault.Memory → IsEventsFault text.now f) }

    // A text that is a script is returned as one, unless memory runs out.
    ensures only_events { (header : Header) (events : List Event) → IsEvents text.now header events
        → GivesEvents result (Ok (header, events)) }
    ensures only_fault { (f : Fault) → IsEventsFault text.now f
        → GivesEvents result (Err f) }
{
    events(alloc, text)
}
