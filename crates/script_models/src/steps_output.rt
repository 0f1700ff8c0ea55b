//! What mode steps writes.
ghost use Rattle.std.specs.Prelude.{◌≡◌, IfOk, IfErr};
ghost use Rattle.sh_shape.specs.Shape.{IsShape, Fits};
ghost use Rattle.script_output.specs.Ends.{IsEndFault};
ghost use Rattle.script_output.specs.Keys.{HasTagRoom};
ghost use Rattle.script_output.specs.Faults.{IsScriptOf, IsFaultOf};
ghost use Rattle.script_models.specs.Output.{IsSteps};
ghost use Rattle.script_models.specs.StepsOutput.{steps_output};

use crate::event_line::push_event;
use crate::steps::{do_event, event_shown, open};
use script_output::Mode;
use script_output::account_line::push_accounts;
use sh_key::{KeyLayout, Tagged, Tiny, Wide};
use sh_script::{Events, Fault, Layout, parse_events};
use sh_shape::Shape;
use sh_step::Event;
use std::alloc::Global;

// The lines of events on the core, and its accounts if they are asked for.
fn steps_lines<L: KeyLayout>(
    alloc: Global,
    shape: Shape,
    tag: Option<u8>,
    lines: Vec<Event>,
    asked: bool,
) -> Result<Vec<u8>, Fault>
    requires shape { IsShape shape }
    requires fits { Fits L.layout shape }
    requires room { HasTagRoom L.layout tag }
    ensures output { IfOk result (λ output. output.items ≡ steps_output L.layout shape tag lines.items asked) }
    ensures memory { IfErr result (λ fault. fault ≡ Fault.Memory) }
{
    let mut world = open::<L>(alloc, shape)?;
    let mut output = Vec::new(alloc);
    for line in lines {
        let pass = line.pass;
        let kind = line.action.kind();
        let outcome = do_event(&mut world, event_shown(tag, line))?;
        if push_event(&mut output, tag, pass, kind, &outcome).is_err() {
            return Err(Fault::Memory);
        }
    }
    if asked && push_accounts(&mut output, &mut world).is_err() {
        return Err(Fault::Memory);
    }
    Ok(output)
}

/// The lines of a script of events, and then the accounts if they are asked for, or the script's fault.
pub fn steps_output(alloc: Global, text: &[u8], asked: bool) -> Result<Vec<u8>, Fault>
    ensures output { IfOk result (λ output. IsSteps asked text.now output.items) }
    ensures fault { IfErr result (IsFaultOf Mode.Steps text.now) }
    ensures answers { IsScriptOf Mode.Steps text.now → IfErr result IsEndFault }
{
    let Events { header, lines } = parse_events(alloc, text)?;
    match header.layout {
        Layout::Tiny => steps_lines::<Tiny>(alloc, header.shape, header.tag, lines, asked),
        Layout::Wide => steps_lines::<Wide>(alloc, header.shape, header.tag, lines, asked),
        Layout::Tagged => steps_lines::<Tagged>(alloc, header.shape, header.tag, lines, asked),
    }
}
