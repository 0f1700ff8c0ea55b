//! What mode plain writes.
ghost use Rattle.std.specs.Prelude.{◌≡◌, ◌<◌, IfOk, IfErr};
ghost use Rattle.std.specs.List.{All};
ghost use Rattle.sh_script.specs.declared.calls.CallLine.{CallLine};
ghost use Rattle.script_output.specs.Ends.{IsEndFault};
ghost use Rattle.script_output.specs.Keys.{HasTagRoom};
ghost use Rattle.script_output.specs.Faults.{IsScriptOf, IsFaultOf};
ghost use Rattle.script_models.specs.Output.{IsPlainOutput, IsPlain};

use crate::plain::PlainRun;
use script_output::{Mode, push_reply};
use sh_key::{KeyLayout, Tagged, Tiny, Wide};
use sh_script::{CallLine, Calls, Fault, Layout, parse_calls};
use sh_shape::Shape;
use std::alloc::Global;

// The reply lines of calls on the plain store.
fn plain_lines<L: KeyLayout>(
    alloc: Global,
    shape: Shape,
    tag: Option<u8>,
    lines: &[CallLine],
) -> Result<Vec<u8>, Fault>
    requires room { HasTagRoom L.layout tag }
    requires passes { All (λ (l : CallLine). l.pass < shape.passes) lines.now }
    ensures output { IfOk result (λ output. IsPlainOutput L.layout shape tag lines.now output.items) }
    ensures memory { IfErr result (λ fault. fault ≡ Fault.Memory) }
{
    // Each line binds at most one name.
    let names = lines.len();
    let Ok(mut run) = PlainRun::<L>::new(alloc, shape.shards(), shape.passes(), tag, names) else {
        return Err(Fault::Memory);
    };
    let mut output = Vec::new(alloc);
    for line in lines {
        let answer = run.step(line)?;
        if push_reply(&mut output, line, &answer).is_err() {
            return Err(Fault::Memory);
        }
    }
    Ok(output)
}

/// The reply lines of a script of calls, or its fault.
pub fn plain_output(alloc: Global, text: &[u8]) -> Result<Vec<u8>, Fault>
    ensures output { IfOk result (λ output. IsPlain text.now output.items) }
    ensures fault { IfErr result (IsFaultOf Mode.Plain text.now) }
    ensures answers { IsScriptOf Mode.Plain text.now → IfErr result IsEndFault }
{
    let Calls { header, lines } = parse_calls(alloc, text)?;
    let lines = lines.as_slice();
    match header.layout {
        Layout::Tiny => plain_lines::<Tiny>(alloc, header.shape, header.tag, lines),
        Layout::Wide => plain_lines::<Wide>(alloc, header.shape, header.tag, lines),
        Layout::Tagged => plain_lines::<Tagged>(alloc, header.shape, header.tag, lines),
    }
}
