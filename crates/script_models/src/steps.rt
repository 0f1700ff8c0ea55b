//! Mode steps: the events of a script on the core, in the order of their lines.
ghost use Rattle.std.specs.Prelude.{◌≡◌, ◌+◌, List, IfOk, IfErr, OnErr, Ok};
ghost use Rattle.sh_key.specs.Layout.{first_key, key_count};
ghost use Rattle.sh_shape.specs.Shape.{IsShape, Fits};
ghost use Rattle.sh_step.specs.declared.action.Event.{Event};
ghost use Rattle.sh_step.specs.Plans.{plan_of};
ghost use Rattle.sh_core.specs.Kept.{Represents, StepsWorld, Opens};
ghost use Rattle.sh_core.specs.Worlds.{run};
ghost use Rattle.script_models.specs.StepsOutput.{action_shown, event_shown};
ghost use Rattle.script_models.specs.StepsKeys.{KeysWithin, DoesEvent};

use script_output::keys::key_shown;
use sh_core::{Outcome, World, refines_map};
use sh_key::{KeyLayout, packing_laws};
use sh_script::Fault;
use sh_shape::Shape;
use sh_step::{Action, Event};
use sh_value::Refusal;
use std::alloc::Global;

// The action that is written as this one, with keys as the heap has them.
fn action_shown(tag: Option<u8>, action: Action) -> Option<Action>
    ensures { result ≡ action_shown tag action }
{
    match action {
        Action::EnterGet(key) => key_shown(tag, key).map(Action::EnterGet),
        Action::EnterRemove(key) => key_shown(tag, key).map(Action::EnterRemove),
        Action::DropHold(key) => key_shown(tag, key).map(Action::DropHold),
        Action::ReadClass(key) => key_shown(tag, key).map(Action::ReadClass),
        Action::ReadLength(key) => key_shown(tag, key).map(Action::ReadLength),
        Action::ReadWord(key, i) => key_shown(tag, key).map(|key| Action::ReadWord(key, i)),
        Action::Look(key) => key_shown(tag, key).map(Action::Look),
        other => Some(other),
    }
}

/// The event of the heap that is written as this one, with keys as the heap has them.
pub fn event_shown(tag: Option<u8>, event: Event) -> Option<Event>
    ensures { result ≡ event_shown tag event }
{
    let Event { pass, action } = event;
    let action = action_shown(tag, action)?;
    Some(Event { pass, action })
}

/// Opens a heap of this shape, which fits the layout.
pub fn open<L: KeyLayout>(alloc: Global, shape: Shape) -> Result<World<L>, Fault>
    requires fits { Fits L.layout shape }
    ensures opens { IfOk result (λ world. Opens L.layout shape (Ok world)) }
    ensures memory { IfErr result (λ fault. fault ≡ Fault.Memory) }
{
    match World::new(alloc, shape) {
        Ok(world) => Ok(world),
        Err(Refusal::Memory) => Err(Fault::Memory),
        Err(_) => unreachable!(),
    }
}

// Does an event. A key in its reply is one of the layout.
fn step<L: KeyLayout>(world: &mut World<L>, event: &Event) -> Result<Outcome, Fault>
    requires shape { IsShape world.old.shape }
    requires fits { Fits L.layout world.old.shape }
    ensures steps { IfOk result (λ outcome. StepsWorld L.layout world.old event.now outcome world.new) }
    ensures keys { (es : List Event) → Represents world.old (run (plan_of L.layout world.old.shape) es)
        → IfOk result (KeysWithin (first_key L.layout + key_count L.layout)) }
    ensures undone { OnErr result (world.new ≡ world.old) }
    ensures memory { IfErr result (λ fault. fault ≡ Fault.Memory) }
{
    refines_map();
    packing_laws::<L>();
    match world.step(event) {
        Ok(outcome) => Ok(outcome),
        Err(_) => Err(Fault::Memory),
    }
}

/// Does an event of the heap; a line that is no event of the heap is skipped. A key in the reply is one of the layout.
/// If memory is refused, nothing is done.
pub fn do_event<L: KeyLayout>(world: &mut World<L>, event: Option<Event>) -> Result<Outcome, Fault>
    requires shape { IsShape world.old.shape }
    requires fits { Fits L.layout world.old.shape }
    ensures does { IfOk result (λ outcome. DoesEvent L.layout world.old event outcome world.new) }
    ensures keys { (es : List Event) → Represents world.old (run (plan_of L.layout world.old.shape) es)
        → IfOk result (KeysWithin (first_key L.layout + key_count L.layout)) }
    ensures undone { OnErr result (world.new ≡ world.old) }
    ensures memory { IfErr result (λ fault. fault ≡ Fault.Memory) }
{
    match event {
        Some(event) => step(world, &event),
        None => Ok(Outcome::Skipped),
    }
}
