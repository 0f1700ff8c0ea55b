//! A world between two lines of a script.
ghost use Rattle.std.specs.Prelude.{◌≡◌, ◌+◌, ◌^◌, ◌++◌, ◌⊎◌, ℕ, List, Ok, Some, is_none, option_map};
ghost use Rattle.std.specs.Prelude.{IfOk, IfErr, IfSome, OnErr};
ghost use Rattle.sh_key.specs.Layout.{first_key, key_count};
ghost use Rattle.sh_step.specs.Plans.{plan_of};
ghost use Rattle.sh_core.specs.Worlds.{World as Modelled};
ghost use Rattle.sh_core.specs.Outcomes.{row_of_event};
ghost use Rattle.sh_core.specs.Kept.{Opens, Represents};
ghost use Rattle.script_output.specs.Keys.{HasTagRoom};
ghost use Rattle.script_models.specs.StepsKeys.{DoesEvent, KeysWithin};
ghost use Rattle.script_models.specs.StepsOutput.{event_line};
ghost use Rattle.sh_script.specs.Scripts.{IsEventsFault};
ghost use Rattle.script_show.specs.Sessions.{RefusesHeap, has_reason, TellsWhy, SaysLast, DoesSaid, DoesLine};
ghost use Rattle.script_show.specs.Sessions.{RefusesLine};

use crate::reason::Reason;
use crate::remark::remark;
use crate::told::{Told, shown_text};
use crate::touched::{Touched, touched_by};
use crate::view::View;
use script_models::event_line::push_event;
use script_models::steps;
use script_models::steps::event_shown;
use sh_core::{Outcome, World};
use sh_key::KeyLayout;
use sh_script::{Events, Fault, parse_events};
use sh_shape::Shape;
use sh_step::{ActionKind, Event};
use sh_value::Refusal;
use std::alloc::{AllocError, Global};

// What an event would touch, in a world of this shape: nothing, with a reason, exactly if it has no row.
fn touched_in<L: KeyLayout>(world: &World<L>, shape: &Shape, event: &Event) -> Touched
    requires { shape.now ≡ world.now.shape }
    ensures { (w : Modelled) → Represents world.now w
        → has_reason result ≡ is_none (row_of_event (plan_of L.layout world.now.shape) w event.now) }
{
    match world.parts().get(event.pass as usize) {
        Some(part) => touched_by::<L>(shape, part, &event.action),
        None => Touched::Nothing(Reason::NothingBegun),
    }
}

// Does an event of the heap; a line that is no event of the heap is skipped.
fn do_event<L: KeyLayout>(
    world: &mut World<L>,
    event: Option<Event>,
) -> Result<(Touched, Outcome), Fault>
    ensures does { IfOk result (λ done. DoesEvent L.layout world.old event done.1 world.new) }
    ensures why { IfOk result (λ done. TellsWhy done.0 done.1) }
    ensures keys { IfOk result (λ done. KeysWithin (first_key L.layout + key_count L.layout) done.1) }
    ensures undone { OnErr result (world.new ≡ world.old) }
    ensures memory { IfErr result (λ fault. fault ≡ Fault.Memory) }
{
    let shape = world.shape();
    let touched = match &event {
        Some(event) => touched_in(world, &shape, event),
        None => Touched::Nothing(Reason::OtherTag),
    };
    let outcome = steps::do_event(world, event)?;
    Ok((touched, outcome))
}

// The line of an event, as mode steps writes it.
fn event_line(
    alloc: Global,
    tag: Option<u8>,
    pass: u32,
    kind: ActionKind,
    outcome: &Outcome,
) -> Result<Vec<u8>, AllocError>
    requires small { IfSome tag (λ _. KeysWithin (2 ^ 52) outcome.now) }
    ensures { IfOk result (λ line. line.items ≡ event_line tag pass kind outcome.now) }
{
    let mut line = Vec::new(alloc);
    push_event(&mut line, tag, pass, kind, outcome)?;
    Ok(line)
}

/// A world, with the lines of its script up to the header.
#[derive(Drop)]
pub struct Session<L: KeyLayout> {
    world: World<L>,
    tag: Option<u8>,
    opening: Vec<u8>,
}

/// One text after another.
pub fn appended(alloc: Global, text: &[u8], line: &[u8]) -> Result<Vec<u8>, AllocError>
    ensures { IfOk result (λ all. all.items ≡ text.now ++ line.now) }
{
    let mut all = Vec::new(alloc);
    all.extend_from_slice(text)?;
    all.extend_from_slice(line)?;
    Ok(all)
}

impl<L: KeyLayout> Session<L> {
    /// Opens a heap of this shape, whose keys are written with this tag. The opening is the text of a script of events
    /// up to its header, such as `heap tiny 1 1 2` and a newline.
    ///
    /// Refused as `BadShape` if the shape does not fit the layout, and as `Memory` if memory is refused.
    pub fn new(
        alloc: Global,
        shape: Shape,
        tag: Option<u8>,
        opening: Vec<u8>,
    ) -> Result<Session<L>, Fault>
        ensures opens { IfOk result (λ session. Opens L.layout shape (Ok session.world)) }
        ensures tag { IfOk result (λ session. session.tag ≡ tag) }
        ensures opening { IfOk result (λ session. session.opening.items ≡ opening.items) }
        ensures refused { IfErr result (RefusesHeap L.layout shape) }
    {
        match World::new(alloc, shape) {
            Ok(world) => Ok(Session {
                world,
                tag,
                opening,
            }),
            Err(Refusal::BadShape) => Err(Fault::BadShape),
            Err(_) => Err(Fault::Memory),
        }
    }

    // The event that a line says, if it says one.
    fn event_of(&self, alloc: Global, line: &[u8]) -> Result<Option<Event>, Fault>
        ensures says { IfOk result (SaysLast (self.now.opening.items ++ line.now)) }
        ensures fault { IfErr result (λ fault. (fault ≡ Fault.Memory)
            ⊎ IsEventsFault (self.now.opening.items ++ line.now) fault) }
    {
        let Ok(text) = appended(alloc, self.opening.as_slice(), line) else {
            return Err(Fault::Memory);
        };
        let Events {
            header: _,
            mut lines,
        } = parse_events(alloc, text.as_slice())?;
        Ok(lines.pop())
    }

    // Does the event, and returns the text on it.
    fn tell(&mut self, alloc: Global, event: Event) -> Result<Told, Fault>
        requires room { HasTagRoom L.layout self.old.tag }
        ensures does { IfOk result (λ told. DoesSaid L.layout self.old.tag self.old.world (Some event) self.new.world
            (Some told.line.items)) }
        ensures memory { IfErr result (λ fault. fault ≡ Fault.Memory) }
        ensures either { OnErr result ((self.new.world ≡ self.old.world) ⊎ ((line : List ℕ)
            × DoesSaid L.layout self.old.tag self.old.world (Some event) self.new.world (Some line))) }
        ensures tag { self.new.tag ≡ self.old.tag }
        ensures opening { self.new.opening.items ≡ self.old.opening.items }
    {
        let pass = event.pass;
        let kind = event.action.kind();
        let (touched, outcome) = do_event(&mut self.world, event_shown(self.tag, event))?;
        let Ok(line) = event_line(alloc, self.tag, pass, kind, &outcome) else {
            return Err(Fault::Memory);
        };
        let view = View::of(&self.world, self.tag);
        let Ok(shown) = shown_text(alloc, &view, touched) else {
            return Err(Fault::Memory);
        };
        Ok(Told {
            line,
            remark: remark(&view, pass, kind, touched),
            shown,
        })
    }

    /// Does what the line says, which ends with its newline, and returns the text on it. For `0 Adopt 0` the text says
    /// that pass 0 adopted shard 0, and shows the shard. A line that says nothing does nothing, and returns `None`. An
    /// event whose condition does not hold is skipped and changes nothing, and the text says why.
    ///
    /// A line that may not be in a script is refused with its fault, whose number counts from the first line of the
    /// opening, and does nothing. If memory is refused, as `Memory`, the event may have been done.
    pub fn line(&mut self, alloc: Global, line: &[u8]) -> Result<Option<Told>, Fault>
        requires room { HasTagRoom L.layout self.old.tag }
        ensures does { IfOk result (λ told. DoesLine L.layout self.old.tag (self.old.opening.items ++ line.now)
            self.old.world self.new.world (option_map (λ t. t.line.items) told)) }
        ensures refused { IfErr result (RefusesLine L.layout self.old.tag (self.old.opening.items ++ line.now)
            self.old.world self.new.world) }
        ensures tag { self.new.tag ≡ self.old.tag }
        ensures opening { self.new.opening.items ≡ self.old.opening.items }
    {
        match self.event_of(alloc, line)? {
            Some(event) => Ok(Some(self.tell(alloc, event)?)),
            None => Ok(None),
        }
    }
}
