//! The heap on which lines are done.
ghost use Rattle.std.specs.Prelude.{◌≡◌, ◌<◌, ◌++◌, ◌∷◌, [], false, Some, Ok, IfOk, OnOk, slice_get};
ghost use Rattle.sh_step.specs.Plans.{plan_of};
ghost use Rattle.sh_core.specs.declared.outcome.Outcome.TheVariants.{Moved};
ghost use Rattle.sh_core.specs.Kept.{Represents, RunsWorld};
ghost use Rattle.sh_core.specs.Outcomes.{outcome_of};
ghost use Rattle.sh_core.specs.Worlds.{World as Core};
ghost use Rattle.script_orders.specs.Reached.{done_by, IsNext, HasPlayed};

use crate::found::Program;
use crate::play::{opened, step};
use crate::state::push_lines;
use sh_core::{Outcome, World};
use sh_key::KeyLayout;
use sh_step::Event;
use std::alloc::{AllocError, Global};

/// The heap after what is done first and these lines.
pub fn played<L: KeyLayout>(
    alloc: Global,
    program: &Program<'_>,
    order: &[usize],
) -> Result<World<L>, AllocError>
    ensures { IfOk result (λ world. RunsWorld L.layout program.now.shape (done_by program.now order.now) (Ok world)) }
{
    let mut heap = Heap::<L>::new(alloc, program)?;
    heap.play(alloc, program, order)?;
    Ok(heap.world)
}

/// The heap on which the lines are done, in one order after the other.
#[derive(Drop)]
pub struct Heap<L: KeyLayout> {
    /// The words with which the lines begin.
    pub opening: Vec<u64>,
    /// The heap after the lines of `order`.
    pub world: World<L>,
    /// The numbers of the lines that were done on it.
    pub order: Vec<usize>,
}

impl<L: KeyLayout> Heap<L> {
    /// The heap as the lines begin.
    pub fn new(alloc: Global, program: &Program<'_>) -> Result<Heap<L>, AllocError>
        ensures { IfOk result (λ heap. HasPlayed L.layout program.now heap.opening.items heap.order.items heap.world) }
    {
        let world = opened::<L>(alloc, program)?;
        Ok(Heap {
            opening: Vec::from_slice(alloc, world.words())?,
            world,
            order: Vec::new(alloc),
        })
    }

    // Does the line of this number, if there is one.
    fn do_line(&mut self, program: &Program<'_>, number: usize) -> Result<(), AllocError>
        requires { HasPlayed L.layout program.now self.old.opening.items self.old.order.items self.old.world }
        ensures played { OnOk result (HasPlayed L.layout program.now self.new.opening.items self.new.order.items
            self.new.world) }
        ensures order { OnOk result (self.new.order.items ≡ self.old.order.items ++ number ∷ []) }
    {
        let Some(event) = program.lines.get(number) else {
            self.order.push(number)?;
            return Ok(());
        };
        step(&mut self.world, event)?;
        self.order.push(number)?;
        Ok(())
    }

    // Does the lines of these numbers.
    fn do_lines(&mut self, program: &Program<'_>, numbers: &[usize]) -> Result<(), AllocError>
        requires { HasPlayed L.layout program.now self.old.opening.items self.old.order.items self.old.world }
        ensures played { OnOk result (HasPlayed L.layout program.now self.new.opening.items self.new.order.items
            self.new.world) }
        ensures order { OnOk result (self.new.order.items ≡ self.old.order.items ++ numbers.now) }
    {
        for number in numbers {
            self.do_line(program, *number)?;
        }
        Ok(())
    }

    // The lines of an order that are not done yet. If it does not begin with those that are, the heap is opened anew.
    fn undone<'o>(
        &mut self,
        alloc: Global,
        program: &Program<'_>,
        order: &'o [usize],
    ) -> Result<&'o [usize], AllocError>
        requires { HasPlayed L.layout program.now self.old.opening.items self.old.order.items self.old.world }
        ensures played { OnOk result (HasPlayed L.layout program.now self.new.opening.items self.new.order.items
            self.new.world) }
        ensures rest { IfOk result (λ rest. order.now ≡ self.new.order.items ++ rest.now) }
    {
        if let Some(rest) = order.strip_prefix(self.order.as_slice()) {
            return Ok(rest);
        }
        self.world = opened::<L>(alloc, program)?;
        self.order.clear();
        Ok(order)
    }

    /// Does the lines of an order, after those that were done if it begins with them.
    pub fn play(
        &mut self,
        alloc: Global,
        program: &Program<'_>,
        order: &[usize],
    ) -> Result<(), AllocError>
        requires { HasPlayed L.layout program.now self.old.opening.items self.old.order.items self.old.world }
        ensures played { OnOk result (HasPlayed L.layout program.now self.new.opening.items self.new.order.items
            self.new.world) }
        ensures order { OnOk result (self.new.order.items ≡ order.now) }
    {
        let rest = self.undone(alloc, program, order)?;
        self.do_lines(program, rest)
    }

    /// What comes of the pass's next line. The line is done only if it replies.
    pub fn outcome(
        &mut self,
        program: &Program<'_>,
        pass: u32,
        behind: usize,
        line: usize,
        event: &Event,
        replies: bool,
    ) -> Result<Outcome, AllocError>
        requires played { HasPlayed L.layout program.now self.old.opening.items self.old.order.items self.old.world }
        requires next { IsNext (plan_of L.layout self.old.world.shape) self.old.world.parts program.now.lines.now pass
            behind line }
        requires there { slice_get program.now.lines.now line ≡ Some event.now }
        requires within { line < usize.MAX }
        requires quiet { replies ≡ false → (w : Core) → Represents self.old.world w
            → Moved ≡ outcome_of (plan_of L.layout self.old.world.shape) w event.now }
        ensures played { OnOk result (HasPlayed L.layout program.now self.new.opening.items self.new.order.items
            self.new.world) }
        ensures is { IfOk result (λ outcome. (w : Core) → Represents self.old.world w
            → outcome ≡ outcome_of (plan_of L.layout self.old.world.shape) w event.now) }
    {
        if !replies {
            return Ok(Outcome::Moved);
        }
        push_lines(&mut self.order, program.lines, pass, behind, line + 1)?;
        let outcome = step(&mut self.world, event)?;
        Ok(outcome)
    }
}
