//! The state of a program.
use crate::program::Program;
use sh_core::World;
use sh_key::Tiny;
use sh_step::enabled;
use std::alloc::Global;
use std::test::Fail;

/// A heap, and the progress of each pass in its part of a program.
#[derive(Drop)]
pub struct Moment {
    /// The heap.
    pub world: World<Tiny>,
    // For each pass, the number of the first event that it has yet to consider.
    behind: Vec<usize>,
}

impl Moment {
    // The heap as the passes begin the program.
    fn first(alloc: Global, program: &Program) -> Result<Moment, Fail> {
        let mut world = World::new(alloc, program.shape)?;
        for event in program.before.events() {
            world.step(event)?;
        }
        let mut behind = Vec::new(alloc);
        for _ in 0..program.shape.passes() {
            behind.push(0)?;
        }
        Ok(Moment { world, behind })
    }

    /// The heap after the passes did their steps in this order, one for each number of a pass in it.
    pub fn after(alloc: Global, program: &Program, order: &[u32]) -> Result<Moment, Fail> {
        let mut moment = Moment::first(alloc, program)?;
        for pass in order {
            moment.go_on(program, *pass)?;
        }
        Ok(moment)
    }

    /// The number of the program's event that the pass does next: the first of those that are left to it whose
    /// condition holds. No step of another pass changes which one that is.
    pub fn next(&self, program: &Program, pass: u32) -> Option<usize> {
        let part = self.world.parts().get(pass as usize)?;
        let behind = *self.behind.get(pass as usize)?;
        for (number, event) in program.then.events().iter().enumerate().skip(behind) {
            if event.pass == pass && enabled::<Tiny>(&program.shape, part, &event.action) {
                return Some(number);
            }
        }
        None
    }

    /// Lets the pass do its next step, and returns whether there is one.
    pub fn go_on(&mut self, program: &Program, pass: u32) -> Result<bool, Fail> {
        let Some(number) = self.next(program, pass) else {
            return Ok(false);
        };
        let Some(event) = program.then.events().get(number) else {
            return Ok(false);
        };
        self.world.step(event)?;
        if let Some(behind) = self.behind.get_mut(pass as usize) {
            *behind = number.saturating_add(1);
        }
        Ok(true)
    }
}
