//! A pass that runs by hand, one step at a time.
ghost use Rattle.std.specs.Prelude.{◌≡◌, Some};

use crate::home::Home;
use crate::lone::Lone;
use sh_key::KeyLayout;
use sh_pass::Busy;
use sh_step::Action;
use std::marker::PhantomData;

/// A pass of the heap that `H` names, between two steps.
#[derive(Drop)]
pub struct Stopped<'a, L: KeyLayout, H: Home> {
    busy: Busy<'a, L>,
    home: PhantomData<H>,
    ghost at_home: { H.heap ≡ Some busy.heap },
}

impl<'a, L: KeyLayout, H: Home> Stopped<'a, L, H> {
    /// Wraps a pass of that heap, which steps by hand.
    pub fn new(busy: Busy<'a, L>) -> Self
        requires { H.heap ≡ Some busy.heap }
    {
        Stopped {
            busy,
            home: PhantomData,
        }
    }

    /// Does one step, and returns whether its condition held.
    pub fn act(&mut self, action: &Action) -> bool {
        self.busy.act(action)
    }

    /// Returns the plain pass, if it has ended all that it began. Otherwise returns itself.
    pub fn end(self) -> Result<Lone<'a, L, H>, Self> {
        let Stopped { busy, home: _ } = self;
        match busy.end() {
            Ok(pass) => Ok(Lone::new(pass)),
            Err(busy) => Err(Stopped::new(busy)),
        }
    }
}
