//! Heaps that can give the accounts of their pages.
ghost use Rattle.std.specs.Prelude.{◌≡◌, ℕ, Bool, true, List};
ghost use Rattle.sh_key.specs.Layout.{Layout};
ghost use Rattle.sh_shape.specs.Shape.{Numbers};
ghost use Rattle.sh_shape.specs.Places.{page_number};
ghost use Rattle.sh_step.specs.declared.action.Event.{Event};
ghost use Rattle.sh_step.specs.Plans.{plan_of};
ghost use Rattle.sh_core.specs.declared.accounts.Accounts.{Accounts};
ghost use Rattle.sh_core.specs.Worlds.{run};
ghost use Rattle.sh_core.specs.Kept.{Represents};
ghost use Rattle.sh_accounts.specs.Accounts.{ShapeHasPage};
ghost use Rattle.script_output.specs.AccountLines.{Later, accounts_after};

use sh_accounts::page;
use sh_core::{Accounts, World};
use sh_key::KeyLayout;
use sh_shape::Shape;

/// A heap whose pages can be asked for their accounts. What is known of it may grow as it is asked.
pub trait Pages {
    // True if asking changes nothing.
    ghost fixed: { Bool };

    ghost layout: { Layout };

    ghost numbers: { Self → Numbers };

    // These events lead to what is known.
    ghost leads: { Self → List Event → Type 0 };

    // What is known of a page by its number over the whole heap, if these are its accounts.
    ghost says: { Self → ℕ → Accounts → Type 0 };

    /// Its shape.
    fn shape(&self) -> Shape
        ensures { result ≡ numbers self.now };

    /// The accounts of a page: those of the core, after any events that lead to what is known.
    fn accounts(&mut self, shard: u32, page: u32) -> Accounts
        requires there { ShapeHasPage (numbers self.old) shard page }
        ensures later { Later fixed numbers leads says self.old self.new }
        ensures reached { (events : List Event) × leads self.new events }
        ensures are { (events : List Event) → leads self.new events
            → result ≡ accounts_after (plan_of layout (numbers self.old)) events
            (page_number (numbers self.old) shard page) }
        ensures says { says self.new (page_number (numbers self.old) shard page) result };
}

impl<L: KeyLayout> Pages for World<L> {
    ghost fixed = { true };

    ghost layout = { L.layout };

    ghost numbers = { λ w. w.shape };

    ghost leads = { λ w events. Represents w (run (plan_of L.layout w.shape) events) };

    ghost says = { λ w q a. Unit {0} };

    fn shape(&self) -> Shape {
        World::shape(self)
    }

    fn accounts(&mut self, shard: u32, number: u32) -> Accounts {
        match page(self, shard, number) {
            Some(accounts) => accounts,
            None => unreachable!(),
        }
    }
}
