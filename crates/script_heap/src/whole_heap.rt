//! The pages of a heap whose passes have met.
ghost use Rattle.std.specs.Prelude.{◌≡◌, false};
ghost use Rattle.script_heap.specs.WholeAccounts.{LeadsToWhole, PageSaid};

use script_output::pages::Pages;
use sh_core::Accounts;
use sh_gather::Whole;
use sh_key::KeyLayout;
use sh_shape::Shape;
use std::marker::Model;

/// A whole heap that is asked for the accounts of its pages. Contracts describe it by the pass that carries its tale.
#[derive(Drop)]
pub struct WholeHeap<'a, L: KeyLayout> {
    whole: Whole<'a, L>,
}

impl<'a, L: KeyLayout> Model for WholeHeap<'a, L> {
    ghost use Rattle.sh_pass.specs.Passes.{Caller};

    ghost Value = { Caller };

    ghost view = { λ w. w.whole };
}

impl<'a, L: KeyLayout> WholeHeap<'a, L> {
    /// The heap of this pass, as a whole.
    pub fn new(whole: Whole<'a, L>) -> Self
        ensures { result ≡ whole.entry }
    {
        WholeHeap { whole }
    }
}

// Asking for accounts notes the words that are looked at, and changes nothing otherwise.
impl<'a, L: KeyLayout> Pages for WholeHeap<'a, L> {
    ghost fixed = { false };

    ghost layout = { L.layout };

    ghost numbers = { λ w. w.heap.shape };

    ghost leads = { λ w events. LeadsToWhole L.layout w events };

    ghost says = { λ w q a. PageSaid L.layout w q a };

    fn shape(&self) -> Shape {
        *self.whole.shape()
    }

    fn accounts(&mut self, shard: u32, page: u32) -> Accounts {
        match self.whole.accounts(shard, page) {
            Some(accounts) => accounts,
            None => unreachable!(),
        }
    }
}
