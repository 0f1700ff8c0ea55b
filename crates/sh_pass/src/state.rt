//! A pass without the heap that it steps on.
ghost use Rattle.std.specs.Prelude.{◌≡◌};
ghost use Rattle.sh_table.specs.Tales.{ViewIsValid};
ghost use Rattle.sh_pass.specs.Passes.{IsAtRest};

use crate::heap::Heap;
use crate::seated::Seated;
use sh_key::KeyLayout;
use sh_shape::Shape;
use std::marker::Model;

/// A pass without its heap, so that it has no lifetime. By `PassOn::on` it is a pass again, with a keeper of its heap.
///
/// A contract sees which heap that is and what the pass knows, as of a `Pass`. Dropping it loses what dropping a `Pass`
/// loses.
#[derive(Drop)]
pub struct PassState<L: KeyLayout> {
    pub(crate) seated: Seated<L>,
}

impl<L: KeyLayout> Model for PassState<L> {
    ghost use Rattle.sh_pass.specs.Passes.{Caller, IsPass, caller_of, heap_of};

    ghost Value = { Caller };

    ghost view = { λ s. caller_of s.seated.seat };

    ghost invariant = { λ s. IsPass L.layout (heap_of s.seated.seat) s.seated.seat s.seated.held.items s.seated.named
        s.seated.number };
}

impl<L: KeyLayout> PassState<L> {
    /// The shape of the heap, as the pass knows it. Between its calls a pass has begun nothing, it owns no shard, and
    /// all that it knows holds.
    pub fn shape<'h>(&self, heap: &'h Heap<L>) -> &'h Shape
        requires { self.now.heap ≡ heap.now }
        ensures is { result.now ≡ heap.now.shape }
        ensures rest { IsAtRest self.now }
        ensures stands { ViewIsValid L.layout self.now.view }
    {
        // What holds of every pass holds of this one.
        let _known = &self.seated.held;
        heap.table.shape()
    }

    /// Its number among the passes of its heap, from 0.
    pub fn number(&self) -> u32
        ensures { result ≡ self.now.view.pass }
    {
        self.seated.number
    }
}
