//! Bundles: passes and owners that end, and what is then known of all of them together.
ghost use Rattle.std.specs.Prelude.{◌≡◌};
ghost use Rattle.sh_table.specs.Together.{LeadsTogether};
ghost use Rattle.sh_pass.specs.Bundles.{bundle_by, bundled};

use crate::keeping::KeepsHeap;
use crate::owner::OwnerOn;
use crate::pass::PassOn;
use sh_key::KeyLayout;
use sh_table::PassSeat;
use std::marker::Model;

/// Passes and owners that ended. None of them does a step any more, and one run of the core leads to the parts of all.
///
/// It has no bytes. Passes that own shards can't be joined; they can end in one bundle. What they own stays taken, as
/// if they were dropped, and so do their holds. A contract sees which heap it is of, the parts of its passes, and what
/// they heard.
///
/// ```text
/// let mut bundle = owner.bundle();  owner.bind(&mut bundle);  other.bind(&mut bundle);
/// ```
#[derive(Drop)]
pub struct Bundle {
    pub(crate) seat: PassSeat,
}

impl Model for Bundle {
    ghost use Rattle.sh_pass.specs.Passes.{Caller, caller_of, heap_of};
    ghost use Rattle.sh_table.specs.Seats.{IsBundle};

    ghost Value = { Caller };

    ghost view = { λ b. caller_of b.seat };

    ghost invariant = { λ b. IsBundle (heap_of b.seat) b.seat };
}

impl<L: KeyLayout, H: KeepsHeap<L>> PassOn<L, H> {
    /// A bundle of no passes yet: one load.
    pub fn bundle(&mut self) -> Bundle
        ensures same { self.new ≡ self.old }
        ensures opens { result ≡ bundle_by self.old }
    {
        Bundle {
            seat: self.heap.kept().table.bundle(&mut self.seated.seat),
        }
    }

    /// Ends the pass in the bundle: two loads.
    pub fn bind(self, bundle: &mut Bundle)
        requires { bundle.old.heap ≡ self.heap }
        ensures binds { bundle.new ≡ bundled bundle.old self }
        ensures leads { LeadsTogether L.layout bundle.new.view }
    {
        let PassOn { heap, seated } = self;
        heap.kept().table.bind(&mut bundle.seat, seated.seat);
    }
}

impl<L: KeyLayout, H: KeepsHeap<L>> OwnerOn<L, H> {
    /// A bundle of no passes yet: one load.
    pub fn bundle(&mut self) -> Bundle
        ensures same { self.new ≡ self.old }
        ensures opens { result ≡ bundle_by self.old }
    {
        let heap = self.heap.kept();
        Bundle {
            seat: heap.table.bundle(&mut self.seated.seat),
        }
    }

    /// Ends the owner in the bundle: two loads. Its shard stays taken.
    pub fn bind(self, bundle: &mut Bundle)
        requires { bundle.old.heap ≡ self.heap }
        ensures binds { bundle.new ≡ bundled bundle.old self }
        ensures leads { LeadsTogether L.layout bundle.new.view }
    {
        let OwnerOn { heap, seated, .. } = self;
        let kept = heap.kept();
        kept.table.bind(&mut bundle.seat, seated.seat);
    }
}
