// Receipts of the owner of the pages, and its end in a bundle.
ghost use Rattle.std.specs.Prelude.{◌≡◌};
ghost use Rattle.sh_pass.specs.Bundles.{bundle_by, bundled};
ghost use Rattle.sh_pass.specs.Receipts.{receipt_by};
ghost use Rattle.sh_pass.specs.Remaining.{Remains};
ghost use Rattle.sh_table.specs.Together.{LeadsTogether};
ghost use Rattle.sh_shard.specs.Pages.{HoldsPages, pages_heeded};

use crate::pages::PagesOn;
use sh_key::KeyLayout;
use sh_pass::{Bundle, KeepsHeap, Receipt};

impl<L: KeyLayout, H: KeepsHeap<L>> PagesOn<L, H> {
    // A receipt for all that was returned to the owner.
    pub(crate) fn receipt(&mut self) -> Receipt
        ensures same { self.new ≡ self.old }
        ensures tells { result ≡ receipt_by self.old.owner }
        ensures remains { Remains L.layout self.old.owner self.new.owner }
    {
        self.owner.receipt()
    }

    // All that the receipt covers happens before what is returned to the owner from now on.
    pub(crate) fn heed(&mut self, receipt: Receipt)
        requires { receipt.heap ≡ self.old.owner.heap }
        ensures heeds { self.new ≡ pages_heeded self.old receipt }
        ensures holds { HoldsPages L.layout self.new }
        ensures remains { Remains L.layout self.old.owner self.new.owner }
    {
        self.owner.heed(receipt);
    }

    // A bundle of no passes yet.
    pub(crate) fn bundle(&mut self) -> Bundle
        ensures same { self.new ≡ self.old }
        ensures opens { result ≡ bundle_by self.old.owner }
    {
        self.owner.bundle()
    }

    // Ends the owner in the bundle.
    pub(crate) fn bind(self, bundle: &mut Bundle)
        requires { bundle.old.heap ≡ self.owner.heap }
        ensures binds { bundle.new ≡ bundled bundle.old self.owner }
        ensures leads { LeadsTogether L.layout bundle.new.view }
    {
        let PagesOn { owner, .. } = self;
        owner.bind(bundle);
    }
}
