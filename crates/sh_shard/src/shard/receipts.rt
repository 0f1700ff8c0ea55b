//! Receipts of an owner, and its end in a bundle.
ghost use Rattle.std.specs.Prelude.{◌≡◌};
ghost use Rattle.sh_pass.specs.Bundles.{bundle_by, bundled};
ghost use Rattle.sh_pass.specs.Receipts.{receipt_by};
ghost use Rattle.sh_pass.specs.Remaining.{Remains};
ghost use Rattle.sh_table.specs.Together.{LeadsTogether};
ghost use Rattle.sh_shard.specs.Shards.{HoldsShard, shard_heeded};

use crate::shard::ShardOn;
use sh_key::KeyLayout;
use sh_pass::{Bundle, KeepsHeap, Receipt};

impl<L: KeyLayout, H: KeepsHeap<L>> ShardOn<L, H> {
    /// A receipt for all that was returned to the owner, and for all that it heard from others: one load.
    pub fn receipt(&mut self) -> Receipt
        ensures same { self.new ≡ self.old }
        ensures tells { result ≡ receipt_by self.old.pages.owner }
        ensures remains { Remains L.layout self.old.pages.owner self.new.pages.owner }
    {
        self.pages.receipt()
    }

    /// Everything that the receipt covers happens before what is returned to the owner from now on: two loads.
    pub fn heed(&mut self, receipt: Receipt)
        requires { receipt.heap ≡ self.old.pages.owner.heap }
        ensures heeds { self.new ≡ shard_heeded self.old receipt }
        ensures holds { HoldsShard L.layout self.new }
        ensures remains { Remains L.layout self.old.pages.owner self.new.pages.owner }
    {
        self.pages.heed(receipt);
    }

    /// A bundle of no passes yet: one load.
    pub fn bundle(&mut self) -> Bundle
        ensures same { self.new ≡ self.old }
        ensures opens { result ≡ bundle_by self.old.pages.owner }
    {
        self.pages.bundle()
    }

    /// Ends the owner in the bundle: two loads. The shard stays taken.
    pub fn bind(self, bundle: &mut Bundle)
        requires { bundle.old.heap ≡ self.pages.owner.heap }
        ensures binds { bundle.new ≡ bundled bundle.old self.pages.owner }
        ensures leads { LeadsTogether L.layout bundle.new.view }
    {
        let ShardOn { pages, .. } = self;
        pages.bind(bundle);
    }
}
