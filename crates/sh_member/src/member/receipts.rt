// Receipts of a member.
ghost use Rattle.std.specs.Prelude.{◌≡◌};
ghost use Rattle.sh_member.specs.Sides.{IsOfHeap, IsReceiptBy, SideHeeds};

use crate::member::{Member, Side};
use sh_key::KeyLayout;
use sh_pass::{KeepsHeap, Receipt};

impl<L: KeyLayout, H: KeepsHeap<L>> Member<L, H> {
    /// A receipt of all its results, and of all that it heard of others: one load.
    pub fn receipt(&mut self) -> Receipt
        ensures same { self.new ≡ self.old }
        ensures tells { IsReceiptBy self.old result }
    {
        match &mut self.side {
            Side::Pass(pass) => pass.receipt(),
            Side::Shard(shard) => shard.receipt(),
        }
    }

    /// Everything that the receipt covers happens before all its later results: two loads.
    pub fn heed(&mut self, receipt: Receipt)
        requires { IsOfHeap self.old receipt.heap }
        ensures { SideHeeds L.layout receipt self.old self.new }
    {
        match &mut self.side {
            Side::Pass(pass) => pass.heed(receipt),
            Side::Shard(shard) => shard.heed(receipt),
        }
    }
}
