//! Receipts: one pass gives a receipt and another heeds it. Then all results of the first, up to the receipt, happen
//! before all later results of the other.
ghost use Rattle.std.specs.Prelude.{◌≡◌};
ghost use Rattle.sh_slots.specs.declared.hand.Hand.TheVariants.{Idle};
ghost use Rattle.sh_pass.specs.Owners.{own_body};
ghost use Rattle.sh_pass.specs.Receipts.{receipt_by, heeded};
ghost use Rattle.sh_pass.specs.Remaining.{Remains};

use crate::heap::Heap;
use crate::keeping::KeepsHeap;
use crate::owner::OwnerOn;
use crate::pass::PassOn;
use sh_key::KeyLayout;
use sh_table::PassSeat;
use std::marker::Model;

/// A witness of what happened before: it covers all results of a pass until it gave the receipt, and all that the pass
/// had heard of others.
///
/// It has no bytes, and may go to another thread in any way. It stays true whatever other threads do, and dropping it
/// loses nothing. A contract sees which heap it is of and what it covers.
///
/// ```text
/// let key = owner.insert(value)?;  let receipt = owner.receipt();  // both are sent to another thread
/// pass.heed(receipt);  pass.get(key)                               // there: Gone only if the key was removed
/// ```
#[derive(Drop)]
pub struct Receipt {
    pub(crate) seat: PassSeat,
}

impl Model for Receipt {
    ghost use Rattle.sh_pass.specs.Passes.{Caller, caller_of, heap_of};
    ghost use Rattle.sh_table.specs.Seats.{IsReceipt};

    ghost Value = { Caller };

    ghost view = { λ r. caller_of r.seat };

    ghost invariant = { λ r. IsReceipt (heap_of r.seat) r.seat };
}

impl Receipt {
    /// A second receipt that covers the same, for one more pass to heed: one load.
    pub fn copy<L: KeyLayout>(&mut self, heap: &Heap<L>) -> Receipt
        requires { self.old.heap ≡ heap.now }
        ensures same { self.new ≡ self.old }
        ensures copied { result ≡ self.old }
    {
        Receipt {
            seat: heap.table.copy_receipt(&mut self.seat),
        }
    }
}

impl<L: KeyLayout, H: KeepsHeap<L>> PassOn<L, H> {
    /// A receipt of all results of the pass, and of all that it heard of others: one load.
    pub fn receipt(&mut self) -> Receipt
        ensures same { self.new ≡ self.old }
        ensures tells { result ≡ receipt_by self.old }
        ensures remains { Remains L.layout self.old self.new }
    {
        Receipt {
            seat: self.heap.kept().table.receipt(&mut self.seated.seat),
        }
    }

    /// Everything that the receipt covers happens before all later results of the pass: two loads.
    pub fn heed(&mut self, receipt: Receipt)
        requires { receipt.heap ≡ self.old.heap }
        ensures heeds { self.new ≡ heeded self.old receipt }
        ensures remains { Remains L.layout self.old self.new }
    {
        let Receipt { seat } = receipt;
        self.heap.kept().table.heed(&mut self.seated.seat, seat);
    }
}

impl<L: KeyLayout, H: KeepsHeap<L>> OwnerOn<L, H> {
    /// A receipt of all results of the owner, and of all that it heard of others: one load.
    pub fn receipt(&mut self) -> Receipt
        requires idle { (own_body self.old).hand ≡ Idle }
        ensures same { self.new ≡ self.old }
        ensures tells { result ≡ receipt_by self.old }
        ensures remains { Remains L.layout self.old self.new }
    {
        let heap = self.heap.kept();
        Receipt {
            seat: heap.table.receipt(&mut self.seated.seat),
        }
    }

    /// Everything that the receipt covers happens before all later results of the owner: two loads.
    pub fn heed(&mut self, receipt: Receipt)
        requires idle { (own_body self.old).hand ≡ Idle }
        requires receipt { receipt.heap ≡ self.old.heap }
        ensures heeds { self.new ≡ heeded self.old receipt }
        ensures remains { Remains L.layout self.old self.new }
    {
        let Receipt { seat: told } = receipt;
        let heap = self.heap.kept();
        heap.table.heed(&mut self.seated.seat, told);
    }
}
