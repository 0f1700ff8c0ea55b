//! Names the heap of one round.
ghost use Rattle.std.specs.Prelude.{◌≡◌, Some};
ghost use Rattle.std.specs.Option.{ForSome};
ghost use Rattle.std.proofs.Props.{props};
ghost use Rattle.sh_grown.specs.Receipts.{AreReceiptsIn};

use sh_grown::GrownReceipt;
use sh_pass::Receipt;
use std::marker::{Brand, PhantomData};

/// Names the heap of a round, of a fixed shape or growing. Each round chooses its heap, and every item with this type
/// parameter is of that heap.
pub trait Home {
    ghost use Rattle.std.specs.Prelude.{Option};
    ghost use Rattle.sh_table.specs.Seats.{Heap};
    ghost use Rattle.sh_grown.specs.declared.growing.Growing.{Growing};

    ghost heap: { Option Heap };

    ghost growing: { Option Growing };
}

impl Home for Brand {
    ghost use Rattle.std.specs.Prelude.{None};

    ghost heap = { None };

    ghost growing = { None };
}

/// A receipt of the heap that `H` names.
#[derive(Drop)]
pub struct HomeReceipt<H: Home> {
    receipt: Receipt,
    home: PhantomData<H>,
    ghost at_home: { H.heap ≡ Some receipt.heap },
}

impl<H: Home> HomeReceipt<H> {
    /// Wraps a receipt of that heap.
    pub fn new(receipt: Receipt) -> Self
        requires { H.heap ≡ Some receipt.heap }
    {
        HomeReceipt {
            receipt,
            home: PhantomData,
        }
    }

    /// Returns the receipt inside.
    pub fn into_receipt(self) -> Receipt
        ensures { H.heap ≡ Some result.heap }
    {
        let HomeReceipt { receipt, home: _ } = self;
        receipt
    }
}

/// A receipt of the growing heap that `H` names.
#[derive(Drop)]
pub struct GrownHomeReceipt<H: Home> {
    receipt: GrownReceipt,
    home: PhantomData<H>,
    ghost at_home: { ForSome H.growing (λ growing. AreReceiptsIn growing receipt.chunks.items) } by { Prim.hlevel props },
}

impl<H: Home> GrownHomeReceipt<H> {
    /// Wraps a receipt of that heap.
    pub fn new(receipt: GrownReceipt) -> Self
        requires { ForSome H.growing (λ growing. AreReceiptsIn growing receipt.chunks.items) }
    {
        GrownHomeReceipt {
            receipt,
            home: PhantomData,
        }
    }

    /// Returns the receipt inside.
    pub fn into_receipt(self) -> GrownReceipt
        ensures { ForSome H.growing (λ growing. AreReceiptsIn growing result.chunks.items) }
    {
        let GrownHomeReceipt { receipt, home: _ } = self;
        receipt
    }
}
