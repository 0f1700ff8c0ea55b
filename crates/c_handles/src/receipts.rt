//! Receipts of what a pass's handle holds: of a pass of a heap of a fixed shape, or of a caller of one that grows.
ghost use Rattle.c_handles.specs.HeldPasses.{HeedsFixed, HeedsGrown, HeldHeeds, IsAsBefore, IsOfFixed, IsOfGrown};
ghost use Rattle.c_handles.specs.HeldPasses.{IsOfHeldHeap, IsReceiptOf};

use crate::held_pass::HeldPass;
use sh_grown::GrownReceipt;
use sh_pass::Receipt;
use sh_value::Refusal;

/// A receipt of what a pass's handle holds. It has a byte for each of 256 chunks, whatever the heap is. So a handle has
/// one kind of box, and no call asks for other memory.
#[derive(Drop)]
pub enum KeptReceipt {
    /// Of a pass of a heap of a fixed shape.
    Fixed(Receipt),
    /// Of a caller of a growing heap.
    Growing(GrownReceipt),
}

impl HeldPass {
    /// A receipt of all replies to a pass or a caller, and of all that it heard of others. The pass is as it was, and
    /// so is all that a caller has in its chunks.
    pub fn receipt(&mut self) -> KeptReceipt
        ensures same { IsAsBefore self.old self.new }
        ensures receipt { IsReceiptOf self.old result }
    {
        match self {
            HeldPass::Wide(member, _) => KeptReceipt::Fixed(member.receipt()),
            HeldPass::Tagged(member, _) => KeptReceipt::Fixed(member.receipt()),
            HeldPass::Deep(member, _) => KeptReceipt::Fixed(member.receipt()),
            HeldPass::Tiny(member, _) => KeptReceipt::Fixed(member.receipt()),
            HeldPass::Growing(caller) => KeptReceipt::Growing(caller.receipt()),
        }
    }

    /// Everything that the receipt covers happens before all later replies to the pass or the caller. The receipt has
    /// to be of the same heap.
    ///
    /// A pass is never refused. A caller is refused as `Taken` if its pass is not in the pool of a chunk of the
    /// receipt, which no caller of that heap brings about. Then it has heeded the receipts of the chunks before.
    pub fn heed(&mut self, receipt: KeptReceipt) -> Result<(), Refusal>
        requires { IsOfHeldHeap self.old receipt }
        ensures { HeldHeeds receipt self.old result self.new }
    {
        match receipt {
            KeptReceipt::Fixed(fixed) => {
                self.heed_fixed(fixed);
                Ok(())
            }
            KeptReceipt::Growing(grown) => self.heed_grown(grown),
        }
    }

    // The same of a receipt of a pass. A caller drops it: no caller is of the heap of such a receipt.
    fn heed_fixed(&mut self, receipt: Receipt)
        requires { IsOfFixed self.old receipt.heap }
        ensures { HeedsFixed receipt self.old self.new }
    {
        match self {
            HeldPass::Wide(member, _) => member.heed(receipt),
            HeldPass::Tagged(member, _) => member.heed(receipt),
            HeldPass::Deep(member, _) => member.heed(receipt),
            HeldPass::Tiny(member, _) => member.heed(receipt),
            HeldPass::Growing(_) => drop(receipt),
        }
    }

    // The same of a receipt of a caller. A pass drops it: no pass is of the heap of such a receipt.
    fn heed_grown(&mut self, receipt: GrownReceipt) -> Result<(), Refusal>
        requires { IsOfGrown self.old receipt }
        ensures { HeedsGrown receipt self.old result self.new }
    {
        match self {
            HeldPass::Wide(_, _) => Ok(()),
            HeldPass::Tagged(_, _) => Ok(()),
            HeldPass::Deep(_, _) => Ok(()),
            HeldPass::Tiny(_, _) => Ok(()),
            HeldPass::Growing(caller) => caller.heed(receipt),
        }
    }
}
