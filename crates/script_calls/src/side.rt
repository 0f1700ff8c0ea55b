//! A pass of a heap, with or without a shard: what runs the calls of a script.
ghost use Rattle.std.specs.Prelude.{◌≡◌, ◌<◌, ◌+◌, ◌∷◌, ◌++◌, IfOk, None, Some};
ghost use Rattle.sh_key.specs.Layout.{first_key, key_count};
ghost use Rattle.script_calls.specs.Parts.{SeenPass, SamePass, tale_told};
ghost use Rattle.script_calls.specs.Calls.{AdoptAnswers, LeaveAnswers, InsertAnswers, GetAnswers, ReadAnswers};
ghost use Rattle.script_calls.specs.Calls.{RemoveAnswers, ReleaseAnswers};
ghost use Rattle.sh_table.specs.Together.{LeadsTogether};
ghost use Rattle.script_calls.specs.Meeting.{KeepsOrders, OpensFor, BindsSide, parts_carried};
ghost use Rattle.script_calls.specs.OwnParts.{PartIsTrue, shape_in};
ghost use Rattle.script_calls.specs.Receipts.{seen_of_receipt, receipt_seen, Heeds, HasOrderedTale};

use sh_pass::{Bundle, Receipt};
use sh_value::{Hold, Refusal, Value};
use std::alloc::Global;

/// A pass, which may own a shard. The clauses of each call say exactly when each refusal is returned, and what the log
/// gains. They also say that the contract of a member, which is the pass or its shard, allows this result.
pub trait Side: Drop {
    // What a contract sees.
    ghost seen: { Self → SeenPass };

    /// Adopts the shard. Refused as `Taken` if it owns one, as `NoShard` if there is no such shard, as `Taken` by one
    /// step that met another owner, and as `Memory`. It takes at most two steps more than the shard has pages.
    fn adopt(&mut self, alloc: Global, shard: u64) -> Result<(), Refusal>
        ensures does { AdoptAnswers (seen self.old).terms (seen self.old).part shard result (seen self.new).part }
        ensures same { SamePass (seen self.old) (seen self.new) };

    /// Leaves its shard. Refused as `NoShard` if it owns none, and as `Waiting` if others have begun to free its slots.
    fn leave(&mut self) -> Result<(), Refusal>
        ensures does { LeaveAnswers (seen self.old).part result (seen self.new).part }
        ensures same { SamePass (seen self.old) (seen self.new) };

    /// Stores the value in its shard, and returns its key. Refused as `NoShard` if it owns none, as `Full` if the shard
    /// has no room, and as `Memory` if a segment is unopened.
    fn insert(&mut self, value: &Value) -> Result<u64, Refusal>
        ensures does { InsertAnswers (seen self.old).terms (seen self.old).pass (seen self.old).part value.now result
            (seen self.new).part }
        ensures small { IfOk result (λ key. key < first_key (seen self.old).terms.layout + key_count
            (seen self.old).terms.layout) }
        ensures same { SamePass (seen self.old) (seen self.new) };

    /// Takes a hold on the key. Refused as `BadKey`, `HoldsFull`, `Gone` or `Crowded`.
    fn get(&mut self, key: u64) -> Result<Hold, Refusal>
        ensures does { GetAnswers (seen self.old).terms (seen self.old).pass (seen self.old).part key result
            (seen self.new).part }
        ensures same { SamePass (seen self.old) (seen self.new) };

    /// The value of the key that is held. Refused as `NotHeld`.
    fn read(&mut self, hold: Hold) -> Result<Value, Refusal>
        ensures does { ReadAnswers (seen self.old).terms (seen self.old).pass (seen self.old).part hold.key result
            (seen self.new).part }
        ensures same { SamePass (seen self.old) (seen self.new) };

    /// Removes the key. Refused as `BadKey` or `Gone`.
    fn remove(&mut self, key: u64) -> Result<(), Refusal>
        ensures does { RemoveAnswers (seen self.old).terms (seen self.old).pass (seen self.old).part key result
            (seen self.new).part }
        ensures same { SamePass (seen self.old) (seen self.new) };

    /// Gives a hold back. Refused as `NotHeld`.
    fn release(&mut self, hold: Hold) -> Result<(), Refusal>
        ensures does { ReleaseAnswers (seen self.old).terms (seen self.old).pass (seen self.old).part hold.key result
            (seen self.new).part }
        ensures same { SamePass (seen self.old) (seen self.new) };

    /// A receipt of all that was returned to this pass, and of all that it heard of others.
    fn receipt(&mut self) -> Receipt
        ensures tells { seen_of_receipt result ≡ receipt_seen (seen self.old) }
        ensures same { seen self.new ≡ seen self.old };

    /// Everything that the receipt covers happens before what is returned to the caller from now on.
    fn heed(&mut self, receipt: Receipt)
        requires { (seen_of_receipt receipt).heap ≡ (seen self.old).heap }
        ensures { Heeds receipt (seen self.old) (seen self.new) };

    /// Returns the first side, which now speaks for both, and has heard of what either heard of. Neither owns a shard.
    fn join(self, other: Self) -> Self
    where
        Self: Sized,
        requires none { ((seen self).part.shard ≡ None) × ((seen other).part.shard ≡ None) }
        requires heap { (seen self).heap ≡ (seen other).heap }
        ensures none { (seen result).part.shard ≡ None }
        ensures heap { (seen result).heap ≡ (seen self).heap }
        ensures terms { (seen result).terms ≡ (seen self).terms }
        ensures tale { tale_told (seen result) ≡ tale_told (seen self) ++ tale_told (seen other) }
        ensures orders { KeepsOrders ((seen self).orders ++ (seen other).orders) (seen result).orders }
        ensures parts { parts_carried (seen result) ≡ parts_carried (seen self) ++ parts_carried (seen other) };

    /// A bundle of no passes yet.
    fn bundle(&mut self) -> Bundle
        ensures opens { OpensFor (seen self.old) result }
        ensures same { seen self.new ≡ seen self.old };

    /// Ends this side in the bundle, with the shard that it owns. One run of the core leads to the parts of all passes
    /// that ended there.
    fn bind(self, bundle: &mut Bundle)
    where
        Self: Sized,
        requires { Some bundle.old.heap ≡ (seen self).heap }
        ensures binds { BindsSide (seen self) bundle.old bundle.new }
        ensures leads { LeadsTogether (seen self).terms.layout bundle.new.view };

    /// One legal history has the entries of each pass that it speaks for, and keeps the orders that it heard of. All
    /// that it knows is true, nothing is begun, and its entries are those of its own part.
    fn whole(&self)
        ensures tale { HasOrderedTale (seen self.now) }
        ensures stands { PartIsTrue (seen self.now).terms.layout (seen self.now).part }
        ensures shape { shape_in (seen self.now).part.stands ≡ (seen self.now).terms.shape };
}
