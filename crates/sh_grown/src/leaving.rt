// How a caller leaves its shards, and ends.
ghost use Rattle.std.specs.Prelude.{◌≡◌, ◌≢◌, ◌<◌, ℕ, IfErr, None, OnErr, OnOk, get_or, length};
ghost use Rattle.sh_value.specs.declared.refusal.Refusal.TheVariants.{Waiting};
ghost use Rattle.sh_grown.specs.Callers.{Stays};
ghost use Rattle.sh_grown.specs.Inserts.{OwnsNone};
ghost use Rattle.sh_grown.specs.Keeping.{KeepsMembers};
ghost use Rattle.sh_grown.specs.Leaving.{LeavesIdle, StopsBelow};
ghost use Rattle.sh_grown.specs.Refusals.{WaitsThere};

use crate::caller::Caller;
use crate::chunk_member::{leave_at, return_each_to_pool};
use sh_value::Refusal;

impl Caller {
    /// Leaves the shards that it owns, in each chunk. Refused as `Waiting` if another caller has begun a free in one of
    /// them that is yet to end: then it still owns that one, and those of later chunks.
    pub fn leave(&mut self) -> Result<(), Refusal>
        ensures left { OnOk result ((chunk : ℕ) → chunk < length self.new.met.items
            → OwnsNone (get_or self.new.met.items chunk None)) }
        ensures err { IfErr result (λ why. why ≡ Waiting) }
        ensures waits { OnErr result
            (StopsBelow (length self.old.met.items) self.old.met.items self.new.met.items) }
        ensures keeps { KeepsMembers self.old.met.items self.new.met.items }
        ensures stays { Stays self.old self.new }
    {
        for chunk in 0..self.met.len() {
            self.leave_in(chunk)?;
        }
        Ok(())
    }

    /// Leaves each shard that it owns in which no other caller has begun a free that is yet to end, also behind one in
    /// which a free has to end. So others can insert there. Refused as `Waiting` if it still owns a shard.
    ///
    /// A caller that inserts seldom calls it between its inserts, so that a chunk of few shards serves many callers.
    /// The next insert may go to any shard, and takes the steps of an adoption.
    ///
    /// ```text
    /// let key = caller.insert(alloc, &value)?;
    /// caller.leave_idle()?;                      // another caller inserts in the same shard
    /// ```
    pub fn leave_idle(&mut self) -> Result<(), Refusal>
        ensures idle { LeavesIdle (length self.old.met.items) self.old.met.items result self.new.met.items }
        ensures keeps { KeepsMembers self.old.met.items self.new.met.items }
        ensures stays { Stays self.old self.new }
    {
        let mut answer = Ok(());
        for chunk in 0..self.met.len() {
            answer = self.leave_in(chunk).and(answer);
        }
        answer
    }

    // Leaves the shard that it owns in this chunk, if it owns one there. Refused as `Waiting`.
    fn leave_in(&mut self, chunk: usize) -> Result<(), Refusal>
        requires { chunk < length self.old.met.items }
        ensures left { OnOk result (OwnsNone (get_or self.new.met.items chunk None)) }
        ensures err { IfErr result (λ why. why ≡ Waiting) }
        ensures waits { OnErr result
            (WaitsThere (get_or self.old.met.items chunk None) (get_or self.new.met.items chunk None)) }
        ensures others { (other : ℕ) → other ≢ chunk
            → get_or self.new.met.items other None ≡ get_or self.old.met.items other None }
        ensures count { length self.new.met.items ≡ length self.old.met.items }
        ensures keeps { KeepsMembers self.old.met.items self.new.met.items }
        ensures stays { Stays self.old self.new }
    {
        leave_at(&mut self.met[chunk])
    }

    /// Leaves its shards and gives its passes back, from the last chunk to the first, so that its number can be claimed
    /// again. Refused as `Waiting` as `leave_idle` is: then the caller comes back.
    pub fn end(self) -> Result<(), (Self, Refusal)>
        ensures { IfErr result (λ back. Stays self back.0 × (back.1 ≡ Waiting)
            × KeepsMembers self.met.items back.0.met.items) }
    {
        let mut caller = self;
        if let Err(why) = caller.leave_idle() {
            return Err((caller, why));
        }
        caller.give_back();
        Ok(())
    }

    /// Gives its passes back, from the last chunk to the first, and drops its share of the heap. Each pass leaves its
    /// shard first, as by `leave_idle`. One that cannot is lost with its shard: `end` returns the caller then. If that
    /// shard is of the first chunk, the number cannot be claimed again. If it is of a later one, the number can, and
    /// that chunk then refuses its calls as `Taken`.
    pub fn give_back(self) {
        let Caller {
            growing: _,
            number: _,
            front: _,
            met,
        } = self;
        return_each_to_pool(met);
    }
}
