//! What a pass and a shard have in common.
ghost use Rattle.std.specs.Prelude.{◌≡◌, ◌*◌, ◌<◌, Result, length};
ghost use Rattle.sh_key.specs.Layout.{Layout};
ghost use Rattle.sh_pass.specs.Fetching.{FetchDoes};
ghost use Rattle.sh_pass.specs.Rooms.{FillsRoom, becomes};
ghost use Rattle.sh_pass.specs.Passes.{Caller, GetDoes, GlanceDoes, ReadDoes, ReadIntoDoes, RemoveDoes, ReleaseDoes};
ghost use Rattle.sh_pass.specs.Peeks.{PeekDoes};
ghost use Rattle.sh_shape.specs.Places.{all_pages, slot_places};
ghost use Rattle.sh_pass.specs.Receipts.{heeded, receipt_by};
ghost use Rattle.sh_member.specs.Batches.{GetsEach, FetchesEach, RemainsAfter};
ghost use Rattle.sh_pass.specs.Remaining.{Remains};
ghost use Rattle.sh_member.specs.Readers.{WithDoes, TakeDoes, TakeIntoDoes};
ghost use Rattle.sh_member.specs.Removing.{RemovesIf, SaysOf, walk_end};
ghost use Rattle.sh_member.specs.Walks.{NextHeldDoes, NextLiveDoes, PutsLive};
ghost use Rattle.std.specs.Fn.{FnOnceReturnsAt};

use crate::batches::{fetch_each, get_each};
use crate::fetching::{fetch, with};
use crate::removing::remove_if;
use crate::taking::take;
use crate::taking_into::take_into;
use crate::walking::{NextHeld, NextLive, next_held, next_live, next_live_into};
use sh_pass::{Glance, NextKey, Receipt};
use sh_value::{Hold, Refusal, Value};

/// A caller that may look keys up: a pass, a shard by its owner's pass, or a member, which is one of both. (A caller of
/// a growing heap has a pass in each chunk, so it is no reader of one heap. It is a `Lookup`, as a pass and a shard
/// are.)
///
/// ```text
/// let value = pass.look(key)?;    // read, without a hold
/// let value = pass.take(key)?;    // read and removed: no one else gets it by `take`
/// ```
///
/// The first eight calls are those of `Pass` and of `Shard`, with the same contracts. `look` and `take` end what they
/// begin: whatever they return, they leave the holds as they were.
pub trait Reader {
    // How keys are numbered.
    ghost layout: { Layout };

    // The heap, and what is known of it.
    ghost caller: { Self → Caller };

    /// Loads the state word of a key's slot, so that the memory is on its way when a call of this key needs it. It does
    /// no step, and a number that is no key of the heap does nothing. Several keys that are warmed before the first one
    /// is got wait for their memory at the same time: `fetch_each` does so.
    fn warm(&self, key: u64);

    /// The same, and the words that a read of the key's value needs: its page's class, its length, and its word if it
    /// has one.
    fn warm_value(&self, key: u64);

    /// Looks at a key once, in loads alone: at most w + 4 for a value of w words. Only a value that it sees replaces
    /// the caller's. Refused as `BadKey`. `look_into` is this, and a get where this decides nothing.
    fn glance(&mut self, key: u64, value: &mut Value) -> Result<Glance, Refusal>
        ensures does { GlanceDoes becomes layout key (caller self.old) value.old result value.new (caller self.new) }
        ensures remains { Remains layout (caller self.old) (caller self.new) };

    /// The value of a key into a value of the caller's, replacing what that was: as `look`. A refusal leaves the
    /// caller's value as it was.
    fn look_into(&mut self, key: u64, value: &mut Value) -> Result<(), Refusal>
        ensures does { FillsRoom becomes (λ answer. FetchDoes layout key (caller self.old) answer (caller self.new))
            value.old result value.new }
        ensures remains { Remains layout (caller self.old) (caller self.new) };

    /// How many places the heap has: 48 for each page, in the order of its pages, those of one shard side by side.
    fn heap_places(&self) -> u64
        ensures is { result ≡ all_pages (caller self.now).heap.shape * slot_places }
        ensures rest { Remains layout (caller self.now) (caller self.now) };

    /// The key that is live at a place of the heap, or `None` if none is: one load of the slot's state word.
    fn peek_at(&mut self, place: u64) -> Option<u64>
        requires { place < all_pages (caller self.old).heap.shape * slot_places }
        ensures does { PeekDoes layout place (caller self.old) result (caller self.new) }
        ensures remains { Remains layout (caller self.old) (caller self.new) };

    /// Takes a hold on a key, so that its value stays readable. Refused as `BadKey`, `HoldsFull`, `Gone` or `Crowded`,
    /// tried in that order.
    fn get(&mut self, key: u64) -> Result<Hold, Refusal>
        ensures does { GetDoes layout key (caller self.old) result (caller self.new) }
        ensures remains { Remains layout (caller self.old) (caller self.new) };

    /// The value of a key that is held. Refused as `NotHeld` exactly if there is no hold on the key.
    fn read(&mut self, hold: Hold) -> Result<Value, Refusal>
        ensures does { ReadDoes hold.key (caller self.old) result (caller self.new) }
        ensures remains { Remains layout (caller self.old) (caller self.new) };

    /// The same into a value of the caller's, replacing what that was, so that it is copied nowhere. A refusal leaves
    /// the caller's value as it was.
    fn read_into(&mut self, hold: Hold, value: &mut Value) -> Result<(), Refusal>
        ensures does { ReadIntoDoes hold.key (caller self.old) value.old result value.new (caller self.new) }
        ensures remains { Remains layout (caller self.old) (caller self.new) };

    /// Removes a key: no later get finds it, and its value stays until the last hold goes. Refused as `BadKey` or
    /// `Gone`.
    fn remove(&mut self, key: u64) -> Result<(), Refusal>
        ensures does { RemoveDoes layout key (caller self.old) result (caller self.new) }
        ensures remains { Remains layout (caller self.old) (caller self.new) };

    /// Gives one hold on a key back. Refused as `NotHeld` exactly if there is none on the key.
    fn release(&mut self, hold: Hold) -> Result<(), Refusal>
        ensures does { ReleaseDoes layout hold.key (caller self.old) result (caller self.new) }
        ensures remains { Remains layout (caller self.old) (caller self.new) };

    /// A receipt of all results of the caller, and of all that it heard of others: one load.
    fn receipt(&mut self) -> Receipt
        ensures same { caller self.new ≡ caller self.old }
        ensures tells { result ≡ receipt_by (caller self.old) }
        ensures remains { Remains layout (caller self.old) (caller self.new) };

    /// Everything that the receipt covers happens before all later results of the caller: two loads.
    fn heed(&mut self, receipt: Receipt)
        requires { receipt.heap ≡ (caller self.old).heap }
        ensures heeds { caller self.new ≡ heeded (caller self.old) receipt }
        ensures remains { Remains layout (caller self.old) (caller self.new) };

    /// The value of a key, in w + 4 loads for w words. It writes nothing to shared memory, needs no room for a hold and
    /// leaves none. Refused as `BadKey`, or as `Gone` if the key was removed.
    ///
    /// If its first load comes before the value was there, it gets, reads and releases the key instead. That takes at
    /// most w + 9 steps more, and may be refused as `HoldsFull` or `Crowded` too. It is so only of a key whose insert
    /// the caller neither did nor heard of by a receipt.
    ///
    /// ```text
    /// let value = pass.look(key)?;
    /// ```
    final fn look(&mut self, key: u64) -> Result<Value, Refusal>
    where
        Self: Sized,
        ensures does { FetchDoes layout key (caller self.old) result (caller self.new) }
        ensures remains { Remains layout (caller self.old) (caller self.new) }
    {
        fetch(self, key)
    }

    /// The value of a key: the same as `look`.
    final fn fetch(&mut self, key: u64) -> Result<Value, Refusal>
    where
        Self: Sized,
        ensures does { FetchDoes layout key (caller self.old) result (caller self.new) }
        ensures remains { Remains layout (caller self.old) (caller self.new) }
    {
        fetch(self, key)
    }

    /// The same as `look_into`.
    final fn fetch_into(&mut self, key: u64, value: &mut Value) -> Result<(), Refusal>
    where
        Self: Sized,
        ensures does { FillsRoom becomes (λ answer. FetchDoes layout key (caller self.old) answer (caller self.new))
            value.old result value.new }
        ensures remains { Remains layout (caller self.old) (caller self.new) }
    {
        self.look_into(key, value)
    }

    /// What a call returns for the value of a key, as `pass.with(key, |value| value.words().len())`: a look whose value
    /// need not be kept. Refused as `look` is, and then nothing is called. There is no hold while the call runs.
    final fn with<T, F: FnOnce(&Value) -> T>(&mut self, key: u64, call: F) -> Result<T, Refusal>
    where
        Self: Sized,
        F: Drop,
        requires { F.IsAlwaysCallable call }
        ensures does { WithDoes (FnOnceReturnsAt F.FnOnce call) layout key (caller self.old) result (caller self.new) }
        ensures remains { Remains layout (caller self.old) (caller self.new) }
    {
        with(self, key, call)
    }

    /// The value of a key, which this call removes, in at most w + 17 steps for w words. Of all calls that take one
    /// key, only one gets the value. Refused as a get is: `BadKey`, `HoldsFull`, `Gone` or `Crowded`, and also as
    /// `Gone` if another caller removed the key between the get and the removal. No hold is left behind, whatever it
    /// returns.
    final fn take(&mut self, key: u64) -> Result<Value, Refusal>
    where
        Self: Sized,
        ensures does { TakeDoes layout key (caller self.old) result (caller self.new) }
        ensures remains { Remains layout (caller self.old) (caller self.new) }
    {
        take(self, key)
    }
    /// The same into a value of the caller's, replacing what that was, if it has at most `most` words. A longer value
    /// is read into it too, but its key is not removed. Refused as `take` is. No hold is left behind, whatever it
    /// returns.
    final fn take_into(&mut self, key: u64, most: usize, value: &mut Value) -> Result<(), Refusal>
    where
        Self: Sized,
        ensures does { TakeIntoDoes layout key most (caller self.old) result value.new (caller self.new) }
        ensures remains { Remains layout (caller self.old) (caller self.new) }
    {
        take_into(self, key, most, value)
    }

    /// The first live key at a place from `from` on and before `before`, or `None`. Its value replaces the caller's,
    /// which is as it was if there is no key. A heap has `heap_places` places, and there is no key behind them.
    ///
    /// A walk meets the live keys in the order of their places, each place once. A key that is live from its begin to
    /// its end is met. One that is inserted or removed meanwhile is met or not. A key that is met was live at that
    /// moment. A key whose insert the caller did or heard of by a receipt is met, unless it was removed.
    ///
    /// ```text
    /// let mut value = Value::from(0);
    /// let mut place = 0;
    /// while let Some(next) = pass.next_live_into(place, u64::MAX, &mut value) {
    ///     place = next.behind;    // next.key was live, with this value
    /// }
    /// ```
    ///
    /// It takes at most 21 loads a place, one in a place without a live key, and w + 5 to read a value of w words. It
    /// writes nothing to shared memory, and leaves no hold.
    final fn next_live_into(&mut self, from: u64, before: u64, value: &mut Value) -> Option<NextKey>
    where
        Self: Sized,
        ensures does { PutsLive (λ met. NextLiveDoes layout from before (caller self.old) met (caller self.new))
            value.old result value.new }
        ensures remains { Remains layout (caller self.old) (caller self.new) }
    {
        next_live_into(self, from, before, value)
    }

    /// The same with the value of the key.
    final fn next_live(&mut self, from: u64, before: u64) -> Option<NextLive>
    where
        Self: Sized,
        ensures does { NextLiveDoes layout from before (caller self.old) result (caller self.new) }
        ensures remains { Remains layout (caller self.old) (caller self.new) }
    {
        next_live(self, from, before)
    }

    /// The same with a hold on the key, in place of its value. There is no hold if the key has as many as it may have.
    /// Refused as `HoldsFull` if a key is met and the caller has 16 holds: then a call from the same place on, after a
    /// release, goes on. It takes at most 8 steps a place, one in a place without a live key.
    final fn next_held(&mut self, from: u64, before: u64) -> Result<Option<NextHeld>, Refusal>
    where
        Self: Sized,
        ensures does { NextHeldDoes layout from before (caller self.old) result (caller self.new) }
        ensures remains { Remains layout (caller self.old) (caller self.new) }
    {
        next_held(self, from, before)
    }

    /// Removes each key of which the predicate is true, as a walk over all places meets them. Returns how many keys
    /// this call removed: a key that another caller removed meanwhile is not counted.
    ///
    /// ```text
    /// let count = pass.remove_if(|_key, value| value.words().first().is_some_and(|end| *end < now));
    /// ```
    ///
    /// The predicate is asked once of each key that is met, with the value that the key has. There is no hold while it
    /// runs. Beside the steps of the walk, a removal takes at most 8 steps.
    final fn remove_if<F: Fn(u64, &Value) -> bool>(&mut self, predicate: F) -> u64
    where
        Self: Sized,
        F: Drop,
        requires { F.IsAlwaysCallable predicate }
        ensures does { RemovesIf (SaysOf F.Fn predicate) (λ from. NextLiveDoes layout from walk_end) (RemoveDoes layout)
            (caller self.old) result (caller self.new) }
        ensures remains { Remains layout (caller self.old) (caller self.new) }
    {
        remove_if(self, predicate)
    }

    /// A get of each key, in order; `results[i]` is what the get of `keys[i]` returned. A refused get stops nothing.
    /// The keys are warmed eight at a time before they are got, so that their waits for memory overlap. Beside a few
    /// thousand values, which the caches have, single gets are faster.
    ///
    /// ```text
    /// let mut holds = [Err(Refusal::Gone), Err(Refusal::Gone)];
    /// pass.get_each(&[one, other], &mut holds);
    /// ```
    final fn get_each(&mut self, keys: &[u64], results: &mut [Result<Hold, Refusal>])
    where
        Self: Sized,
        requires { length results.old ≡ length keys.now }
        ensures does { GetsEach layout keys.now (caller self.old) results.new (caller self.new) }
        ensures remains { RemainsAfter layout keys.now (caller self.old) (caller self.new) }
    {
        get_each(self, keys, results)
    }

    /// A look at each key, in order; `results[i]` is what the look at `keys[i]` returned. A refused look stops nothing.
    /// The keys are warmed eight at a time, as `get_each` does.
    ///
    /// A value that is in the results before the call is read into, so that nothing is copied. So a loop has one list
    /// of results for all its batches, which begins as `Ok(Value::from(0))` at each place:
    ///
    /// ```text
    /// let mut values = [Ok(Value::from(0)), Ok(Value::from(0))];
    /// pass.fetch_each(&[one, other], &mut values);
    /// ```
    final fn fetch_each(&mut self, keys: &[u64], results: &mut [Result<Value, Refusal>])
    where
        Self: Sized,
        requires { length results.old ≡ length keys.now }
        ensures does { FetchesEach layout keys.now (caller self.old) results.new (caller self.new) }
        ensures remains { RemainsAfter layout keys.now (caller self.old) (caller self.new) }
    {
        fetch_each(self, keys, results)
    }
}
