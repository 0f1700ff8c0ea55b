// How a member walks over the live keys of its heap.
ghost use Rattle.sh_pass.specs.Passes.{RemoveDoes};
ghost use Rattle.sh_member.specs.Removing.{RemovesIf, SaysOf, walk_end};
ghost use Rattle.sh_member.specs.Sides.{SideDoes};
ghost use Rattle.sh_member.specs.Walks.{NextHeldDoes, NextLiveDoes, PutsLive};
ghost use Rattle.sh_shard.specs.Shards.{StaysOwner};

use crate::member::{Member, Side};
use crate::reader::Reader;
use crate::walking::{NextHeld, NextLive};
use sh_key::KeyLayout;
use sh_pass::{KeepsHeap, NextKey};
use sh_shard::shard::ShardOn;
use sh_value::{Refusal, Value};

// The same by the owner of a shard, which stays the owner.
pub(crate) fn next_live_by_owner<L: KeyLayout, H: KeepsHeap<L>>(
    owner: &mut ShardOn<L, H>,
    from: u64,
    before: u64,
    value: &mut Value,
) -> Option<NextKey>
    ensures does { PutsLive (λ met. NextLiveDoes L.layout from before owner.old.pages.owner met owner.new.pages.owner)
        value.old result value.new }
    ensures stays { StaysOwner L.layout owner.old owner.new }
{
    // (that the shard is the owner's is known before and after)
    let _known = owner.shape();
    let next = owner.next_live_into(from, before, value);
    let _known = owner.shape();
    next
}

fn next_held_by_owner<L: KeyLayout, H: KeepsHeap<L>>(
    owner: &mut ShardOn<L, H>,
    from: u64,
    before: u64,
) -> Result<Option<NextHeld>, Refusal>
    ensures does { NextHeldDoes L.layout from before owner.old.pages.owner result owner.new.pages.owner }
    ensures stays { StaysOwner L.layout owner.old owner.new }
{
    let _known = owner.shape();
    let next = owner.next_held(from, before);
    let _known = owner.shape();
    next
}

fn remove_if_by_owner<L: KeyLayout, H: KeepsHeap<L>, F: Fn(u64, &Value) -> bool>(
    owner: &mut ShardOn<L, H>,
    predicate: F,
) -> u64
where
    F: Drop,
    requires { F.IsAlwaysCallable predicate }
    ensures does { RemovesIf (SaysOf F.Fn predicate) (λ from. NextLiveDoes L.layout from walk_end) (RemoveDoes L.layout)
        owner.old.pages.owner result owner.new.pages.owner }
    ensures stays { StaysOwner L.layout owner.old owner.new }
{
    let _known = owner.shape();
    let count = owner.remove_if(predicate);
    let _known = owner.shape();
    count
}

impl<L: KeyLayout, H: KeepsHeap<L>> Member<L, H> {
    /// The first live key of the heap at a place from `from` on and before `before`, as a reader finds it. Its value
    /// replaces the caller's, which is as it was if there is no key. It leaves the holds as they were.
    pub fn next_live_into(&mut self, from: u64, before: u64, value: &mut Value) -> Option<NextKey>
        ensures { PutsLive (λ met. SideDoes L.layout (NextLiveDoes L.layout from before) self.old met self.new)
            value.old result value.new }
    {
        match &mut self.side {
            Side::Pass(pass) => pass.next_live_into(from, before, value),
            Side::Shard(shard) => next_live_by_owner(shard, from, before, value),
        }
    }

    /// The same with the value of the key.
    pub fn next_live(&mut self, from: u64, before: u64) -> Option<NextLive>
        ensures { SideDoes L.layout (NextLiveDoes L.layout from before) self.old result self.new }
    {
        let mut value = Value::from(0);
        let NextKey { key, behind } = self.next_live_into(from, before, &mut value)?;
        Some(NextLive { key, value, behind })
    }

    /// The same with a hold on the key. Refused as `HoldsFull` if a key is met and it has 16 holds.
    pub fn next_held(&mut self, from: u64, before: u64) -> Result<Option<NextHeld>, Refusal>
        ensures { SideDoes L.layout (NextHeldDoes L.layout from before) self.old result self.new }
    {
        match &mut self.side {
            Side::Pass(pass) => pass.next_held(from, before),
            Side::Shard(shard) => next_held_by_owner(shard, from, before),
        }
    }

    /// Removes each key of which the predicate is true, as the walk over all places meets them. Returns how many keys
    /// this call removed.
    pub fn remove_if<F: Fn(u64, &Value) -> bool>(&mut self, predicate: F) -> u64
    where
        F: Drop,
        requires { F.IsAlwaysCallable predicate }
        ensures { SideDoes L.layout (RemovesIf (SaysOf F.Fn predicate) (λ from. NextLiveDoes L.layout from walk_end)
            (RemoveDoes L.layout)) self.old result self.new }
    {
        match &mut self.side {
            Side::Pass(pass) => pass.remove_if(predicate),
            Side::Shard(shard) => remove_if_by_owner(shard, predicate),
        }
    }
}
