//! The live keys of a shard, one after the other, by its owner.
ghost use Rattle.sh_member.specs.Walks.{NextOwnKeyDoes};
ghost use Rattle.sh_shard.specs.Shards.{StaysOwner};

use crate::member::walking::next_live_by_owner;
use sh_key::KeyLayout;
use sh_pass::{KeepsHeap, NextKey};
use sh_shard::shard::ShardOn;
use sh_value::Value;

/// The first live key of the owner's shard from a place on, or `None`. A shard has 48 places for each page, in the
/// order of its pages, and they begin at 0. It is the walk of `Reader::next_live` over the places of the shard, so it
/// meets the same keys, in as many steps, and needs no room for a hold.
///
/// ```text
/// let mut place = 0;
/// while let Some(next) = next_own_key(&mut shard, place) {
///     place = next.behind;
/// }
/// ```
pub fn next_own_key<L: KeyLayout, H: KeepsHeap<L>>(
    owner: &mut ShardOn<L, H>,
    from: u64,
) -> Option<NextKey>
    ensures does { NextOwnKeyDoes L.layout from owner.old.pages result owner.new.pages }
    ensures stays { StaysOwner L.layout owner.old owner.new }
{
    let first = owner.first_place();
    let places = owner.places();
    let mut value = Value::from(0);
    let NextKey { key, behind } = next_live_by_owner(
        owner,
        first + from.min(places),
        first + places,
        &mut value,
    )?;
    Some(NextKey {
        key,
        behind: behind - first,
    })
}
