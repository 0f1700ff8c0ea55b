// How a member takes the value of a key.
ghost use Rattle.sh_member.specs.Readers.{TakeIntoDoes};
ghost use Rattle.sh_member.specs.Sides.{SideDoes};
ghost use Rattle.sh_shard.specs.Shards.{StaysOwner};

use crate::member::{Member, Side};
use crate::reader::Reader;
use sh_key::KeyLayout;
use sh_pass::KeepsHeap;
use sh_shard::shard::ShardOn;
use sh_value::{Refusal, Value};

// The same by the owner of a shard, which stays the owner.
fn take_by_owner<L: KeyLayout, H: KeepsHeap<L>>(
    owner: &mut ShardOn<L, H>,
    key: u64,
    most: usize,
    value: &mut Value,
) -> Result<(), Refusal>
    ensures does { TakeIntoDoes L.layout key most owner.old.pages.owner result value.new owner.new.pages.owner }
    ensures stays { StaysOwner L.layout owner.old owner.new }
{
    // (that the shard is the owner's is known before and after)
    let _known = owner.shape();
    let answer = owner.take_into(key, most, value);
    let _known = owner.shape();
    answer
}

impl<L: KeyLayout, H: KeepsHeap<L>> Member<L, H> {
    /// The value of a key, which this call removes: a get, a read, a removal and a release in one. It goes into a value
    /// of the caller's. A value of more than `most` words goes there too, but its key is not removed.
    ///
    /// Refused as a get is, and as `Gone` if another thread removed the key after the get. Of all calls that remove one
    /// key, one alone succeeds. It leaves the holds as they were.
    pub fn take_into(&mut self, key: u64, most: usize, value: &mut Value) -> Result<(), Refusal>
        ensures { SideDoes L.layout (λ v answer w. TakeIntoDoes L.layout key most v answer value.new w) self.old result
            self.new }
    {
        match &mut self.side {
            Side::Pass(pass) => pass.take_into(key, most, value),
            Side::Shard(shard) => take_by_owner(shard, key, most, value),
        }
    }
}
