// The shape of a member's heap, and what holds of a member between its calls.
ghost use Rattle.sh_member.specs.Sides.{HasShape, SideIsValid};

use crate::member::{Member, Side};
use sh_key::KeyLayout;
use sh_pass::KeepsHeap;
use sh_shape::Shape;

impl<L: KeyLayout, H: KeepsHeap<L>> Member<L, H> {
    /// The shape of the heap. Between its calls a member has begun nothing, and all that it knows holds. If it is a
    /// pass, it owns no shard; if it is an owner, the shard is its own.
    pub fn shape(&self) -> &Shape
        ensures is { HasShape self.now result.now }
        ensures stands { SideIsValid L.layout self.now }
    {
        match &self.side {
            Side::Pass(pass) => pass.shape(),
            Side::Shard(shard) => shard.shape(),
        }
    }
}
