// How two members that own no shard become one.
ghost use Rattle.sh_member.specs.Sides.{MayJoin, SideJoins};

use crate::member::{Member, Side};
use sh_key::KeyLayout;
use sh_pass::{KeepsHeap, merge};

impl<L: KeyLayout, H: KeepsHeap<L>> Member<L, H> {
    /// The first member, which now carries both tales. Neither owns a shard. The holds of the second stay for good.
    pub fn join(self, other: Self) -> Self
        requires { MayJoin self other }
        ensures { SideJoins L.layout self other result }
    {
        match (self.side, other.side) {
            (Side::Pass(one), Side::Pass(two)) => Member {
                side: Side::Pass(merge(one, two)),
            },
            _ => unreachable!(),
        }
    }
}
