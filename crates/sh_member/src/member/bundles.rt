// How a member ends in a bundle.
ghost use Rattle.std.specs.Prelude.{◌≡◌};
ghost use Rattle.sh_table.specs.Together.{LeadsTogether};
ghost use Rattle.sh_member.specs.Sides.{EndsInBundle, IsOfHeap, OpensBundle};

use crate::member::{Member, Side};
use sh_key::KeyLayout;
use sh_pass::{Bundle, KeepsHeap};

impl<L: KeyLayout, H: KeepsHeap<L>> Member<L, H> {
    /// A bundle of no passes yet: one load.
    pub fn bundle(&mut self) -> Bundle
        ensures same { self.new ≡ self.old }
        ensures opens { OpensBundle self.old result }
    {
        match &mut self.side {
            Side::Pass(pass) => pass.bundle(),
            Side::Shard(shard) => shard.bundle(),
        }
    }

    /// Ends the member in the bundle: two loads. If it owns a shard, that stays taken.
    pub fn bind(self, bundle: &mut Bundle)
        requires { IsOfHeap self bundle.old.heap }
        ensures binds { EndsInBundle self bundle.old bundle.new }
        ensures leads { LeadsTogether L.layout bundle.new.view }
    {
        let Member { side } = self;
        match side {
            Side::Pass(pass) => pass.bind(bundle),
            Side::Shard(shard) => shard.bind(bundle),
        }
    }
}
