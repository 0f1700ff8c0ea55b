// The calls of a member by a hold that keeps the place of its key's slot.
ghost use Rattle.std.specs.Prelude.{◌≡◌, IfOk};
ghost use Rattle.sh_pass.specs.Passes.{GetDoes, ReadIntoDoes, ReleaseDoes};
ghost use Rattle.sh_member.specs.Sides.{SideDoes};

use crate::member::{Member, Side};
use sh_key::KeyLayout;
use sh_pass::{Guard, KeepsHeap};
use sh_value::{Refusal, Value};

impl<L: KeyLayout, H: KeepsHeap<L>> Member<L, H> {
    /// The same as `get`, but the hold keeps the place of the key's slot, for `read_guard` and `release_guard`.
    pub fn get_guard(&mut self, key: u64) -> Result<Guard<L>, Refusal>
        ensures does { SideDoes L.layout (GetDoes L.layout key) self.old result self.new }
        ensures hold { IfOk result (λ guard. guard.key ≡ key) }
    {
        match &mut self.side {
            Side::Pass(pass) => pass.get_guard(key),
            Side::Shard(shard) => shard.get_guard(key),
        }
    }

    /// The same as `read_into`, by a hold that keeps its place.
    pub fn read_guard(&mut self, guard: &Guard<L>, value: &mut Value) -> Result<(), Refusal>
        ensures { SideDoes L.layout (λ v answer w. ReadIntoDoes guard.now.key v value.old answer value.new w) self.old
            result self.new }
    {
        match &mut self.side {
            Side::Pass(pass) => pass.read_guard(guard, value),
            Side::Shard(shard) => shard.read_guard(guard, value),
        }
    }

    /// The same as `release`, of a hold that keeps its place.
    pub fn release_guard(&mut self, guard: Guard<L>) -> Result<(), Refusal>
        ensures { SideDoes L.layout (ReleaseDoes L.layout guard.key) self.old result self.new }
    {
        match &mut self.side {
            Side::Pass(pass) => pass.release_guard(guard),
            Side::Shard(shard) => shard.release_guard(guard),
        }
    }
}
