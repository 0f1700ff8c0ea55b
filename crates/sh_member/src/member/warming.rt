// A member warms keys.
use crate::member::{Member, Side};
use sh_key::KeyLayout;
use sh_pass::KeepsHeap;

impl<L: KeyLayout, H: KeepsHeap<L>> Member<L, H> {
    /// Loads the words that a read of a key's value needs, so that their memory is on its way when a call of this key
    /// needs it. It takes no step, and a number that is no key of the heap does nothing.
    pub fn warm_value(&self, key: u64) {
        match &self.side {
            Side::Pass(pass) => pass.warm_value(key),
            Side::Shard(shard) => shard.warm_value(key),
        }
    }
}
