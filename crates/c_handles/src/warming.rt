// Keys are warmed in a heap of any layout. In one that grows nothing is loaded.
use crate::held_pass::HeldPass;

impl HeldPass {
    /// Loads the words that a read of a key's value needs, so that their memory is on its way when a call of this key
    /// needs it. It takes no step, and a number that is no key of the heap does nothing.
    pub fn warm_value(&self, key: u64) {
        match self {
            HeldPass::Wide(member, _) => member.warm_value(key),
            HeldPass::Tagged(member, _) => member.warm_value(key),
            HeldPass::Deep(member, _) => member.warm_value(key),
            HeldPass::Tiny(member, _) => member.warm_value(key),
            HeldPass::Growing(_) => {}
        }
    }
}
