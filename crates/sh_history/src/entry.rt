//! Entries of a history.
ghost use Rattle.std.specs.Prelude.{◌≡◌};

use sh_value::Value;

/// One reply of a heap: the pass that got it, the key, and the value if there is one.
#[derive(Drop, Debug, PartialEq, Eq)]
pub enum Entry {
    /// The pass inserted the value, which has this key.
    Insert(u32, u64, Value),
    /// The pass got a hold on the key, which has this value.
    Got(u32, u64, Value),
    /// A get or a remove by the pass returned that the key names no present value.
    Gone(u32, u64),
    /// A get by the pass returned that the key has as many holds as it may have.
    Crowded(u32, u64),
    /// The pass removed the key.
    Removed(u32, u64),
    /// The pass released a hold on the key.
    Released(u32, u64),
    /// The pass looked at the key, which has this value. It got no hold.
    Seen(u32, u64, Value),
}

impl Entry {
    /// The same entry again. It takes no memory.
    pub fn copy(&self) -> Entry
        ensures { result ≡ self.now }
    {
        match self {
            Entry::Insert(pass, key, value) => Entry::Insert(*pass, *key, value.copy()),
            Entry::Got(pass, key, value) => Entry::Got(*pass, *key, value.copy()),
            Entry::Gone(pass, key) => Entry::Gone(*pass, *key),
            Entry::Crowded(pass, key) => Entry::Crowded(*pass, *key),
            Entry::Removed(pass, key) => Entry::Removed(*pass, *key),
            Entry::Released(pass, key) => Entry::Released(*pass, *key),
            Entry::Seen(pass, key, value) => Entry::Seen(*pass, *key, value.copy()),
        }
    }
}
