//! What is noted of a key.
ghost use Rattle.std.specs.Prelude.{◌≡◌, ◌+◌, ◌-◌, ◌<◌, ◌↔◌, None, IsTrue};

use sh_value::Value;

/// What is noted of a key that was inserted.
#[derive(Drop, Debug)]
pub struct Note {
    /// The value that it was inserted with.
    pub value: Value,
    /// The line of that insert.
    pub inserted: u64,
    /// The line of the first removal, if there is one.
    pub removed: Option<u64>,
    /// How often it was got.
    pub got: u64,
    /// How often it was released.
    pub released: u64,
}

impl Note {
    /// The note of a key that is inserted now.
    pub fn new(line: u64, value: &Value) -> Note
        ensures { result ≡ record { value = value.now; inserted = line; removed = None; got = 0; released = 0 } }
    {
        Note {
            value: value.copy(),
            inserted: line,
            removed: None,
            got: 0,
            released: 0,
        }
    }

    /// Whether this many passes, each on its way, could bring the holds on the key above the greatest count.
    pub fn is_crowded(&self, passes: u32, guard_max: u32) -> bool
        ensures { IsTrue result ↔ (guard_max < (self.now.got - self.now.released) + passes) }
    {
        self.got.saturating_sub(self.released) as u128 + passes as u128 > guard_max as u128
    }
}
