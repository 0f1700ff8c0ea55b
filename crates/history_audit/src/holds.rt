//! How many holds each pass has on each key.
ghost use Rattle.std.specs.Prelude.{◌≡◌, ◌+◌, ◌-◌, ℕ, OnOk, OnErr};

use std::alloc::{AllocError, Global};
use std::collections::HashMap;

/// The holds, by pass and key. A pass without a hold on a key has no place here.
#[derive(Drop)]
pub struct Holds {
    counts: HashMap<(u32, u64), u64>,
}

impl Holds {
    ghost use Rattle.history_audit.specs.Held.{held, one_at};

    /// No holds.
    pub fn new(alloc: Global) -> Holds
        ensures { (p k : ℕ) → held result p k ≡ 0 }
    {
        Holds {
            counts: HashMap::new(alloc),
        }
    }

    /// How many holds the pass has on the key.
    pub fn count(&self, pass: u32, key: u64) -> u64
        ensures { result ≡ held self.now pass key }
    {
        self.counts.get(&(pass, key)).copied().unwrap_or(0)
    }

    /// One hold more. Refused if memory is, or after 2^64 - 1 of them, and then nothing changes.
    pub fn add(&mut self, pass: u32, key: u64) -> Result<(), AllocError>
        ensures ok { OnOk result ((p k : ℕ) → held self.new p k ≡ held self.old p k + one_at pass key p k) }
        ensures err { OnErr result ((p k : ℕ) → held self.new p k ≡ held self.old p k) }
    {
        let Some(count) = self.count(pass, key).checked_add(1) else {
            return Err(AllocError);
        };
        self.counts.insert((pass, key), count)?;
        Ok(())
    }

    /// One hold less, of a pass that has one.
    pub fn take(&mut self, pass: u32, key: u64)
        ensures { (p k : ℕ) → held self.new p k ≡ held self.old p k - one_at pass key p k }
    {
        let count = self.count(pass, key);
        if count > 1 {
            if let Some(place) = self.counts.get_mut(&(pass, key)) {
                *place = count - 1;
            }
        } else {
            let _ = self.counts.remove(&(pass, key));
        }
    }
}
