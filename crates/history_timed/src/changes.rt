//! The calls that inserted a key or removed it. Of most keys there are two.
ghost use Rattle.std.specs.Prelude.{◌≡◌, ◌++◌, ◌∷◌, [], ℕ, IfOk, OnOk};
ghost use Rattle.history_timed.specs.Indexes.{changes_of, changes_in};

use crate::call::Call;
use std::alloc::{AllocError, Global};
use std::collections::HashMap;

/// The calls that inserted a key or removed it, by key.
#[derive(Drop)]
pub struct Changes {
    by_key: HashMap<u64, Vec<Call>>,
}

impl Changes {
    /// Those of these calls, in their order. Refused if memory is.
    pub fn new(alloc: Global, calls: &[Call]) -> Result<Changes, AllocError>
        ensures { IfOk result (λ changes. (key : ℕ) → changes_in changes key ≡ changes_of key calls.now) }
    {
        let mut changes = Changes {
            by_key: HashMap::new(alloc),
        };
        for call in calls {
            changes.take_in(alloc, call)?;
        }
        Ok(changes)
    }

    // Takes in a call, if it inserted its key or removed it. If memory is refused, those of its key may be lost.
    fn take_in(&mut self, alloc: Global, call: &Call) -> Result<(), AllocError>
        ensures { OnOk result ((key : ℕ) → changes_in self.new key
            ≡ changes_in self.old key ++ changes_of key (call.now ∷ [])) }
    {
        let key = call.said.key();
        if !call.said.changes(key) {
            return Ok(());
        }
        let mut calls = self.by_key.remove(&key).unwrap_or(Vec::new(alloc));
        calls.push(call.copy())?;
        self.by_key.insert(key, calls)?;
        Ok(())
    }

    /// Those of a key, in the order of the calls.
    pub fn of(&self, key: u64) -> &[Call]
        ensures { result.now ≡ changes_in self.now key }
    {
        match self.by_key.get(&key) {
            Some(calls) => calls.as_slice(),
            None => &[],
        }
    }
}
