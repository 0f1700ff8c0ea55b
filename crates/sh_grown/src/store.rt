// A caller is a store, which has no book.
use crate::caller::Caller;
use sh_plain::{Lookup, Store};
use sh_value::{Hold, Refusal, Value};

impl Lookup for Caller {
    ghost use Rattle.std.specs.Prelude.{[], None};
    ghost use Rattle.sh_grown.specs.Lending.{caller_lends};
    ghost use Rattle.sh_grown.specs.Removing.{CallerRemoves};
    ghost use Rattle.sh_grown.specs.Stores.{CallerGets, CallerLooks, CallerReads, CallerReleases};

    ghost book = { λ _. [] };

    ghost setting = { λ _. None };

    ghost lends = { caller_lends };

    ghost gets = { λ old key result new. CallerGets key old result new };

    ghost reads = { λ old key result new. CallerReads key old result new };

    ghost looks = { λ old key result new. CallerLooks key old result new };

    ghost removes = { λ old key result new. CallerRemoves key old result new };

    ghost releases = { λ old key result new. CallerReleases key old result new };

    fn get(&mut self, key: u64) -> Result<Hold, Refusal> {
        Caller::get(self, key)
    }

    fn read(&mut self, hold: Hold) -> Result<Value, Refusal> {
        Caller::read(self, hold)
    }

    fn look(&mut self, key: u64) -> Result<Value, Refusal> {
        Caller::look(self, key)
    }

    fn remove(&mut self, key: u64) -> Result<(), Refusal> {
        Caller::remove(self, key)
    }

    fn release(&mut self, hold: Hold) -> Result<(), Refusal> {
        Caller::release(self, hold)
    }
}

impl Store for Caller {
    ghost use Rattle.sh_grown.specs.Stores.{CallerInserts};

    ghost inserts = { λ old value result new. CallerInserts value old result new };

    // (It takes memory where the room for its members came from.)
    fn insert(&mut self, value: &Value) -> Result<u64, Refusal> {
        let alloc = *self.met.allocator();
        Caller::insert(self, alloc, value)
    }
}
