// A shard is a store.
use crate::shard::ShardOn;
use sh_key::KeyLayout;
use sh_pass::KeepsHeap;
use sh_plain::{Lookup, Store};
use sh_value::{Hold, Refusal, Value};

impl<L: KeyLayout, H: KeepsHeap<L>> Lookup for ShardOn<L, H> {
    ghost use Rattle.std.specs.Prelude.{Some};
    ghost use Rattle.sh_pass.specs.Passes.{GetDoes, ReadDoes, RemoveDoes, ReleaseDoes};
    ghost use Rattle.sh_pass.specs.Fetching.{FetchDoes};
    ghost use Rattle.sh_shard.specs.Stores.{shard_book, shard_setting};

    ghost book = { shard_book };

    ghost setting = { λ shard. Some (shard_setting L.layout shard) };

    ghost lends = { λ _. tt };

    ghost gets = { λ old key result new. GetDoes L.layout key old.pages.owner result new.pages.owner };

    ghost reads = { λ old key result new. ReadDoes key old.pages.owner result new.pages.owner };

    ghost looks = { λ old key result new. FetchDoes L.layout key old.pages.owner result new.pages.owner };

    ghost removes = { λ old key result new. RemoveDoes L.layout key old.pages.owner result new.pages.owner };

    ghost releases = { λ old key result new. ReleaseDoes L.layout key old.pages.owner result new.pages.owner };

    fn get(&mut self, key: u64) -> Result<Hold, Refusal> {
        ShardOn::get(self, key)
    }

    fn read(&mut self, hold: Hold) -> Result<Value, Refusal> {
        ShardOn::read(self, hold)
    }

    fn look(&mut self, key: u64) -> Result<Value, Refusal> {
        ShardOn::look(self, key)
    }

    fn remove(&mut self, key: u64) -> Result<(), Refusal> {
        ShardOn::remove(self, key)
    }

    fn release(&mut self, hold: Hold) -> Result<(), Refusal> {
        ShardOn::release(self, hold)
    }
}

impl<L: KeyLayout, H: KeepsHeap<L>> Store for ShardOn<L, H> {
    ghost use Rattle.sh_shard.specs.Shards.{InsertServes, value_class};

    ghost inserts = { λ old value result new. InsertServes L.layout (value_class value) value old result new };

    fn insert(&mut self, value: &Value) -> Result<u64, Refusal> {
        ShardOn::insert(self, value)
    }
}
