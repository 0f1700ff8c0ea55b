// A shard reads, by its owner's pass.
use crate::reader::Reader;
use sh_key::KeyLayout;
use sh_pass::{Glance, KeepsHeap, Receipt, heap_places};
use sh_shard::shard::ShardOn;
use sh_value::{Hold, Refusal, Value};

impl<L: KeyLayout, H: KeepsHeap<L>> Reader for ShardOn<L, H> {
    ghost layout = { L.layout };

    ghost caller = { λ s. s.pages.owner };

    fn warm(&self, key: u64) {
        ShardOn::warm(self, key);
    }

    fn warm_value(&self, key: u64) {
        ShardOn::warm_value(self, key);
    }

    fn glance(&mut self, key: u64, value: &mut Value) -> Result<Glance, Refusal> {
        ShardOn::glance(self, key, value)
    }

    fn look_into(&mut self, key: u64, value: &mut Value) -> Result<(), Refusal> {
        ShardOn::look_into(self, key, value)
    }

    fn heap_places(&self) -> u64 {
        heap_places(ShardOn::shape(self))
    }

    fn peek_at(&mut self, place: u64) -> Option<u64> {
        ShardOn::peek_at(self, place)
    }

    fn get(&mut self, key: u64) -> Result<Hold, Refusal> {
        ShardOn::get(self, key)
    }

    fn read(&mut self, hold: Hold) -> Result<Value, Refusal> {
        ShardOn::read(self, hold)
    }

    fn read_into(&mut self, hold: Hold, value: &mut Value) -> Result<(), Refusal> {
        ShardOn::read_into(self, hold, value)
    }

    fn remove(&mut self, key: u64) -> Result<(), Refusal> {
        ShardOn::remove(self, key)
    }

    fn release(&mut self, hold: Hold) -> Result<(), Refusal> {
        ShardOn::release(self, hold)
    }

    fn receipt(&mut self) -> Receipt {
        ShardOn::receipt(self)
    }

    fn heed(&mut self, receipt: Receipt) {
        ShardOn::heed(self, receipt);
    }
}
