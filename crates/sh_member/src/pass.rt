// A pass reads.
use crate::reader::Reader;
use sh_key::KeyLayout;
use sh_pass::pass::PassOn;
use sh_pass::{Glance, KeepsHeap, Receipt, heap_places};
use sh_value::{Hold, Refusal, Value};

impl<L: KeyLayout, H: KeepsHeap<L>> Reader for PassOn<L, H> {
    ghost layout = { L.layout };

    ghost caller = { λ p. p };

    fn warm(&self, key: u64) {
        PassOn::warm(self, key);
    }

    fn warm_value(&self, key: u64) {
        PassOn::warm_value(self, key);
    }

    fn glance(&mut self, key: u64, value: &mut Value) -> Result<Glance, Refusal> {
        PassOn::glance(self, key, value)
    }

    fn look_into(&mut self, key: u64, value: &mut Value) -> Result<(), Refusal> {
        PassOn::look_into(self, key, value)
    }

    fn heap_places(&self) -> u64 {
        heap_places(PassOn::shape(self))
    }

    fn peek_at(&mut self, place: u64) -> Option<u64> {
        PassOn::peek_at(self, place)
    }

    fn get(&mut self, key: u64) -> Result<Hold, Refusal> {
        PassOn::get(self, key)
    }

    fn read(&mut self, hold: Hold) -> Result<Value, Refusal> {
        PassOn::read(self, hold)
    }

    fn read_into(&mut self, hold: Hold, value: &mut Value) -> Result<(), Refusal> {
        PassOn::read_into(self, hold, value)
    }

    fn remove(&mut self, key: u64) -> Result<(), Refusal> {
        PassOn::remove(self, key)
    }

    fn release(&mut self, hold: Hold) -> Result<(), Refusal> {
        PassOn::release(self, hold)
    }

    fn receipt(&mut self) -> Receipt {
        PassOn::receipt(self)
    }

    fn heed(&mut self, receipt: Receipt) {
        PassOn::heed(self, receipt);
    }
}
