// A member reads, as the pass or the shard that it is.
use crate::member::{Member, Side};
use crate::reader::Reader;
use sh_key::KeyLayout;
use sh_pass::{Glance, KeepsHeap, Receipt, heap_places};
use sh_value::{Hold, Refusal, Value};

impl<L: KeyLayout, H: KeepsHeap<L>> Reader for Member<L, H> {
    ghost use Rattle.sh_member.specs.Sides.{caller_by};

    ghost layout = { L.layout };

    ghost caller = { caller_by };

    fn warm(&self, key: u64) {
        match &self.side {
            Side::Pass(pass) => pass.warm(key),
            Side::Shard(shard) => shard.warm(key),
        }
    }

    fn warm_value(&self, key: u64) {
        Member::warm_value(self, key);
    }

    fn glance(&mut self, key: u64, value: &mut Value) -> Result<Glance, Refusal> {
        match &mut self.side {
            Side::Pass(pass) => pass.glance(key, value),
            Side::Shard(shard) => shard.glance(key, value),
        }
    }

    fn look_into(&mut self, key: u64, value: &mut Value) -> Result<(), Refusal> {
        Member::look_into(self, key, value)
    }

    fn heap_places(&self) -> u64 {
        heap_places(Member::shape(self))
    }

    fn peek_at(&mut self, place: u64) -> Option<u64> {
        match &mut self.side {
            Side::Pass(pass) => pass.peek_at(place),
            Side::Shard(shard) => shard.peek_at(place),
        }
    }

    fn get(&mut self, key: u64) -> Result<Hold, Refusal> {
        Member::get(self, key)
    }

    fn read(&mut self, hold: Hold) -> Result<Value, Refusal> {
        Member::read(self, hold)
    }

    fn read_into(&mut self, hold: Hold, value: &mut Value) -> Result<(), Refusal> {
        Member::read_into(self, hold, value)
    }

    fn remove(&mut self, key: u64) -> Result<(), Refusal> {
        Member::remove(self, key)
    }

    fn release(&mut self, hold: Hold) -> Result<(), Refusal> {
        Member::release(self, hold)
    }

    fn receipt(&mut self) -> Receipt {
        match &mut self.side {
            Side::Pass(pass) => pass.receipt(),
            Side::Shard(shard) => shard.receipt(),
        }
    }

    fn heed(&mut self, receipt: Receipt) {
        match &mut self.side {
            Side::Pass(pass) => pass.heed(receipt),
            Side::Shard(shard) => shard.heed(receipt),
        }
    }
}
