//! A pass that owns a shard.
ghost use Rattle.std.specs.Prelude.{◌≡◌, ◌<◌, Some};

use crate::home::{Home, HomeReceipt};
use crate::lone::{Lone, met};
use sh_key::KeyLayout;
use sh_member::{fetching, taking, walking};
use sh_shard::Shard;
use sh_value::{Hold, Refusal, Value};
use std::marker::PhantomData;
use tool_rounds::user::{Met, User};

/// A shard of the heap that `H` names.
#[derive(Drop)]
pub struct Owner<'a, L: KeyLayout, H: Home> {
    shard: Shard<'a, L>,
    home: PhantomData<H>,
    ghost at_home: { H.heap ≡ Some shard.pages.owner.heap },
}

impl<'a, L: KeyLayout, H: Home> Owner<'a, L, H> {
    /// Wraps a shard of that heap.
    pub fn new(shard: Shard<'a, L>) -> Self
        requires { H.heap ≡ Some shard.pages.owner.heap }
    {
        Owner {
            shard,
            home: PhantomData,
        }
    }

    /// Stores a value in the shard.
    pub fn insert(&mut self, value: &Value) -> Result<u64, Refusal> {
        self.shard.insert(value)
    }

    /// Collects what others freed in the shard.
    pub fn collect(&mut self) {
        self.shard.collect();
    }

    /// Gives a page of the shard to values of this class.
    pub fn prepare(&mut self, class: u32) -> Result<(), Refusal>
        requires { class < 8 }
    {
        let _page = self.shard.prepare(class)?;
        Ok(())
    }

    /// Leaves the shard.
    pub fn leave(self) -> Result<Lone<'a, L, H>, (Self, Refusal)> {
        let Owner { shard, home: _ } = self;
        match shard.leave() {
            Ok(pass) => Ok(Lone::new(pass)),
            Err((shard, refusal)) => Err((Owner::new(shard), refusal)),
        }
    }
}

impl<L: KeyLayout, H: Home + Send> User for Owner<'_, L, H> {
    type Receipt = HomeReceipt<H>;

    fn get(&mut self, key: u64) -> Result<Hold, Refusal> {
        self.shard.get(key)
    }

    fn guard(&mut self, key: u64, value: &mut Value) -> Result<Hold, Refusal> {
        let guard = self.shard.get_guard(key)?;
        self.shard.read_guard(&guard, value)?;
        Ok(guard.hold())
    }

    fn read(&mut self, hold: Hold) -> Result<Value, Refusal> {
        self.shard.read(hold)
    }

    fn look(&mut self, key: u64) -> Result<Value, Refusal> {
        fetching::fetch(&mut self.shard, key)
    }

    fn with(&mut self, key: u64) -> Result<Value, Refusal> {
        fetching::with(&mut self.shard, key, |value: &Value| value.copy())
    }

    fn take(&mut self, key: u64) -> Result<Value, Refusal> {
        taking::take(&mut self.shard, key)
    }

    fn next_live(&mut self, from: u64) -> Result<Option<Met>, Refusal> {
        Ok(walking::next_live(&mut self.shard, from, u64::MAX).map(met))
    }

    fn remove(&mut self, key: u64) -> Result<(), Refusal> {
        self.shard.remove(key)
    }

    fn release(&mut self, hold: Hold) -> Result<(), Refusal> {
        self.shard.release(hold)
    }

    fn get_ended(&mut self, key: u64, words: &mut Value) -> (Result<Hold, Refusal>, Option<u64>) {
        self.shard.get_ended(key, words)
    }

    fn remove_ended(&mut self, key: u64, words: &mut Value) -> (Result<(), Refusal>, Option<u64>) {
        self.shard.remove_ended(key, words)
    }

    fn release_ended(
        &mut self,
        hold: Hold,
        words: &mut Value,
    ) -> (Result<(), Refusal>, Option<u64>) {
        self.shard.release_ended(hold, words)
    }

    fn receipt(&mut self) -> HomeReceipt<H> {
        HomeReceipt::new(self.shard.receipt())
    }

    fn heed(&mut self, told: HomeReceipt<H>) -> Result<(), Refusal> {
        self.shard.heed(told.into_receipt());
        Ok(())
    }
}
