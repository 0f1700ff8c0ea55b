//! A pass that owns no shard.
ghost use Rattle.std.specs.Prelude.{◌≡◌, Some};

use crate::home::{Home, HomeReceipt};
use crate::owner::Owner;
use crate::stopped::Stopped;
use sh_core::Accounts;
use sh_gather::{Whole, whole};
use sh_key::KeyLayout;
use sh_member::{NextLive, fetching, taking, walking};
use sh_pass::{Pass, Tells};
use sh_shard::Shard;
use sh_step::Action;
use sh_value::{Hold, Refusal, Value};
use std::alloc::Global;
use std::marker::PhantomData;
use tool_judge::fault::{Fault, Wrong};
use tool_rounds::pass::{LonePass, PageName};
use tool_rounds::user::{Met, User};

/// A pass of the heap that `H` names.
#[derive(Drop)]
pub struct Lone<'a, L: KeyLayout, H: Home> {
    pass: Pass<'a, L>,
    home: PhantomData<H>,
    ghost at_home: { H.heap ≡ Some pass.heap },
}

impl<'a, L: KeyLayout, H: Home> Lone<'a, L, H> {
    /// Wraps a pass of that heap.
    pub fn new(pass: Pass<'a, L>) -> Self
        requires { H.heap ≡ Some pass.heap }
    {
        Lone {
            pass,
            home: PhantomData,
        }
    }

    /// Returns the pass inside.
    pub fn into_pass(self) -> Pass<'a, L>
        ensures { H.heap ≡ Some result.heap }
    {
        let Lone { pass, home: _ } = self;
        pass
    }
}

/// What a walk met, for a round.
pub fn met(next: NextLive) -> Met {
    let NextLive { key, value, behind } = next;
    Met { key, value, behind }
}

impl<L: KeyLayout, H: Home + Send> User for Lone<'_, L, H> {
    type Receipt = HomeReceipt<H>;

    fn get(&mut self, key: u64) -> Result<Hold, Refusal> {
        self.pass.get(key)
    }

    fn guard(&mut self, key: u64, value: &mut Value) -> Result<Hold, Refusal> {
        let guard = self.pass.get_guard(key)?;
        self.pass.read_guard(&guard, value)?;
        Ok(guard.hold())
    }

    fn read(&mut self, hold: Hold) -> Result<Value, Refusal> {
        self.pass.read(hold)
    }

    fn look(&mut self, key: u64) -> Result<Value, Refusal> {
        fetching::fetch(&mut self.pass, key)
    }

    fn with(&mut self, key: u64) -> Result<Value, Refusal> {
        fetching::with(&mut self.pass, key, |value: &Value| value.copy())
    }

    fn take(&mut self, key: u64) -> Result<Value, Refusal> {
        taking::take(&mut self.pass, key)
    }

    fn next_live(&mut self, from: u64) -> Result<Option<Met>, Refusal> {
        Ok(walking::next_live(&mut self.pass, from, u64::MAX).map(met))
    }

    fn remove(&mut self, key: u64) -> Result<(), Refusal> {
        self.pass.remove(key)
    }

    fn release(&mut self, hold: Hold) -> Result<(), Refusal> {
        self.pass.release(hold)
    }

    fn get_ended(&mut self, key: u64, words: &mut Value) -> (Result<Hold, Refusal>, Option<u64>) {
        self.pass.get_ended(key, words)
    }

    fn remove_ended(&mut self, key: u64, words: &mut Value) -> (Result<(), Refusal>, Option<u64>) {
        self.pass.remove_ended(key, words)
    }

    fn release_ended(
        &mut self,
        hold: Hold,
        words: &mut Value,
    ) -> (Result<(), Refusal>, Option<u64>) {
        self.pass.release_ended(hold, words)
    }

    fn receipt(&mut self) -> HomeReceipt<H> {
        HomeReceipt::new(self.pass.receipt())
    }

    fn heed(&mut self, told: HomeReceipt<H>) -> Result<(), Refusal> {
        self.pass.heed(told.into_receipt());
        Ok(())
    }
}

impl<'a, L: KeyLayout + Send, H: Home + Send + Sync> LonePass for Lone<'a, L, H> {
    type Layout = L;

    type Owner = Owner<'a, L, H>;

    type Stopped = Stopped<'a, L, H>;

    type Whole = Whole<'a, L>;

    fn split(key: u64) -> (u32, u64) {
        (0, key)
    }

    fn adopt(self, alloc: Global, shard: u64) -> Result<Owner<'a, L, H>, (Self, Refusal)> {
        match Shard::adopt(alloc, self.into_pass(), shard) {
            Ok(shard) => Ok(Owner::new(shard)),
            Err((pass, refusal)) => Err((Lone::new(pass), refusal)),
        }
    }

    fn insert(owner: &mut Owner<'a, L, H>, value: &Value) -> Result<u64, Refusal> {
        owner.insert(value)
    }

    fn collect(owner: &mut Owner<'a, L, H>) {
        owner.collect();
    }

    fn prepare(owner: &mut Owner<'a, L, H>, class: u32) -> Result<(), Refusal> {
        owner.prepare(class)
    }

    fn leave(owner: Owner<'a, L, H>) -> Result<Self, (Owner<'a, L, H>, Refusal)> {
        owner.leave()
    }

    fn begin(self) -> Result<Stopped<'a, L, H>, Self> {
        Ok(Stopped::new(self.into_pass().begin()))
    }

    fn act(stopped: &mut Stopped<'a, L, H>, action: &Action) -> bool {
        stopped.act(action)
    }

    fn end(stopped: Stopped<'a, L, H>) -> Result<Self, Stopped<'a, L, H>> {
        stopped.end()
    }

    fn join(self, other: Self) -> Self {
        Lone::new(sh_gather::join(self.into_pass(), other.into_pass()))
    }

    fn whole(self) -> Result<Whole<'a, L>, Fault> {
        match whole(self.into_pass()) {
            Ok(whole) => Ok(whole),
            Err(_) => Err(Fault::Wrong(Wrong::Apart)),
        }
    }

    fn accounts(whole: &mut Whole<'a, L>, name: PageName) -> Option<Accounts> {
        whole.accounts(name.shard, name.page)
    }
}
