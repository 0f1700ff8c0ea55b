//! Members of the running heap: what a script's calls are made on.
ghost use Rattle.std.specs.Prelude.{◌≡◌, None};
ghost use Rattle.script_calls.specs.Running.{seen_of_caller, seen_of_member};

use crate::side::Side;
use sh_key::KeyLayout;
use sh_member::Member;
use sh_pass::pass::PassOn;
use sh_pass::{Bundle, KeepsHeap, Receipt};
use sh_value::{Hold, Refusal, Value};
use std::alloc::Global;

impl<L: KeyLayout, H: KeepsHeap<L>> Side for Member<L, H> {
    ghost seen = { λ m. seen_of_member L.layout m };

    fn adopt(&mut self, alloc: Global, shard: u64) -> Result<(), Refusal> {
        Member::adopt(self, alloc, shard)
    }

    fn leave(&mut self) -> Result<(), Refusal> {
        Member::leave(self)
    }

    fn insert(&mut self, value: &Value) -> Result<u64, Refusal> {
        Member::insert(self, value)
    }

    fn get(&mut self, key: u64) -> Result<Hold, Refusal> {
        Member::get(self, key)
    }

    fn read(&mut self, hold: Hold) -> Result<Value, Refusal> {
        Member::read(self, hold)
    }

    fn remove(&mut self, key: u64) -> Result<(), Refusal> {
        Member::remove(self, key)
    }

    fn release(&mut self, hold: Hold) -> Result<(), Refusal> {
        Member::release(self, hold)
    }

    fn receipt(&mut self) -> Receipt {
        Member::receipt(self)
    }

    fn heed(&mut self, receipt: Receipt) {
        Member::heed(self, receipt);
    }

    fn join(self, other: Self) -> Self {
        Member::join(self, other)
    }

    fn bundle(&mut self) -> Bundle {
        Member::bundle(self)
    }

    fn bind(self, bundle: &mut Bundle) {
        Member::bind(self, bundle);
    }

    fn whole(&self) {
        // (the contract of `shape` states what is known)
        let _known = self.shape();
    }
}

/// The pass of a member that owns no shard.
pub fn pass_of<L: KeyLayout, H: KeepsHeap<L>>(member: Member<L, H>) -> PassOn<L, H>
    requires { (seen_of_member L.layout member).part.shard ≡ None }
    ensures { seen_of_caller L.layout result ≡ seen_of_member L.layout member }
{
    match member.into_pass() {
        Ok(pass) => pass,
        Err(_) => unreachable!(),
    }
}
