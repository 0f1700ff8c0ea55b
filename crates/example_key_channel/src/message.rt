//! Messages: keys that go to another thread, each with a receipt of its insert.
ghost use Rattle.std.specs.Prelude.{◌≡◌, Some, IfOk};
ghost use Rattle.gearlongan.specs.Receipts.{CoversInsert, IsAsInserted, GoneIfRemoved, heeded, key_told};
ghost use Rattle.gearlongan.specs.Passes.{FetchDoes, InsertServes, value_class};

use gearlongan::{KeyLayout, Pass, Refusal, Shard, ToldKey, Value, fetch_told, insert_told};
use std::marker::{Brand, Model, PhantomData};

/// Names the heap of all messages of a channel. Each run chooses it, so a receiver need not check it.
pub trait Room {
    ghost use Rattle.std.specs.Prelude.{Option};
    ghost use Rattle.gearlongan.specs.Passes.{Heap};

    ghost heap: { Option Heap };
}

impl Room for Brand {
    ghost use Rattle.std.specs.Prelude.{None};

    ghost heap = { None };
}

/// A key, with a receipt that covers its insert. A contract sees both.
#[derive(Drop)]
pub struct Message<B: Room> {
    told: ToldKey,
    room: PhantomData<B>,
}

impl<B: Room> Model for Message<B> {
    ghost use Rattle.std.specs.Prelude.{◌≡◌, Some};
    ghost use Rattle.gearlongan.specs.Receipts.{TellsOfInsert, ToldKey};

    ghost Value = { ToldKey };

    ghost view = { λ m. m.told };

    ghost invariant = { λ m. (Some m.told.receipt.heap ≡ B.heap) × TellsOfInsert m.told.key m.told.receipt };
}

impl<B: Room> Message<B> {
    /// Stores a value, and returns the message with its key and a receipt of its insert. Refused as an insert is.
    pub fn store<L: KeyLayout>(owner: &mut Shard<'_, L>, value: &Value) -> Result<Self, Refusal>
        requires { Some owner.old.pages.owner.heap ≡ B.heap }
        ensures serves { InsertServes L.layout (value_class value.now) value.now owner.old (key_told result)
            owner.new }
        ensures value { IfOk result (λ message. CoversInsert message.key value.now message.receipt) }
        ensures heap { owner.new.pages.owner.heap ≡ owner.old.pages.owner.heap }
    {
        let told = insert_told(owner, value)?;
        Ok(Message {
            told,
            room: PhantomData,
        })
    }

    /// The key of the message.
    pub fn key(&self) -> u64
        ensures { result ≡ self.now.key }
    {
        self.told.key
    }

    /// Fetches the value that was stored. The key is `Gone` only if a call removed it. Refused as a fetch is.
    pub fn fetch<L: KeyLayout>(self, pass: &mut Pass<'_, L>) -> Result<Value, Refusal>
        requires { Some pass.old.heap ≡ B.heap }
        ensures does { FetchDoes L.layout self.key (heeded pass.old self.receipt) result pass.new }
        ensures value { IfOk result (λ value. IsAsInserted self.key value self.receipt) }
        ensures gone { GoneIfRemoved L.layout self.key result pass.new }
        ensures heap { pass.new.heap ≡ pass.old.heap }
    {
        let Message { told, room: _ } = self;
        fetch_told(pass, told)
    }
}
