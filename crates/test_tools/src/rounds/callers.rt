//! Callers of a heap that grows from one chunk to two, each a model, which they lock for each call.
use crate::rounds::defect::Defect;
use crate::rounds::model::Model;
use sh_core::Accounts;
use sh_key::Tiny;
use sh_step::Action;
use sh_value::{Hold, Refusal, Value};
use std::alloc::Global;
use std::sync::{Mutex, Wait};
use tool_judge::fault::Fault;
use tool_rounds::pass::{LonePass, PageName};
use tool_rounds::user::{Met, User};

// What is added to a key of the second chunk: more than any key of the layout.
const SECOND: u64 = 1 << 40;

// The key that the chunk of `key` tells, with its chunk.
fn key_beside(key: u64, within: u64, told: Option<u64>) -> Option<u64> {
    Some(told?.wrapping_add(key.wrapping_sub(within)))
}

// A chunk, and whether the caller owns its shard.
#[derive(Drop)]
struct Chunk<'a, R: Wait> {
    rt: &'a R,
    model: &'a Mutex<Model>,
    is_owned: bool,
}

impl<R: Wait> Chunk<'_, R> {
    // Stores a value, in a shard that it adopts if it does not own it yet.
    fn insert(&mut self, value: &Value) -> Result<u64, Refusal> {
        let mut model = self.model.lock(self.rt);
        if !self.is_owned {
            model.adopt(0)?;
            self.is_owned = true;
        }
        model.insert(value)
    }

    // Leaves the shard, if it owns it.
    fn leave(&mut self) -> Result<(), Refusal> {
        if self.is_owned {
            self.model.lock(self.rt).leave()?;
            self.is_owned = false;
        }
        Ok(())
    }
}

/// A caller, whether it owns shards or not.
#[derive(Drop)]
pub struct ModelCaller<'a, R: Wait> {
    first: Chunk<'a, R>,
    second: Chunk<'a, R>,
    defect: Defect,
}

impl<'a, R: Wait> ModelCaller<'a, R> {
    /// A caller of the heap with these two chunks.
    pub fn new(
        rt: &'a R,
        first: &'a Mutex<Model>,
        second: &'a Mutex<Model>,
        defect: Defect,
    ) -> Self {
        let is_owned = false;
        ModelCaller {
            first: Chunk {
                rt,
                model: first,
                is_owned,
            },
            second: Chunk {
                rt,
                model: second,
                is_owned,
            },
            defect,
        }
    }

    // The chunk of a key, and the key in it.
    fn chunk_of(&self, key: u64) -> (&Chunk<'a, R>, u64) {
        if key < SECOND {
            (&self.first, key)
        } else {
            (&self.second, key.wrapping_sub(SECOND))
        }
    }

    // The key of a value that was stored in the second chunk.
    fn second_key(&self, key: u64) -> u64 {
        if self.defect == Defect::KeyOfNoChunk {
            key
        } else {
            key.wrapping_add(SECOND)
        }
    }

    // Stores a value in the first chunk that has room.
    fn insert(&mut self, value: &Value) -> Result<u64, Refusal> {
        let found = self.first.insert(value);
        if found.is_ok() {
            return found;
        }
        match self.second.insert(value) {
            Ok(key) => Ok(self.second_key(key)),
            Err(_) => Err(Refusal::Full),
        }
    }
}

impl<R: Wait> User for ModelCaller<'_, R> {
    type Receipt = u64;

    fn get(&mut self, key: u64) -> Result<Hold, Refusal> {
        let (chunk, within) = self.chunk_of(key);
        chunk.model.lock(chunk.rt).get(within)?;
        Ok(Hold { key })
    }

    fn guard(&mut self, key: u64, value: &mut Value) -> Result<Hold, Refusal> {
        let (chunk, within) = self.chunk_of(key);
        let mut model = chunk.model.lock(chunk.rt);
        model.get(within)?;
        *value = model.read(within)?;
        Ok(Hold { key })
    }

    fn read(&mut self, hold: Hold) -> Result<Value, Refusal> {
        let (chunk, within) = self.chunk_of(hold.key);
        chunk.model.lock(chunk.rt).read(within)
    }

    fn look(&mut self, key: u64) -> Result<Value, Refusal> {
        let (chunk, within) = self.chunk_of(key);
        chunk.model.lock(chunk.rt).look(within)
    }

    fn with(&mut self, key: u64) -> Result<Value, Refusal> {
        self.look(key)
    }

    fn take(&mut self, key: u64) -> Result<Value, Refusal> {
        let (chunk, within) = self.chunk_of(key);
        let mut model = chunk.model.lock(chunk.rt);
        let value = model.get_and_read(within)?;
        model.remove(within)?;
        Ok(value)
    }

    // The places of the second chunk are behind those of the first one.
    fn next_live(&mut self, from: u64) -> Result<Option<Met>, Refusal> {
        if from < SECOND {
            let met = self.first.model.lock(self.first.rt).next_live(from);
            if met.is_some() {
                return Ok(met);
            }
        }
        let within = from.saturating_sub(SECOND);
        let met = self.second.model.lock(self.second.rt).next_live(within);
        Ok(met.map(|Met { key, value, behind }| Met {
            key: self.second_key(key),
            value,
            behind: behind.wrapping_add(SECOND),
        }))
    }

    fn remove(&mut self, key: u64) -> Result<(), Refusal> {
        let (chunk, within) = self.chunk_of(key);
        chunk.model.lock(chunk.rt).remove(within)
    }

    fn release(&mut self, hold: Hold) -> Result<(), Refusal> {
        let (chunk, within) = self.chunk_of(hold.key);
        chunk.model.lock(chunk.rt).release(within)
    }

    fn get_ended(&mut self, key: u64, words: &mut Value) -> (Result<Hold, Refusal>, Option<u64>) {
        let (chunk, within) = self.chunk_of(key);
        let mut model = chunk.model.lock(chunk.rt);
        match model.get(within) {
            Ok(_) => (Ok(Hold { key }), None),
            Err(refusal) => (Err(refusal), key_beside(key, within, model.told(words))),
        }
    }

    fn remove_ended(&mut self, key: u64, words: &mut Value) -> (Result<(), Refusal>, Option<u64>) {
        let (chunk, within) = self.chunk_of(key);
        let mut model = chunk.model.lock(chunk.rt);
        let answer = model.remove(within);
        (answer, key_beside(key, within, model.told(words)))
    }

    fn release_ended(
        &mut self,
        hold: Hold,
        words: &mut Value,
    ) -> (Result<(), Refusal>, Option<u64>) {
        let (chunk, within) = self.chunk_of(hold.key);
        let mut model = chunk.model.lock(chunk.rt);
        let answer = model.release(within);
        (answer, key_beside(hold.key, within, model.told(words)))
    }

    fn receipt(&mut self) -> u64 {
        0
    }

    fn heed(&mut self, _told: u64) -> Result<(), Refusal> {
        Ok(())
    }
}

impl<'a, R: Wait + Sync> LonePass for ModelCaller<'a, R> {
    type Layout = Tiny;

    type Owner = ModelCaller<'a, R>;

    // No call of a caller is made by hand.
    type Stopped = ModelCaller<'a, R>;

    type Whole = ModelCaller<'a, R>;

    fn split(key: u64) -> (u32, u64) {
        if key < SECOND {
            (0, key)
        } else {
            (1, key.wrapping_sub(SECOND))
        }
    }

    fn adopt(self, _alloc: Global, _shard: u64) -> Result<Self, (Self, Refusal)> {
        Ok(self)
    }

    fn insert(owner: &mut Self, value: &Value) -> Result<u64, Refusal> {
        owner.insert(value)
    }

    fn collect(_owner: &mut Self) {}

    fn prepare(_owner: &mut Self, _class: u32) -> Result<(), Refusal> {
        Ok(())
    }

    fn leave(owner: Self) -> Result<Self, (Self, Refusal)> {
        let mut caller = owner;
        if let Err(refusal) = caller.first.leave() {
            return Err((caller, refusal));
        }
        match caller.second.leave() {
            Ok(()) => Ok(caller),
            Err(refusal) => Err((caller, refusal)),
        }
    }

    fn begin(self) -> Result<Self, Self> {
        Err(self)
    }

    fn act(_stopped: &mut Self, _action: &Action) -> bool {
        false
    }

    fn end(stopped: Self) -> Result<Self, Self> {
        Ok(stopped)
    }

    fn join(self, _other: Self) -> Self {
        self
    }

    fn whole(self) -> Result<Self, Fault> {
        Ok(self)
    }

    fn accounts(whole: &mut Self, name: PageName) -> Option<Accounts> {
        let chunk = match name.chunk {
            0 => &whole.first,
            1 => &whole.second,
            _ => return None,
        };
        chunk.model.lock(chunk.rt).accounts(name.shard, name.page)
    }
}
