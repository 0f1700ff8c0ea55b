//! Mode plain: the calls of a script on the plain store, in the order of their lines.
ghost use Rattle.std.specs.Prelude.{◌≡◌, ◌+◌, ◌<◌, ◌≤◌, ◌++◌, ◌∷◌, [], None, IfOk, IfErr, IsSome};
ghost use Rattle.std.specs.Vec.{vec_capacity, vec_len};
ghost use Rattle.sh_key.specs.Layout.{Layout, first_key, key_count};
ghost use Rattle.sh_plain.specs.Plain.{Plain, PlainReply, Replied, with_added, get_reply, remove_reply, release_reply};
ghost use Rattle.script_output.specs.Keys.{HasTagRoom};
ghost use Rattle.script_models.specs.PlainRun.{run_of, at_turn, has_shard, adopt_answer, adopts, opening_run};
ghost use Rattle.script_models.specs.PlainRun.{leave_answer};
ghost use Rattle.script_models.specs.PlainRun.{leaves, insert_attempt, Inserts, key_of, done_answer, HasReply, MayEnd};
ghost use Rattle.script_models.specs.PlainRun.{Reads};
ghost use Rattle.script_models.specs.PlainRun.{EndsAt, TakesLine};

use script_output::Answer;
use script_output::keys::{key_shown, shown};
use sh_key::KeyLayout;
use sh_plain::{Lookup, PlainStore, Store};
use sh_script::{Call, CallLine, Fault, Reference};
use sh_value::{Hold, Refusal, Value};
use std::alloc::{AllocError, Global};

// The most passes that a shape may have.
const PASSES_MAX: usize = 64;

/// A run on the plain store: the tag of its keys, which passes have a shard, and which key each bound name has.
#[derive(Drop)]
pub struct PlainRun<L: KeyLayout> {
    shards: u32,
    tag: Option<u8>,
    store: PlainStore<L>,
    owners: [bool; 64],
    keys: Vec<Option<u64>>,
}

impl<L: KeyLayout> PlainRun<L> {
    /// A run with this number of shards and passes, and with room for this many names. No pass has a shard and no name
    /// is bound. If there is a tag, keys are written with it.
    pub fn new(
        alloc: Global,
        shards: u32,
        passes: u32,
        tag: Option<u8>,
        names: usize,
    ) -> Result<Self, AllocError>
        requires some { 1 ≤ passes }
        requires few { passes ≤ 64 }
        ensures opens { IfOk result (λ run. run_of run.shards run.tag run.store run.owners run.keys.items
            ≡ opening_run shards passes tag) }
        ensures names { IfOk result (λ run. names ≤ vec_capacity run.keys) }
    {
        let keys = Vec::with_capacity(alloc, names)?;
        Ok(PlainRun {
            shards,
            tag,
            store: PlainStore::new(alloc, passes),
            owners: [false; PASSES_MAX],
            keys,
        })
    }

    /// Runs one line, if there is room for one name more. A get, a remove or a release whose entry is refused memory
    /// ends the run; an insert then returns the refusal. Any other call always returns an answer.
    pub fn step(&mut self, line: &CallLine) -> Result<Answer, Fault>
        requires pass { line.now.pass < self.old.store.passes }
        requires few { self.old.store.passes ≤ 64 }
        requires room { HasTagRoom L.layout self.old.tag }
        requires name { vec_len self.old.keys < vec_capacity self.old.keys }
        ensures steps { IfOk result (λ answer. TakesLine L.layout
            (run_of self.old.shards self.old.tag self.old.store self.old.owners self.old.keys.items) line.now answer
            (run_of self.new.shards self.new.tag self.new.store self.new.owners self.new.keys.items)) }
        ensures memory { IfErr result (λ fault. (fault ≡ Fault.Memory) × EndsAt L.layout
            (run_of self.old.shards self.old.tag self.old.store self.old.owners self.old.keys.items) line.now) }
        ensures passes { self.new.store.passes ≡ self.old.store.passes }
        ensures tag { self.new.tag ≡ self.old.tag }
        ensures names { vec_len self.new.keys ≤ vec_len self.old.keys + 1 }
        ensures capacity { vec_capacity self.old.keys ≤ vec_capacity self.new.keys }
    {
        self.store.turn(line.pass);
        match &line.call {
            Call::Adopt(shard) => Ok(self.adopt(line.pass, *shard)),
            Call::Leave => Ok(self.leave(line.pass)),
            Call::Insert(words) => Ok(self.insert(line.pass, words.as_slice())),
            Call::Get(reference) => self.get(*reference),
            Call::Read(reference) => Ok(self.read(*reference)),
            Call::Remove(reference) => self.remove(*reference),
            Call::Release(reference) => self.release(*reference),
            Call::Post => Ok(self.post()),
            Call::Wait(_) => Ok(Answer::Done),
        }
    }

    fn adopt(&mut self, pass: u32, shard: u64) -> Answer
        requires own { pass ≡ self.old.store.pass }
        requires few { pass < 64 }
        ensures answer { result ≡ adopt_answer (run_of self.old.shards self.old.tag self.old.store self.old.owners
            self.old.keys.items) shard }
        ensures adopts { run_of self.new.shards self.new.tag self.new.store self.new.owners self.new.keys.items
            ≡ adopts (run_of self.old.shards self.old.tag self.old.store self.old.owners self.old.keys.items) shard }
        ensures names { self.new.keys ≡ self.old.keys }
    {
        if self.owners[pass as usize] {
            return Answer::Refused(Refusal::Taken);
        }
        if shard >= self.shards as u64 {
            return Answer::Refused(Refusal::NoShard);
        }
        self.owners[pass as usize] = true;
        Answer::Done
    }

    fn leave(&mut self, pass: u32) -> Answer
        requires own { pass ≡ self.old.store.pass }
        requires few { pass < 64 }
        ensures answer { result ≡ leave_answer (run_of self.old.shards self.old.tag self.old.store self.old.owners
            self.old.keys.items) }
        ensures leaves { run_of self.new.shards self.new.tag self.new.store self.new.owners self.new.keys.items
            ≡ leaves (run_of self.old.shards self.old.tag self.old.store self.old.owners self.old.keys.items) }
        ensures names { self.new.keys ≡ self.old.keys }
    {
        if !self.owners[pass as usize] {
            return Answer::Refused(Refusal::NoShard);
        }
        self.owners[pass as usize] = false;
        Answer::Done
    }

    // What the store returns, once the words fit a value and the pass has a shard.
    fn try_insert(&mut self, pass: u32, words: &[u64]) -> Result<u64, Refusal>
        requires own { pass ≡ self.old.store.pass }
        requires few { pass < 64 }
        ensures replied { Replied (insert_attempt L.layout (run_of self.old.shards self.old.tag self.old.store
            self.old.owners self.old.keys.items) words.now)
            self.old.store result self.new.store }
        ensures same { self.new ≡ record self.old { store = self.new.store } }
        ensures small { IfOk result (λ key. key < first_key L.layout + key_count L.layout) }
    {
        let value = Value::new(words)?;
        if !self.owners[pass as usize] {
            return Err(Refusal::NoShard);
        }
        self.store.insert(&value)
    }

    // An insert has an answer even if the memory for its entry is refused: the name is then bound to no key.
    fn insert(&mut self, pass: u32, words: &[u64]) -> Answer
        requires own { pass ≡ self.old.store.pass }
        requires few { pass < 64 }
        requires room { HasTagRoom L.layout self.old.tag }
        requires name { vec_len self.old.keys < vec_capacity self.old.keys }
        ensures inserts { Inserts L.layout
            (run_of self.old.shards self.old.tag self.old.store self.old.owners self.old.keys.items) words.now result
            (run_of self.new.shards self.new.tag self.new.store self.new.owners self.new.keys.items) }
        ensures passes { self.new.store.passes ≡ self.old.store.passes }
        ensures tag { self.new.tag ≡ self.old.tag }
        ensures names { vec_len self.new.keys ≡ vec_len self.old.keys + 1 }
        ensures capacity { vec_capacity self.old.keys ≤ vec_capacity self.new.keys }
    {
        let result = self.try_insert(pass, words);
        self.bind(result.ok());
        match result {
            Ok(key) => Answer::Key(shown(self.tag, key)),
            Err(refusal) => Answer::Refused(refusal),
        }
    }

    // Binds the next name, for which there is room.
    fn bind(&mut self, key: Option<u64>)
        requires name { vec_len self.old.keys < vec_capacity self.old.keys }
        ensures binds { self.new.keys.items ≡ self.old.keys.items ++ key ∷ [] }
        ensures same { self.new ≡ record self.old { keys = self.new.keys } }
        ensures names { vec_len self.new.keys ≡ vec_len self.old.keys + 1 }
        ensures capacity { vec_capacity self.old.keys ≤ vec_capacity self.new.keys }
    {
        match self.keys.push(key) {
            Ok(()) => (),
            Err(_) => unreachable!(),
        }
    }

    // The key that a call refers to, or the answer to the call if there is no key.
    fn key_of(&self, reference: Reference) -> Result<u64, Answer>
        ensures { result ≡ key_of (run_of self.now.shards self.now.tag self.now.store self.now.owners
            self.now.keys.items) reference }
    {
        match reference {
            Reference::Key(number) => match key_shown(self.tag, number) {
                Some(key) => Ok(key),
                None => Err(Answer::Refused(Refusal::BadKey)),
            },
            Reference::Name(i) => match self.keys.get(i) {
                Some(Some(key)) => Ok(*key),
                Some(None) | None => Err(Answer::Unbound),
            },
        }
    }

    fn get(&mut self, reference: Reference) -> Result<Answer, Fault>
        ensures tells { IfOk result (λ answer. HasReply (get_reply L.layout)
            (run_of self.old.shards self.old.tag self.old.store self.old.owners self.old.keys.items)
            (key_of (run_of self.old.shards self.old.tag self.old.store self.old.owners self.old.keys.items) reference)
            answer
            (run_of self.new.shards self.new.tag self.new.store self.new.owners self.new.keys.items)) }
        ensures memory { IfErr result (λ fault. (fault ≡ Fault.Memory) × MayEnd (get_reply L.layout)
            (run_of self.old.shards self.old.tag self.old.store self.old.owners self.old.keys.items)
            (key_of (run_of self.old.shards self.old.tag self.old.store self.old.owners self.old.keys.items)
            reference)) }
        ensures same { self.new ≡ record self.old { store = self.new.store } }
        ensures passes { self.new.store.passes ≡ self.old.store.passes }
    {
        match self.key_of(reference) {
            Ok(key) => told(self.store.get(key)),
            Err(answer) => Ok(answer),
        }
    }

    fn read(&mut self, reference: Reference) -> Answer
        ensures reads { Reads (run_of self.old.shards self.old.tag self.old.store self.old.owners self.old.keys.items)
            (key_of (run_of self.old.shards self.old.tag self.old.store self.old.owners self.old.keys.items) reference)
            result
            (run_of self.new.shards self.new.tag self.new.store self.new.owners self.new.keys.items) }
        ensures names { self.new.keys ≡ self.old.keys }
    {
        let key = match self.key_of(reference) {
            Ok(key) => key,
            Err(answer) => return answer,
        };
        match self.store.read(Hold { key }) {
            Ok(value) => Answer::Read(value),
            Err(refusal) => Answer::Refused(refusal),
        }
    }

    fn remove(&mut self, reference: Reference) -> Result<Answer, Fault>
        ensures tells { IfOk result (λ answer. HasReply (remove_reply L.layout)
            (run_of self.old.shards self.old.tag self.old.store self.old.owners self.old.keys.items)
            (key_of (run_of self.old.shards self.old.tag self.old.store self.old.owners self.old.keys.items) reference)
            answer
            (run_of self.new.shards self.new.tag self.new.store self.new.owners self.new.keys.items)) }
        ensures memory { IfErr result (λ fault. (fault ≡ Fault.Memory) × MayEnd (remove_reply L.layout)
            (run_of self.old.shards self.old.tag self.old.store self.old.owners self.old.keys.items)
            (key_of (run_of self.old.shards self.old.tag self.old.store self.old.owners self.old.keys.items)
            reference)) }
        ensures same { self.new ≡ record self.old { store = self.new.store } }
        ensures passes { self.new.store.passes ≡ self.old.store.passes }
    {
        match self.key_of(reference) {
            Ok(key) => told(self.store.remove(key)),
            Err(answer) => Ok(answer),
        }
    }

    fn release(&mut self, reference: Reference) -> Result<Answer, Fault>
        ensures tells { IfOk result (λ answer. HasReply release_reply
            (run_of self.old.shards self.old.tag self.old.store self.old.owners self.old.keys.items)
            (key_of (run_of self.old.shards self.old.tag self.old.store self.old.owners self.old.keys.items) reference)
            answer
            (run_of self.new.shards self.new.tag self.new.store self.new.owners self.new.keys.items)) }
        ensures memory { IfErr result (λ fault. (fault ≡ Fault.Memory) × MayEnd release_reply
            (run_of self.old.shards self.old.tag self.old.store self.old.owners self.old.keys.items)
            (key_of (run_of self.old.shards self.old.tag self.old.store self.old.owners self.old.keys.items)
            reference)) }
        ensures same { self.new ≡ record self.old { store = self.new.store } }
        ensures passes { self.new.store.passes ≡ self.old.store.passes }
    {
        match self.key_of(reference) {
            Ok(key) => told(self.store.release(Hold { key })),
            Err(answer) => Ok(answer),
        }
    }

    // Binds the next name to no key.
    fn post(&mut self) -> Answer
        requires name { vec_len self.old.keys < vec_capacity self.old.keys }
        ensures answer { result ≡ Answer.Done }
        ensures binds { run_of self.new.shards self.new.tag self.new.store self.new.owners self.new.keys.items
            ≡ run_of self.old.shards self.old.tag self.old.store self.old.owners (self.old.keys.items ++ None ∷ []) }
        ensures passes { self.new.store.passes ≡ self.old.store.passes }
        ensures tag { self.new.tag ≡ self.old.tag }
        ensures names { vec_len self.new.keys ≡ vec_len self.old.keys + 1 }
        ensures capacity { vec_capacity self.old.keys ≤ vec_capacity self.new.keys }
    {
        self.bind(None);
        Answer::Done
    }
}

// The answer to a call that reports only its refusal. If memory for its entry was refused, the run ends.
fn told<T: Drop>(replied: Result<T, Refusal>) -> Result<Answer, Fault>
    ensures tells { IfOk result (λ answer. (reply : PlainReply T) (old new : Plain) → Replied reply old replied new
        → (answer ≡ done_answer reply.answer) × (new ≡ with_added old reply.adds)) }
    ensures memory { IfErr result (λ fault. (fault ≡ Fault.Memory)
        × ((reply : PlainReply T) (old new : Plain) → Replied reply old replied new → IsSome reply.adds)) }
{
    match replied {
        Ok(_) => Ok(Answer::Done),
        Err(Refusal::Memory) => Err(Fault::Memory),
        Err(refusal) => Ok(Answer::Refused(refusal)),
    }
}
