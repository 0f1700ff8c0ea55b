//! Passes of a model: they lock it for each call.
use crate::rounds::defect::Defect;
use crate::rounds::model::Model;
use sh_core::Accounts;
use sh_key::Tiny;
use sh_step::Action;
use sh_value::{Hold, Refusal, Value};
use std::alloc::Global;
use std::sync::{Mutex, Wait};
use tool_judge::fault::{Fault, Wrong};
use tool_rounds::pass::{LonePass, PageName};
use tool_rounds::user::{Met, User};

// What a pass has begun by hand.
#[derive(Clone, Copy, Debug, PartialEq, Eq)]
enum Begun {
    Nothing,
    // It entered the slot of this key, to remove it.
    Entered(u64),
    // It has one more step to do.
    LastStep,
    // It left a slot and ended its key, and has the step to do that does so.
    Ended,
    // The same, and it has yet to leave the slot of this key.
    Leaving(u64),
}

/// A pass, in any of its three states.
#[derive(Drop)]
pub struct ModelPass<'a, R: Wait> {
    rt: &'a R,
    model: &'a Mutex<Model>,
    defect: Defect,
    begun: Begun,
}

impl<'a, R: Wait> ModelPass<'a, R> {
    /// A pass of this model.
    pub fn new(rt: &'a R, model: &'a Mutex<Model>, defect: Defect) -> Self {
        ModelPass {
            rt,
            model,
            defect,
            begun: Begun::Nothing,
        }
    }

    // Enters the slot of a key to get it. One step is left if the get is refused.
    fn enter_get(&mut self, key: u64) -> bool {
        if self.defect == Defect::Unbegun {
            return false;
        }
        let answer = self.model.lock(self.rt).get(key);
        if answer.is_err() {
            self.begun = Begun::LastStep;
        }
        true
    }

    // Enters the slot of a key to remove it.
    fn enter_remove(&mut self, key: u64) -> bool {
        let mut model = self.model.lock(self.rt);
        self.begun = if model.is_live(key) {
            model.enter(key);
            Begun::Entered(key)
        } else {
            Begun::LastStep
        };
        true
    }

    // Marks the slot that it entered: the key is removed by this pass, or was by another.
    fn mark(&mut self) -> bool {
        let Begun::Entered(key) = self.begun else {
            return false;
        };
        let _ = self.model.lock(self.rt).remove(key);
        self.begun = Begun::Leaving(key);
        true
    }

    // Leaves the slot of a key.
    fn leave_slot(&mut self, key: u64) -> bool {
        let mut model = self.model.lock(self.rt);
        let is_left = model.release(key).is_ok();
        self.begun = if model.has_ended() {
            Begun::Ended
        } else {
            Begun::Nothing
        };
        is_left
    }

    // Does the last step, or the last but one.
    fn step(&mut self) -> bool {
        match self.begun {
            Begun::Leaving(key) => return self.leave_slot(key),
            Begun::LastStep if self.defect != Defect::Endless => self.begun = Begun::Nothing,
            Begun::LastStep => {}
            _ => return false,
        }
        true
    }

    // Does the step that ends a key.
    fn finish(&mut self) -> bool {
        let is_ended = self.begun == Begun::Ended;
        if is_ended {
            self.begun = Begun::Nothing;
        }
        is_ended
    }
}

impl<R: Wait> User for ModelPass<'_, R> {
    type Receipt = u64;

    fn get(&mut self, key: u64) -> Result<Hold, Refusal> {
        let mut model = self.model.lock(self.rt);
        if self.defect == Defect::BadKey && model.is_live(key) {
            return Err(Refusal::BadKey);
        }
        model.get(key)
    }

    fn guard(&mut self, key: u64, value: &mut Value) -> Result<Hold, Refusal> {
        let mut model = self.model.lock(self.rt);
        let hold = model.get(key)?;
        *value = model.read(key)?;
        Ok(hold)
    }

    fn read(&mut self, hold: Hold) -> Result<Value, Refusal> {
        if self.defect == Defect::NotHeld {
            return Err(Refusal::NotHeld);
        }
        self.model.lock(self.rt).read(hold.key)
    }

    fn look(&mut self, key: u64) -> Result<Value, Refusal> {
        self.model.lock(self.rt).look(key)
    }

    fn with(&mut self, key: u64) -> Result<Value, Refusal> {
        self.look(key)
    }

    fn take(&mut self, key: u64) -> Result<Value, Refusal> {
        let mut model = self.model.lock(self.rt);
        let value = model.get_and_read(key)?;
        if self.defect != Defect::NotTaken {
            model.remove(key)?;
        }
        Ok(value)
    }

    fn next_live(&mut self, from: u64) -> Result<Option<Met>, Refusal> {
        Ok(self.model.lock(self.rt).next_live(from))
    }

    fn remove(&mut self, key: u64) -> Result<(), Refusal> {
        self.model.lock(self.rt).remove(key)
    }

    fn release(&mut self, hold: Hold) -> Result<(), Refusal> {
        self.model.lock(self.rt).release(hold.key)
    }

    fn get_ended(&mut self, key: u64, words: &mut Value) -> (Result<Hold, Refusal>, Option<u64>) {
        let mut model = self.model.lock(self.rt);
        let answer = model.get(key);
        (answer, model.told(words))
    }

    fn remove_ended(&mut self, key: u64, words: &mut Value) -> (Result<(), Refusal>, Option<u64>) {
        let mut model = self.model.lock(self.rt);
        let answer = model.remove(key);
        (answer, model.told(words))
    }

    fn release_ended(
        &mut self,
        hold: Hold,
        words: &mut Value,
    ) -> (Result<(), Refusal>, Option<u64>) {
        let mut model = self.model.lock(self.rt);
        let answer = model.release(hold.key);
        (answer, model.told(words))
    }

    fn receipt(&mut self) -> u64 {
        0
    }

    fn heed(&mut self, _told: u64) -> Result<(), Refusal> {
        if self.defect == Defect::Unheeded {
            return Err(Refusal::Taken);
        }
        Ok(())
    }
}

impl<'a, R: Wait + Sync> LonePass for ModelPass<'a, R> {
    type Layout = Tiny;

    type Owner = ModelPass<'a, R>;

    type Stopped = ModelPass<'a, R>;

    type Whole = ModelPass<'a, R>;

    fn split(key: u64) -> (u32, u64) {
        (0, key)
    }

    fn adopt(self, _alloc: Global, shard: u64) -> Result<Self, (Self, Refusal)> {
        let answer = self.model.lock(self.rt).adopt(shard);
        match answer {
            Ok(()) => Ok(self),
            Err(refusal) => Err((self, refusal)),
        }
    }

    fn insert(owner: &mut Self, value: &Value) -> Result<u64, Refusal> {
        owner.model.lock(owner.rt).insert(value)
    }

    fn collect(_owner: &mut Self) {}

    fn prepare(owner: &mut Self, class: u32) -> Result<(), Refusal> {
        let _page = owner.model.lock(owner.rt).prepare(class)?;
        Ok(())
    }

    fn leave(owner: Self) -> Result<Self, (Self, Refusal)> {
        let answer = owner.model.lock(owner.rt).leave();
        match answer {
            Ok(()) => Ok(owner),
            Err(refusal) => Err((owner, refusal)),
        }
    }

    fn begin(self) -> Result<Self, Self> {
        Ok(self)
    }

    fn act(stopped: &mut Self, action: &Action) -> bool {
        match action {
            Action::EnterGet(key) => stopped.enter_get(*key),
            Action::EnterRemove(key) => stopped.enter_remove(*key),
            Action::DropHold(key) => stopped.leave_slot(*key),
            Action::Mark => stopped.mark(),
            Action::Drop => stopped.step(),
            Action::Finish => stopped.finish(),
            _ => false,
        }
    }

    fn end(stopped: Self) -> Result<Self, Self> {
        if stopped.begun == Begun::Nothing {
            Ok(stopped)
        } else {
            Err(stopped)
        }
    }

    fn join(self, _other: Self) -> Self {
        self
    }

    fn whole(self) -> Result<Self, Fault> {
        if self.defect == Defect::Apart {
            return Err(Fault::Wrong(Wrong::Apart));
        }
        Ok(self)
    }

    fn accounts(whole: &mut Self, name: PageName) -> Option<Accounts> {
        whole.model.lock(whole.rt).accounts(name.shard, name.page)
    }
}
