//! A second store beside the plain one: it knows one pass alone, and a value that it gives is open until it is read.
ghost use Rattle.std.specs.Prelude.{◌≡◌, ◌==◌, if◌then◌else◌, [], ◌∷◌, Ok, Err, Some};
ghost use Rattle.sh_value.specs.declared.refusal.Refusal.TheVariants.{Full, Memory, HoldsFull, BadKey, NotHeld};
ghost use Rattle.sh_history.specs.declared.entry.Entry.TheVariants.{Got, Released};
ghost use Rattle.sh_history.specs.declared.log.LogEntry.TheVariants.{Known, Unread};
ghost use Rattle.sh_plain.specs.Store.{Setting};
ghost use Rattle.test_values.specs.declared.typed.lender.Stage.TheVariants.{Idle, Lent, Read, Returned};

use sh_plain::{Lookup, Store};
use sh_value::{Hold, Refusal, Value};

// The stage of the lender: no hold is taken yet; the hold's value was not read; it was read; the hold was given back.
#[derive(Clone, Copy, Debug, PartialEq, Eq)]
pub enum Stage {
    Idle,
    Lent,
    Read,
    Returned,
}

// The one key of a lender.
pub const LENT_KEY: u64 = 4096;

// A store whose callers are pass 1 of 2. Pass 0 stored this value under its one key, which is not in its book. It gives
// one hold, and takes it back once the value was read. It refuses a hold that it cannot give for memory, or as
// `HoldsFull` if there is memory. It refuses each look and each removal of its key for memory.
#[derive(Drop)]
pub struct Lender {
    pub value: Value,
    pub stage: Stage,
    pub has_memory: bool,
}

impl Lookup for Lender {
    ghost book = { λ s. elim s.stage [
      | Idle ↦ []
      | Lent ↦ Unread 1 4096 ∷ []
      | Read
          ↦ Known (Got 1 4096 s.value) ∷ []
      | Returned ↦ Known (Got 1 4096 s.value) ∷ Known (Released 1 4096) ∷ []
    ] };

    ghost setting = { λ _. Some (record { passes = 2; guard_max = 4; pass = 1; answers_for = λ pass. pass == 1 }) };

    ghost lends = { λ _. tt };

    ghost gets = { λ old key result _. result ≡ (if key == 4096 then elim old.stage [
      | Idle ↦ Ok (record { key = 4096 })
      | Lent ↦ Err (if old.has_memory then HoldsFull else Memory)
      | Read
          ↦ Err (if old.has_memory then HoldsFull else Memory)
      | Returned
          ↦ Err (if old.has_memory then HoldsFull else Memory)
    ] else Err BadKey) };

    ghost reads = { λ old key result _. result ≡ (if key == 4096 then elim old.stage
        [ Idle ↦ Err NotHeld | Lent ↦ Ok old.value | Read ↦ Ok old.value | Returned ↦ Err NotHeld ] else Err NotHeld) };

    ghost looks = { λ old key result new. (result ≡ Err (if key == 4096 then Memory else BadKey)) × (new ≡ old) };

    ghost removes = { λ old key result new. (result ≡ Err (if key == 4096 then Memory else BadKey)) × (new ≡ old) };

    ghost releases = { λ old key result _. result ≡ (if key == 4096 then elim old.stage [
      | Idle ↦ Err NotHeld
      | Lent ↦ Err Memory
      | Read ↦ (if old.has_memory then Ok tt else Err Memory)
      | Returned
          ↦ Err NotHeld
    ] else Err NotHeld) };

    #[tactic(auto, using(crate::proofs::Lending::stages_stand))]
    fn get(&mut self, key: u64) -> Result<Hold, Refusal> {
        if key != LENT_KEY {
            return Err(Refusal::BadKey);
        }
        match self.stage {
            Stage::Idle => {
                self.stage = Stage::Lent;
                Ok(Hold { key })
            }
            _ if self.has_memory => Err(Refusal::HoldsFull),
            _ => Err(Refusal::Memory),
        }
    }

    #[tactic(auto, using(crate::proofs::Lending::stages_stand))]
    fn read(&mut self, hold: Hold) -> Result<Value, Refusal> {
        if hold.key != LENT_KEY {
            return Err(Refusal::NotHeld);
        }
        match self.stage {
            Stage::Lent | Stage::Read => {
                self.stage = Stage::Read;
                Ok(self.value.copy())
            }
            _ => Err(Refusal::NotHeld),
        }
    }

    #[tactic(auto, using(crate::proofs::Lending::stages_stand))]
    fn look(&mut self, key: u64) -> Result<Value, Refusal> {
        Err(if key == LENT_KEY {
            Refusal::Memory
        } else {
            Refusal::BadKey
        })
    }

    #[tactic(auto, using(crate::proofs::Lending::stages_stand))]
    fn remove(&mut self, key: u64) -> Result<(), Refusal> {
        Err(if key == LENT_KEY {
            Refusal::Memory
        } else {
            Refusal::BadKey
        })
    }

    #[tactic(auto, using(crate::proofs::Lending::stages_stand))]
    fn release(&mut self, hold: Hold) -> Result<(), Refusal> {
        if hold.key != LENT_KEY {
            return Err(Refusal::NotHeld);
        }
        match self.stage {
            Stage::Read if self.has_memory => {
                self.stage = Stage::Returned;
                Ok(())
            }
            Stage::Lent | Stage::Read => Err(Refusal::Memory),
            _ => Err(Refusal::NotHeld),
        }
    }
}

impl Store for Lender {
    ghost inserts = { λ old _ result new. (result ≡ Err (if old.has_memory then Full else Memory)) × (new ≡ old) };

    #[tactic(auto, using(crate::proofs::Lending::stages_stand))]
    fn insert(&mut self, _: &Value) -> Result<u64, Refusal> {
        Err(if self.has_memory {
            Refusal::Full
        } else {
            Refusal::Memory
        })
    }
}
